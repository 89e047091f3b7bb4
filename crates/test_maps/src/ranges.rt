//! Rows of the ordered map's ends, positions, ranges and walks from the back, against plain lists.
use crate::drops::tickets;
use crate::prelude::*;
use iddqd::Text;
use std::ops::{Bound, RangeBounds};
use test_support::maps::in_order;
use test_support::ordered::Bounds;

fn even(half: u32) -> Numbered {
    let number = half.wrapping_mul(2);
    numbered(number, number.wrapping_mul(7))
}

// The even numbers below twice the count, inserted at one end or the other in turn.
fn evens(rt: &impl Host, count: u32) -> Ordered<Numbered> {
    let mut map = in_order(rt.alloc());
    for half in 0..count {
        let placed = if half % 2 == 0 {
            half
        } else {
            count.wrapping_sub(half).wrapping_sub(count % 2)
        };
        check(rt, map.is_put(even(placed)));
    }
    map
}

// The even numbers below twice the count that lie between the bounds, or those that do not.
fn listed(rt: &impl Host, count: u32, bounds: Bounds<'_, u32>, between: bool) -> Vec<Numbered> {
    let mut items = Vec::new(rt.alloc());
    for item in (0..count).map(even) {
        if bounds.contains(&item.number) == between {
            items.push(item).expect(rt, "no memory");
        }
    }
    items
}

// The greatest count of comparisons of a search among this many items.
fn most(count: u32) -> u32 {
    let digits = 32_u32.wrapping_sub(count.leading_zeros());
    digits.wrapping_mul(2).wrapping_add(4)
}

// The greatest count of comparisons for the bound.
fn most_of(bound: Bound<&u32>, count: u32) -> u32 {
    match bound {
        Bound::Unbounded => 0,
        _ => most(count),
    }
}

// The range is that of the plain list, and so are the first item from the lower bound on, and the last one before the
// upper. It is counted within the greatest number of comparisons.
fn is_range(rt: &impl Host, map: &Ordered<Numbered>, count: u32, (low, high): Bounds<'_, u32>) {
    let from = listed(rt, count, (low, Bound::Unbounded), true);
    check(rt, map.lower_bound(low) == from.as_slice().first());
    let to = listed(rt, count, (Bound::Unbounded, high), true);
    check(rt, map.upper_bound(high) == to.as_slice().last());
    let items = listed(rt, count, (low, high), true);
    check(rt, map.has_between((low, high), items.as_slice()));
    let (number, steps) = map.count_between((low, high));
    check(rt, number == items.len());
    let most = most_of(low, count).wrapping_add(most_of(high, count));
    check(rt, steps <= most);
}

// The removal of a range of the even numbers leaves the others, and tells how many it removed.
fn is_removed(rt: &impl Host, count: u32, bounds: Bounds<'_, u32>) {
    let left = listed(rt, count, bounds, false);
    let gone = (count as usize).saturating_sub(left.len());
    let mut map = evens(rt, count);
    check(rt, map.remove_range(bounds) == gone);
    check(rt, map.has_items(left.as_slice()));
    check(rt, map.map().vacant() as usize == gone);
}

// Each pair of bounds, of this many numbers a step apart: of pairs that run backwards too.
fn pairs(rt: &impl Host, points: u32, step: u32) -> Vec<(Bound<u32>, Bound<u32>)> {
    let (mut bounds, mut pairs) = (Vec::new(rt.alloc()), Vec::new(rt.alloc()));
    bounds.push(Bound::Unbounded).expect(rt, "no memory");
    for number in (0..points).map(|point| point.wrapping_mul(step)) {
        bounds.push(Bound::Included(number)).expect(rt, "no memory");
        bounds.push(Bound::Excluded(number)).expect(rt, "no memory");
    }
    for low in bounds.as_slice() {
        for high in bounds.as_slice() {
            pairs.push((*low, *high)).expect(rt, "no memory");
        }
    }
    pairs
}

fn are_ranges(rt: &impl Host, count: u32, points: u32, step: u32) {
    let map = evens(rt, count);
    for (low, high) in pairs(rt, points, step) {
        is_range(rt, &map, count, (low.as_ref(), high.as_ref()));
    }
}

#[test]
fn ranges_of_few(rt: HostRuntime) {
    are_ranges(&rt, 0, 2, 1);
    are_ranges(&rt, 1, 4, 1);
    are_ranges(&rt, 13, 28, 1);
}

#[test]
fn ranges_of_many(rt: HostRuntime) {
    are_ranges(&rt, 200, 18, 23);
}

// Each item is found at its position, and the next number belongs behind it, by no more comparisons than `get`.
fn positions_among(rt: &impl Host, count: u32) {
    let items = listed(rt, count, (Bound::Unbounded, Bound::Unbounded), true);
    let map = evens(rt, count);
    for (position, item) in items.as_slice().iter().enumerate() {
        let (found, steps) = map.index_of(&item.number);
        let (absent, more) = map.index_of(&item.number.wrapping_add(1));
        check(rt, found == Ok(position));
        check(rt, absent == Err(position.wrapping_add(1)));
        check(rt, steps <= most(count) && more <= most(count));
        check(rt, map.get_index(position) == Some(item));
    }
    check(rt, map.get_index(items.len()).is_none());
    check(rt, map.has_items(items.as_slice()));
}

// Positions and walks from the back, from both ends in turn and of a clone of a walk.
#[test]
fn positions(rt: HostRuntime) {
    for count in [0, 1, 2, 12, 40, 300] {
        positions_among(&rt, count);
    }
}

// A walk that ends the map gives its items from both ends in turn.
#[test]
fn owned_walk_from_both_ends(rt: HostRuntime) {
    let mut walk = evens(&rt, 40).into_map().into_iter();
    for half in 0..20 {
        check(&rt, walk.next() == Some(even(half)));
        let last = even(39_u32.wrapping_sub(half));
        check(&rt, walk.next_back() == Some(last));
    }
    check(&rt, walk.len() == 0);
    check(&rt, walk.next_back().is_none() && walk.next().is_none());
}

#[test]
fn removals_by_position(rt: HostRuntime) {
    let mut map = evens(&rt, 5);
    check(&rt, map.remove_index(5).is_none());
    check(&rt, map.take_index(5).is_none());
    check(&rt, map.remove_index(2) == Some(even(2)));
    check(&rt, map.take_index(0) == Some(even(0)));
    check(&rt, map.has_items(&[even(1), even(3), even(4)]));
    check(&rt, map.take_index(2) == Some(even(4)));
    check(&rt, map.remove_index(1) == Some(even(3)));
    check(&rt, map.remove_index(0) == Some(even(1)));
    check(&rt, map.remove_index(0).is_none());
    check(&rt, map.map().vacant() == 5);
}

#[test]
fn removed_ranges(rt: HostRuntime) {
    for (count, points, step) in [
        (0, 2, 1),
        (1, 4, 1),
        (6, 14, 1),
        (60, 12, 11),
        (700, 5, 331),
    ] {
        for (low, high) in pairs(&rt, points, step) {
            is_removed(&rt, count, (low.as_ref(), high.as_ref()));
        }
    }
}

#[test]
fn removed_range_drops(rt: HostRuntime) {
    let dropped = Cell::new(0);
    let mut map = in_order(rt.alloc());
    let items = tickets(&rt, &[0, 1, 2, 3, 4, 5, 6, 7, 8, 9], &dropped);
    check(&rt, map.extend(items).is_ok() && dropped.get() == 0);
    let bounds = (Bound::Excluded(&2), Bound::Included(&6));
    check(&rt, map.remove_range(bounds) == 4 && dropped.get() == 4);
    drop(map);
    check(&rt, dropped.get() == 10);
}

// Texts as bounds, of which none need be a key.
fn ask_by_texts<'a>(rt: &impl Abort, map: &Ordered<Titled>, low: &'a Text<'a>, high: &'a Text<'a>) {
    for (from, to, count) in [
        (Bound::Included(low), Bound::Included(high), 2),
        (Bound::Included(low), Bound::Excluded(high), 1),
        (Bound::Excluded(high), Bound::Unbounded, 1),
        (Bound::Included(high), Bound::Included(low), 0),
    ] {
        check(rt, map.count_between((from, to)).0 == count);
    }
    let first = map.lower_bound(Bound::Included(low));
    let last = map.upper_bound(Bound::Excluded(high));
    check(rt, first.map(|item| item.value) == Some(2));
    check(rt, last.map(|item| item.value) == Some(2));
    check(rt, map.index_of(high).0 == Ok(2));
    check(rt, map.index_of(&Text("n")).0 == Err(3));
}

#[test]
fn ranges_of_texts(rt: HostRuntime) {
    let mut map = in_order(rt.alloc());
    for (name, value) in [("pear", 4), ("apple", 1), ("fig", 2), ("melon", 3)] {
        check(&rt, map.is_put(titled(&rt, name, value)));
    }
    ask_by_texts(&rt, &map, &Text("b"), &Text("melon"));
}

#[test]
fn ranges_of_coarse_keys(rt: HostRuntime) {
    let (bar, baz) = (item_of(*b"Bar", 1), item_of(*b"baz", 2));
    let foo = item_of(*b"FOO", 3);
    let mut map = ordered_of(&rt, &[foo, bar, baz]);
    let (low, high) = (Caseless(*b"BAR"), Caseless(*b"foo"));
    let (from, after) = (Bound::Included(&low), Bound::Excluded(&low));
    let (to, before) = (Bound::Included(&high), Bound::Excluded(&high));
    check(&rt, map.has_between((from, to), &[bar, baz, foo]));
    check(&rt, map.has_between((after, before), &[baz]));
    check(&rt, map.has_between((to, from), &[]));
    check(&rt, map.index_of(&high).0 == Ok(2));
    check(&rt, map.remove_range((after, to)) == 2);
    check(&rt, map.has_items(&[bar]));
}

#[test]
fn ends(rt: HostRuntime) {
    let mut map = ordered_of(&rt, &[FOO, BAR, BAZ]);
    check(&rt, map.map().first() == Some(&BAR));
    check(&rt, map.map().last() == Some(&FOO));
    check(&rt, map.pop_first() == Some(BAR));
    check(&rt, map.len() == 2);
    check(&rt, map.pop_first() == Some(BAZ));
    check(&rt, map.pop_first() == Some(FOO));
    check(&rt, map.pop_first() == None);
}

#[test]
fn ends_from_behind(rt: HostRuntime) {
    let mut map = ordered_of(&rt, &[FOO, BAR, BAZ]);
    check(&rt, map.pop_last() == Some(FOO));
    check(&rt, map.pop_last() == Some(BAZ));
    check(&rt, map.pop_last() == Some(BAR));
    check(&rt, map.pop_last() == None);
}

// The map, once the value of its first item is written through the entry.
#[tactic(auto, using(iddqd::proofs::GuardLemmas::same_key_kept))]
fn first_written(map: Ordered<Named>, value: u32) -> Option<Ordered<Named>> {
    let mut map = map.into_map();
    let mut lent = map.first_entry()?.into_mut();
    lent.value = value;
    lent.finish();
    Some(Ordered::new(map))
}

#[test]
fn ends_by_entries(rt: HostRuntime) {
    let map = first_written(ordered_of(&rt, &[FOO, BAR, BAZ]), 100).expect(&rt, "no first entry");
    let map: Either<Named> = Either::Ordered(map);
    check(&rt, map.has_only(&[named(*b"bar", 100), BAZ, FOO]));
}

#[test]
fn ends_of_empty_map(rt: HostRuntime) {
    let mut map: Ordered<Named> = in_order(rt.alloc());
    check(&rt, map.map().first().is_none());
    check(&rt, map.map().last().is_none());
    check(&rt, map.pop_first().is_none() && map.pop_last().is_none());
    check(&rt, map.remove_last().is_none());
    check(&rt, first_written(map, 100).is_none());
}
