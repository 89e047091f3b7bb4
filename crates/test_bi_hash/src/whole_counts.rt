//! How often the calls on all items, or on many, compare and hash the keys.
use crate::counts::{Counted, Tallies, length_collected};
use crate::held::*;
use iddqd_bi_hash::Visit;

// Keeps the items of first keys above one.
#[derive(Clone, Copy)]
struct KeepsAboveOne;

impl<'a> Visit<Counted<'a>> for KeepsAboveOne {
    ghost use Rattle.std.specs.Prelude.{nat_lt};

    ghost visits = { λ visitor item. (visitor, item, nat_lt 1 item.one.number) };

    fn visit(&mut self, item: &mut Counted<'a>) -> bool {
        1 < item.one.number
    }
}

#[test]
fn walks(rt: HostRuntime) {
    let tallies = Tallies::default();
    let all = tallies.three(&rt, rt.alloc());
    check(&rt, all.key_counts() == (3, 3));
    let is_sound = all.is_sound(ValidateCompact::Compact);
    tallies.tell(&rt, is_sound, (0, 0, 0, 0));
    let mut map = all.map;
    let mut walk = map.iter_mut();
    for is_lent in [true, true, true, false] {
        check(&rt, walk.next().is_some() == is_lent);
    }
    drop(walk);
    drop(map);
    tallies.tell(&rt, true, (0, 0, 0, 0));
}

// Both keys of the one that goes are hashed, and then those of the one that moves into its slot.
#[test]
fn visits_and_shrinks(rt: HostRuntime) {
    let tallies = Tallies::default();
    let mut all = tallies.three(&rt, rt.alloc());
    for counts in [(0, 1, 0, 1), (0, 0, 0, 0)] {
        all.map.retain_mut(&mut KeepsAboveOne);
        tallies.tell(&rt, all.map.len() == 2, counts);
        check(&rt, all.map.vacant() == 1);
    }
    for (min, counts) in [(Some(3), (0, 1, 0, 1)), (None, (0, 0, 0, 0))] {
        let is_shrunk = all.shrink(min).is_ok();
        tallies.tell(&rt, is_shrunk && all.map.vacant() == 0, counts);
    }
}

#[test]
fn copies(rt: HostRuntime) {
    let tallies = Tallies::default();
    let copy = tallies.three(&rt, rt.alloc()).map.clone();
    let is_made = copy.is_ok_and(|copy| copy.len() == 3);
    tallies.tell(&rt, is_made, (0, 0, 0, 0));
}

// Each first key is hashed once and finds one. Then the items' own `==` compares both keys once.
#[test]
fn equality(rt: HostRuntime) {
    let tallies = Tallies::default();
    let one = tallies.three(&rt, rt.alloc());
    let mut other = tallies.three(&rt, rt.alloc());
    tallies.tell(&rt, one.map.eq(&other.map), (6, 3, 3, 0));
    tallies.tell(&rt, other.is_put(tallies.item(4, 8)), (0, 1, 0, 1));
    let is_equal = one.map.eq(&other.map) || other.map.eq(&one.map);
    tallies.tell(&rt, !is_equal, (0, 0, 0, 0));
}

// As the insertions one by one: the last displaces two, and their other keys are hashed.
#[test]
fn extend(rt: HostRuntime) {
    let tallies = Tallies::default();
    let mut all = tallies.three(&rt, rt.alloc());
    let (four, five) = (tallies.item(4, 8), tallies.item(5, 10));
    let (nine, both) = (tallies.item(9, 18), tallies.item(1, 4));
    for (items, hint, counts) in [
        ([four, five], 0, (0, 2, 0, 2)),
        ([nine, both], 2, (1, 3, 1, 3)),
    ] {
        let is_repeat = all.meets_repeat(Way::Overwrite, Hinted::new(&items, hint));
        tallies.tell(&rt, is_repeat.is_none(), counts);
    }
    check(&rt, all.map.len() == 5);
}

// At the repeat each key is hashed, and finds one. No item behind it is asked for.
#[test]
fn extend_unique(rt: HostRuntime) {
    let tallies = Tallies::default();
    let mut all = tallies.three(&rt, rt.alloc());
    let items = [tallies.item(4, 8), tallies.item(5, 10)];
    let is_repeat = all.meets_repeat(Way::Unique, Hinted::new(&items, 0));
    tallies.tell(&rt, is_repeat.is_none(), (0, 2, 0, 2));
    let items = [tallies.item(6, 12), tallies.item(1, 4), tallies.item(7, 14)];
    let is_repeat = all.meets_repeat(Way::Unique, Hinted::new(&items, 0));
    tallies.tell(&rt, is_repeat == Some(true), (1, 2, 1, 2));
    check(&rt, all.map.len() == 6);
}

#[test]
fn from_iter(rt: HostRuntime) {
    let tallies = Tallies::default();
    drop(tallies.hundred(&rt, rt.alloc(), Way::Overwrite));
    let items = [tallies.item(1, 2), tallies.item(2, 4), tallies.item(1, 4)];
    let length = length_collected(rt.alloc(), Way::Overwrite, &items);
    tallies.tell(&rt, length == Some(1), (1, 4, 1, 4));
}
