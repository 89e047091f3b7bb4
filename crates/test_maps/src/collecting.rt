//! Rows of calls on many items.
use crate::insertions::{Wide, wide};
use crate::prelude::*;
use std::hash::Hash;
use test_support::bulk::is_not_taken_in;

// No map is made of the items: the first one has the key of the later one.
fn repeats<K: Ord + Hash, T>(
    rt: &impl Host,
    kind: Kind,
    items: [T; 3],
    later: T,
) -> Result<(), Fail>
where
    T: IdOrdItem<Key = K> + IdHashItem<Key = K> + Copy + PartialEq + Drop,
{
    let made = Either::collected_unique(kind, rt.alloc(), items.iter().copied());
    let Err(FromIterError::Duplicate(repeat)) = made else {
        return Err(Fail::from("no duplicate"));
    };
    check(rt, *repeat.new_item() == later);
    check(rt, repeat.duplicates().len() == 1);
    check(rt, repeat.duplicates().get(0) == items.as_slice().first());
    Ok(())
}

// A map is made of these, and none of items that have one name.
fn collect_names(rt: &impl Host, kind: Kind) -> Result<(), Fail> {
    let two = Either::collected_unique(kind, rt.alloc(), [FOO, named(*b"bar", 99)]);
    check(rt, two.is_ok_and(|map| map.len() == 2));
    let none = Either::<Named>::collected_unique(kind, rt.alloc(), []);
    check(rt, none.is_ok_and(|map| map.len() == 0));
    let foos = [1, 2, 3].map(|value| named(*b"foo", value));
    repeats(rt, kind, foos, foos[1])
}

// Items of two numbers; the last one has the number of the first.
fn of_two_numbers() -> [Wide; 3] {
    [wide(1, 'a', 'x'), wide(2, 'b', 'y'), wide(1, 'c', 'z')]
}

#[test]
fn collect_unique(rt: HostRuntime) -> Result<(), Fail> {
    let items = of_two_numbers();
    repeats(&rt, Kind::Ordered, items, items[2])?;
    repeats(&rt, Kind::Hashed, items, items[2])?;
    collect_names(&rt, Kind::Ordered)?;
    collect_names(&rt, Kind::Hashed)
}

// A map that is extended by others has these items then.
fn extends<K: Ord + Hash, T>(rt: &impl Abort, mut map: Either<T>, coming: &[T], items: &[T])
where
    T: IdOrdItem<Key = K> + IdHashItem<Key = K> + Copy + PartialEq + Drop,
{
    check(rt, map.extend(coming.iter().copied()).is_ok());
    check(rt, map.has_only(items));
}

fn overwritten_by_name(rt: &impl Host, kind: Kind, map: Either<Named>) {
    let coming = [OTHER_FOO, BAR];
    extends(rt, filled(rt, map, &[FOO]), &coming, &coming);
    let made = Either::collected(kind, rt.alloc(), [FOO, BAR, OTHER_FOO]);
    check(rt, made.is_ok_and(|map| map.has_only(&coming)));
}

#[test]
fn extend_overwrites(rt: HostRuntime) {
    let items = of_two_numbers();
    extends(&rt, in_order(rt.alloc()), &items, &items[1..]);
    extends(&rt, by_hash(rt.alloc()), &items, &items[1..]);
    overwritten_by_name(&rt, Kind::Ordered, in_order(rt.alloc()));
    overwritten_by_name(&rt, Kind::Hashed, by_hash(rt.alloc()));
}

fn lied_to(rt: &impl Abort, mut map: Either<Named>) {
    check(rt, is_not_taken_in(&mut map));
    check(rt, map.len() == 0);
    check(rt, map.is_put(FOO) && map.is_put(BAR));
    check(rt, is_not_taken_in(&mut map));
    check(rt, map.has_only(&[FOO, BAR]));
}

#[test]
fn lying_hints(rt: HostRuntime) {
    lied_to(&rt, in_order(rt.alloc()));
    lied_to(&rt, by_hash(rt.alloc()));
}

// The first items of a map, those that come with how many are announced, what that comes to, and the items then.
type Given<'a> = (
    &'a [Named],
    (&'a [Named], usize),
    &'a Added<Named>,
    &'a [Named],
);

fn adds(rt: &impl Abort, map: Either<Named>, given: Given<'_>) {
    let (first, (coming, announced), added, items) = given;
    let mut map = filled(rt, map, first);
    check(rt, map.add_each(Hinted::new(coming, announced)) == *added);
    check(rt, map.has_only(items));
}

// Adds them to maps of each kind that have this limit.
fn both_add(rt: &impl Host, limit: u32, given: Given<'_>) {
    adds(rt, in_order_of(rt.alloc(), limit), given);
    adds(rt, by_hash_of(rt.alloc(), limit), given);
}

#[test]
fn extend_unique_stops(rt: HostRuntime) {
    let coming = [BAR, OTHER_FOO, named(*b"baz", 1)];
    let added = Added::Conflict(OTHER_FOO, Some(FOO));
    both_add(&rt, u32::MAX, (&[FOO], (&coming, 3), &added, &[FOO, BAR]));
}

// The third item has the first one's name.
#[test]
fn extend_unique_repeats(rt: HostRuntime) {
    let coming = [named(*b"  a", 1), named(*b"  b", 2), named(*b"  a", 3)];
    let added = Added::Conflict(coming[2], Some(coming[0]));
    both_add(&rt, u32::MAX, (&[], (&coming, 3), &added, &coming[..2]));
}

// A full map is offered an item that it has, and then a new one.
#[test]
fn extend_unique_at_the_limit(rt: HostRuntime) {
    let (foo, baz) = (named(*b"foo", 9), named(*b"baz", 7));
    let full = TryReserveError::capacity_overflow();
    let added = Added::Conflict(foo, Some(FOO));
    both_add(&rt, 2, (&[FOO], (&[BAR, foo, baz], 0), &added, &[FOO, BAR]));
    let added = Added::Stopped(Some(baz), full);
    both_add(&rt, 2, (&[FOO], (&[BAR, baz, foo], 0), &added, &[FOO, BAR]));
}

fn refuses_announced(rt: &impl Abort, map: Either<Named>) {
    let mut map = filled(rt, map, &[FOO]);
    let item = [BAR];
    let mut liar = Hinted::new(&item, 5);
    let full = TryReserveError::capacity_overflow();
    check(rt, map.add_each(&mut liar) == Added::Stopped(None, full));
    check(rt, liar.next().is_some());
    check(rt, map.len() == 1);
}

#[test]
fn extend_unique_hint(rt: HostRuntime) {
    refuses_announced(&rt, in_order_of(rt.alloc(), 2));
    refuses_announced(&rt, by_hash_of(rt.alloc(), 2));
}

#[test]
fn extend_unique_of_nothing(rt: HostRuntime) {
    let both = [FOO, BAR];
    both_add(&rt, u32::MAX, (&[], (&[], 0), &Added::All, &[]));
    both_add(&rt, u32::MAX, (&both, (&[], 0), &Added::All, &both));
}
