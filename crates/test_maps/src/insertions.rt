//! Rows of insertions, of each kind of map from one text.
use crate::prelude::*;
use std::hash::Hash;

/// An item that holds more than its key.
pub(crate) type Wide = Filed<u8, (char, char, char)>;

/// Items, each with what its insertion leaves.
pub(crate) type Rows<'a, T> = &'a [(T, Inserted<T>)];

/// Inserts each item with this outcome.
pub(crate) fn insert_each<K: Ord + Hash, T>(rt: &impl Abort, map: &mut Either<T>, rows: Rows<'_, T>)
where
    T: IdOrdItem<Key = K> + IdHashItem<Key = K> + Copy + PartialEq + Drop,
{
    for (item, outcome) in rows {
        check(rt, map.insert(*item) == *outcome);
    }
}

// The map has these items then, and none of the absent key.
fn inserts<K, T>(rt: &impl Abort, mut map: Either<T>, rows: Rows<'_, T>, items: &[T], absent: &K)
where
    K: Ord + Hash,
    T: IdOrdItem<Key = K> + IdHashItem<Key = K> + Copy + PartialEq + Drop,
{
    insert_each(rt, &mut map, rows);
    check(rt, map.has_only(items));
    check(rt, map.get(absent).is_none());
}

fn both_insert<K, T>(rt: &impl Host, rows: Rows<'_, T>, items: &[T], absent: &K)
where
    K: Ord + Hash,
    T: IdOrdItem<Key = K> + IdHashItem<Key = K> + Copy + PartialEq + Drop,
{
    inserts(rt, in_order(rt.alloc()), rows, items, absent);
    inserts(rt, by_hash(rt.alloc()), rows, items, absent);
}

#[test]
fn insert_unique(rt: HostRuntime) {
    let rows = [
        (FOO, Inserted::Done),
        (BAR, Inserted::Done),
        (OTHER_FOO, Inserted::Duplicate(OTHER_FOO, Some(FOO))),
    ];
    both_insert(&rt, &rows, &[FOO, BAR], b"baz");
}

/// An item of this number with three letters.
pub(crate) fn wide(key: u8, letter: char, first: char) -> Wide {
    let value = (letter, first, 'v');
    Filed { key, value }
}

#[test]
fn duplicate_chain(rt: HostRuntime) {
    let (first, third) = (wide(20, 'a', 'x'), wide(20, 'b', 'y'));
    let (fourth, fifth) = (wide(5, 'a', 'y'), wide(5, 'b', 'x'));
    let rows = [
        (first, Inserted::Done),
        (first, Inserted::Duplicate(first, Some(first))),
        (third, Inserted::Duplicate(third, Some(first))),
        (fourth, Inserted::Done),
        (fifth, Inserted::Duplicate(fifth, Some(fourth))),
    ];
    both_insert(&rt, &rows, &[first, fourth], &6);
}

pub(crate) fn double(item: &mut Named) {
    item.value = item.value.wrapping_mul(2);
}

#[test]
fn get_and_double(rt: HostRuntime) {
    let (one, two, other) = (numbered(1, 10), numbered(2, 20), numbered(1, 99));
    let rows = [
        (one, Inserted::Done),
        (two, Inserted::Done),
        (other, Inserted::Duplicate(other, Some(one))),
    ];
    both_insert(&rt, &rows, &[one, two], &3);
    let map = ordered_of(&rt, &[FOO, named(*b"bar", 99)]);
    let (map, _) = map.written(2, double);
    let mut walk = map.iter();
    check(&rt, walk.next().is_some_and(|item| item.value == 198));
    check(&rt, walk.next().is_some_and(|item| item.value == 84));
}

// A removed item is not found, and the others are.
fn coming_and_going(rt: &impl Abort, mut map: Either<Named>) {
    let both = [(FOO, Inserted::Done), (BAR, Inserted::Done)];
    insert_each(rt, &mut map, &both);
    check(rt, map.remove(b"baz") == None);
    check(rt, map.remove(b"foo") == Some(FOO));
    check(rt, map.get(b"foo").is_none() && map.has_only(&[BAR]));
    insert_each(rt, &mut map, &[(OTHER_FOO, Inserted::Done)]);
    map.clear();
    check(rt, map.len() == 0 && map.get(b"bar").is_none());
}

#[test]
fn removals(rt: HostRuntime) {
    coming_and_going(&rt, in_order(rt.alloc()));
    coming_and_going(&rt, by_hash(rt.alloc()));
}
