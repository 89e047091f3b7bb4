//! Rows of visitors, of walks that write and that retain, and of a `for` that reads.
ghost use Rattle.std.specs.Prelude.{nat_eq};
ghost use Rattle.iddqd.specs.Visiting.{VisitsKeepKeys};

use crate::commands::{Rows, replies};
use crate::insertions::double;
use crate::prelude::*;
use test_support::nine::{are_left, retain_nine};
use test_support::visitors::Change;

// The visitor, once it has kept the odd ones of three.
fn odd_of_three(rt: &impl Abort, map: Either<Numbered>) -> Change {
    let three = [numbered(3, 30), numbered(1, 10), numbered(2, 20)];
    let mut map = filled(rt, map, &three);
    let mut visitor = Change::KeepOdd(0);
    map.retain_mut(&mut visitor);
    check(rt, map.has_only(&[numbered(1, 11), numbered(3, 31)]));
    visitor
}

// A visit that writes 0 and returns false removes nothing.
fn visiting_rows(alloc: Global) -> Rows<Numbered, u32, Change> {
    let rows = [
        (Command::InsertUnique(numbered(3, 30)), Reply::Inserted),
        (Command::InsertUnique(numbered(1, 10)), Reply::Inserted),
        (Command::InsertUnique(numbered(2, 20)), Reply::Inserted),
        (Command::Visit(1, Change::DenyAll), Reply::Visited(false)),
        (Command::Get(1), Reply::Found(numbered(1, 0))),
    ];
    Ok(Vec::from_array(alloc, rows)?)
}

// Whether the commands have the replies of their rows.
fn are_visited<M: KeyedMap<Item = Numbered, Key = u32>>(
    alloc: Global,
    map: &mut M,
) -> Result<bool, AllocError>
    requires keyed { M.keyed map.old }
    requires keeps_keys { VisitsKeepKeys M.key nat_eq ⟦<Change as Visit<Numbered>>⟧.visits }
{
    let (given, expected) = replies(alloc, map, visiting_rows(alloc))?;
    Ok(given == expected)
}

#[test]
fn visitor(rt: HostRuntime) -> Result<(), Fail> {
    let alloc = rt.alloc();
    let seen = odd_of_three(&rt, in_order(alloc));
    check(&rt, seen == Change::KeepOdd(123));
    let _ = odd_of_three(&rt, by_hash(alloc));
    check(&rt, are_visited(alloc, &mut IdOrdMap::new(alloc))?);
    check(&rt, are_visited(alloc, &mut IdHashMap::new(alloc))?);
    Ok(())
}

// The names that were asked about, once the greater values were kept.
fn kept_by_value(rt: &impl Host, map: Either<Named>) -> Vec<[u8; 3]> {
    let mut map = filled(rt, map, &[FOO, BAR, BAZ]);
    let mut asked = Vec::new(rt.alloc());
    map.retain(|item| {
        let _ = asked.push(item.name);
        item.value > 30
    });
    check(rt, map.has_only(&[FOO, BAZ]));
    check(rt, map.get(b"bar").is_none());
    asked
}

#[test]
fn retain_by_value(rt: HostRuntime) {
    let asked = kept_by_value(&rt, in_order(rt.alloc()));
    let in_order = [*b"bar", *b"baz", *b"foo"];
    check(&rt, asked.as_slice() == in_order.as_slice());
    check(&rt, kept_by_value(&rt, by_hash(rt.alloc())).len() == 3);
}

// The values of foo and bar, and how many items the walk had left.
type Doubled = (Option<u32>, Option<u32>, usize);

// Once a walk has doubled this many of the map's. What reads them is a walk too, for which the map need not be keyed.
macro_rules! doubled {
    ($map:expr, $most:ident) => {{
        let (map, left) = $map.written($most, double);
        let foo = map.iter().find(|item| item.name == *b"foo");
        let bar = map.iter().find(|item| item.name == *b"bar");
        (foo.map(|item| item.value), bar.map(|item| item.value), left)
    }};
}

fn doubled_in_order(rt: &impl Host, most: usize) -> Doubled {
    doubled!(ordered_of(rt, &[FOO, BAR]), most)
}

fn doubled_by_hash(rt: &impl Host, most: usize) -> Doubled {
    doubled!(hashed_of(rt, &[FOO, BAR]), most)
}

#[test]
fn writing_walk(rt: HostRuntime) {
    let all = (Some(84), Some(40), 0);
    check(&rt, doubled_in_order(&rt, 3) == all);
    check(&rt, doubled_by_hash(&rt, 3) == all);
}

#[test]
fn writing_walk_of_one_item(rt: HostRuntime) {
    check(&rt, doubled_in_order(&rt, 1) == (Some(42), Some(40), 1));
    let told = doubled_by_hash(&rt, 1);
    let (foo, bar) = ((Some(84), Some(20), 1), (Some(42), Some(40), 1));
    check(&rt, told == foo || told == bar);
}

#[test]
fn for_over_ordered_map(rt: HostRuntime) {
    let map = ordered_of(&rt, &[FOO, BAR, BAZ]);
    let mut expected = [BAR, BAZ, FOO].iter();
    for item in map.map() {
        check(&rt, expected.next() == Some(item));
    }
    check(&rt, expected.next().is_none());
}

// If nothing was removed, the items come as they were inserted.
#[test]
fn for_over_hash_map(rt: HostRuntime) {
    let map = hashed_of(&rt, &[FOO, BAR, BAZ]);
    let mut expected = [FOO, BAR, BAZ].iter();
    for item in map.map() {
        check(&rt, expected.next() == Some(item));
    }
    check(&rt, expected.next().is_none());
}

fn nine_left(rt: &impl Abort, mut map: Either<Numbered>) {
    check(rt, retain_nine(&mut map) && are_left(&map));
    check(rt, map.vacant() == 16);
    check(rt, map.reserve(10) == Ok(()));
    check(rt, map.is_sound());
    let valid = map.validates(ValidateCompact::Compact);
    check(rt, valid == (false, false));
    check(rt, map.shrink_to_fit() == Ok(()));
    check(rt, map.is_compact() && are_left(&map));
}

#[test]
fn retain_then_shrink(rt: HostRuntime) {
    nine_left(&rt, in_order(rt.alloc()));
    nine_left(&rt, by_hash(rt.alloc()));
}
