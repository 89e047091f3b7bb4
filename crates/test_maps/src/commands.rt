//! The rows of commands, through `run`, on a map of each kind.
ghost use Rattle.iddqd.specs.Contents.{ClonesAreEqual};
ghost use Rattle.iddqd.specs.Visiting.{VisitsKeepKeys};

use crate::insertions::{Wide, wide};
use crate::prelude::*;
use std::hash::Hash;

/// Commands, each with the reply to it.
pub(crate) type Rows<T, K, V = Untouched> = Result<Vec<(Command<T, K, V>, Reply<T>)>, AllocError>;

/// The map's replies to the commands, and those that it should give.
pub(crate) fn replies<M: KeyedMap, V: Visit<M::Item> + Drop>(
    alloc: Global,
    map: &mut M,
    rows: Rows<M::Item, M::Key, V>,
) -> Result<(Vec<Reply<M::Item>>, Vec<Reply<M::Item>>), AllocError>
where
    M::Item: Clone + Drop,
    M::Key: Drop,
    requires keyed { M.keyed map.old }
    requires clones { ClonesAreEqual M.Item.is_clone }
    requires keeps_keys { VisitsKeepKeys M.key M.Key.eq V.visits }
    ensures keyed { M.keyed map.new }
{
    let (commands, replies): (Vec<_>, Vec<_>) = rows?.into_iter().unzip(alloc)?;
    match run(alloc, map, commands) {
        Ok(given) => Ok((given, replies)),
        Err(_) => Err(AllocError),
    }
}

// Maps of each kind that have this limit give the replies. How many items they have room for then.
fn rooms_after<K, T, F>(rt: &impl Host, limit: u32, rows: F) -> (usize, usize)
where
    K: Ord + Hash + Drop,
    T: IdOrdItem<Key = K> + IdHashItem<Key = K> + Clone + PartialEq + Drop,
    F: Fn(Global) -> Rows<T, K>,
    requires calls { F.IsAlwaysCallable rows }
    requires clones { ClonesAreEqual T.is_clone }
{
    let alloc = rt.alloc();
    let mut ordered = IdOrdMap::with_limit(alloc, limit);
    let (given, expected) = replies(alloc, &mut ordered, rows(alloc)).expect(rt, "no memory");
    check(rt, given == expected);
    let mut hashed = IdHashMap::with_limit(alloc, limit, DefaultHashBuilder::new());
    let (given, expected) = replies(alloc, &mut hashed, rows(alloc)).expect(rt, "no memory");
    check(rt, given == expected);
    (ordered.capacity(), hashed.capacity())
}

fn duplicate<T>(new: T, existing: T) -> Reply<T> {
    let existing = Some(existing);
    Reply::Duplicate { new, existing }
}

fn named_rows(alloc: Global) -> Rows<Named, [u8; 3]> {
    let rows = [
        (Command::InsertUnique(FOO), Reply::Inserted),
        (Command::InsertUnique(BAR), Reply::Inserted),
        (Command::InsertUnique(OTHER_FOO), duplicate(OTHER_FOO, FOO)),
        (Command::Len, Reply::Length(2)),
        (Command::Get(*b"foo"), Reply::Found(FOO)),
        (Command::Get(*b"bar"), Reply::Found(BAR)),
        (Command::Get(*b"baz"), Reply::Absent),
        (Command::Remove(*b"baz"), Reply::Absent),
        (Command::Remove(*b"foo"), Reply::Removed(FOO)),
        (Command::Get(*b"foo"), Reply::Absent),
        (Command::Len, Reply::Length(1)),
    ];
    Ok(Vec::from_array(alloc, rows)?)
}

#[test]
fn insert_unique_by_commands(rt: HostRuntime) {
    let _ = rooms_after(&rt, u32::MAX, named_rows);
}

fn wide_rows(alloc: Global) -> Rows<Wide, u8> {
    let (first, third) = (wide(20, 'a', 'x'), wide(20, 'b', 'y'));
    let (fourth, fifth) = (wide(5, 'a', 'y'), wide(5, 'b', 'x'));
    let rows = [
        (Command::InsertUnique(first), Reply::Inserted),
        (Command::InsertUnique(first), duplicate(first, first)),
        (Command::InsertUnique(third), duplicate(third, first)),
        (Command::InsertUnique(fourth), Reply::Inserted),
        (Command::InsertUnique(fifth), duplicate(fifth, fourth)),
        (Command::Get(20), Reply::Found(first)),
        (Command::Get(5), Reply::Found(fourth)),
    ];
    Ok(Vec::from_array(alloc, rows)?)
}

#[test]
fn duplicate_chain_by_commands(rt: HostRuntime) {
    let _ = rooms_after(&rt, u32::MAX, wide_rows);
}

fn room_rows(alloc: Global) -> Rows<Named, [u8; 3]> {
    let rows = [
        (Command::Reserve(3), Reply::Done),
        (Command::Shrink, Reply::Done),
    ];
    Ok(Vec::from_array(alloc, rows)?)
}

#[test]
fn reserve_and_shrink_by_commands(rt: HostRuntime) {
    let _ = rooms_after(&rt, u32::MAX, room_rows);
}

fn extend(
    alloc: Global,
    items: &[Named],
) -> Result<Command<Named, [u8; 3], Untouched>, AllocError> {
    Ok(Command::ExtendUnique(items.to_vec(alloc)?))
}

fn extending_rows(alloc: Global) -> Rows<Named, [u8; 3]> {
    let conflict = Reply::Conflict {
        new: OTHER_FOO,
        existing: Some(FOO),
        after: 1,
    };
    let rows = [
        (extend(alloc, &[FOO, BAR])?, Reply::Extended(2)),
        (extend(alloc, &[named(*b"baz", 1), OTHER_FOO])?, conflict),
        (extend(alloc, &[])?, Reply::Extended(0)),
        (Command::Len, Reply::Length(3)),
    ];
    Ok(Vec::from_array(alloc, rows)?)
}

#[test]
fn extend_unique_by_commands(rt: HostRuntime) {
    let _ = rooms_after(&rt, u32::MAX, extending_rows);
}

fn stopped(item: Option<Named>, after: usize) -> Reply<Named> {
    let error = TryReserveError::capacity_overflow();
    Reply::Stopped { item, error, after }
}

fn full_rows(alloc: Global) -> Rows<Named, [u8; 3]> {
    let (a, b, c) = (named(*b"a  ", 1), named(*b"b  ", 2), named(*b"c  ", 3));
    let rows = [
        (extend(alloc, &[a, b, c])?, stopped(None, 0)),
        (Command::InsertUnique(a), Reply::Inserted),
        (extend(alloc, &[b, c])?, stopped(Some(c), 1)),
        (Command::Len, Reply::Length(2)),
    ];
    Ok(Vec::from_array(alloc, rows)?)
}

#[test]
fn extend_unique_commands(rt: HostRuntime) {
    let _ = rooms_after(&rt, 2, full_rows);
}

// Writes to each item how many it has seen before, and keeps the first ones, this many.
#[derive(Clone, Copy, PartialEq, Eq)]
struct KeepsFirst {
    many: u32,
    seen: u32,
}

impl Visit<Numbered> for KeepsFirst {
    ghost use Rattle.std.specs.Prelude.{◌+◌, ◌%◌, ◌^◌, nat_lt};

    ghost visits = { λ v x. (record v { seen = (v.seen + 1) % 2 ^ 32 }, record x { value = v.seen }, nat_lt v.seen v.many) };

    fn visit(&mut self, item: &mut Numbered) -> bool {
        item.value = self.seen;
        self.seen = self.seen.wrapping_add(1);
        item.value < self.many
    }
}

// Of three numbers the first two that are visited stay.
fn keeping_rows(alloc: Global) -> Rows<Numbered, u32, KeepsFirst> {
    let keeps_two = KeepsFirst { many: 2, seen: 0 };
    let rows = [
        (Command::InsertUnique(numbered(3, 30)), Reply::Inserted),
        (Command::InsertUnique(numbered(1, 10)), Reply::Inserted),
        (Command::InsertUnique(numbered(2, 20)), Reply::Inserted),
        (Command::RetainMut(keeps_two), Reply::Kept(2)),
    ];
    Ok(Vec::from_array(alloc, rows)?)
}

#[test]
fn retain_mut_by_commands(rt: HostRuntime) -> Result<(), Fail> {
    let mut map = IdOrdMap::new(rt.alloc());
    let (given, expected) = replies(rt.alloc(), &mut map, keeping_rows(rt.alloc()))?;
    check(&rt, given == expected);
    check(&rt, map.iter().eq(&[numbered(1, 0), numbered(2, 1)]));
    Ok(())
}

// Whether these are two of the numbers 1 to 3, of which one was visited first and the other second.
fn are_first_two(one: Numbered, other: Numbered) -> bool {
    let are_of_three = (1..=3).contains(&one.number) && (1..=3).contains(&other.number);
    let are_in_turn = matches!((one.value, other.value), (0, 1) | (1, 0));
    are_of_three && one.number != other.number && are_in_turn
}

#[test]
fn hash_retain_mut_by_commands(rt: HostRuntime) -> Result<(), Fail> {
    let mut map = IdHashMap::new(rt.alloc());
    let (given, expected) = replies(rt.alloc(), &mut map, keeping_rows(rt.alloc()))?;
    check(&rt, given == expected);
    let mut walk = map.iter();
    let (one, other) = (walk.next().copied(), walk.next().copied());
    check(&rt, walk.next().is_none());
    let are_kept = matches!((one, other), (Some(one), Some(other)) if are_first_two(one, other));
    check(&rt, are_kept);
    Ok(())
}

fn reserving(alloc: Global) -> Rows<Named, [u8; 3]> {
    Ok(Vec::from_array(alloc, [(Command::Reserve(100), Reply::Done)])?)
}

// The room of a hundred, with one item in it, is given back but for that of the item.
fn shrinking(alloc: Global) -> Rows<Named, [u8; 3]> {
    let rows = [
        (Command::Reserve(100), Reply::Done),
        (Command::InsertUnique(FOO), Reply::Inserted),
        (Command::Shrink, Reply::Done),
    ];
    Ok(Vec::from_array(alloc, rows)?)
}

#[test]
fn room_by_commands(rt: HostRuntime) {
    check(&rt, rooms_after(&rt, u32::MAX, reserving) == (100, 100));
    check(&rt, rooms_after(&rt, u32::MAX, shrinking) == (1, 1));
}
