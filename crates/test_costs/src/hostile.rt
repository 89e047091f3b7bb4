//! Rows of writes that spell a key anew, of guards lent once more, of equal hashes, and of walks that end early.
use crate::numbers::{are_found, numbered, of_equal_hashes, ordered_of};
use crate::prelude::*;

// Whether bar 1 and Foo 2 are inserted.
fn has_bar_and_foo(map: &mut Either<Coarse>) -> bool {
    map.is_put(item_of(*b"bar", 1)) && map.is_put(item_of(*b"Foo", 2))
}

const BAR: ([u8; 3], u32) = (*b"bar", 1);

const FOO: ([u8; 3], u32) = (*b"fOO", 7);

// Whether another item of FOO is a duplicate of fOO 7 once that is written over Foo, and bar is as it was.
fn is_respelled(map: &mut Either<Coarse>, way: Way) -> bool {
    let asked = Caseless(*b"FOO");
    let is_written = has_bar_and_foo(map) && map.respell(&asked, item_of(*b"fOO", 7), way);
    let existing = match map.insert(item_of(*b"FOO", 9)) {
        Inserted::Duplicate(_, existing) => existing,
        Inserted::Done | Inserted::Refused(_, _) => None,
    };
    is_written
        && existing.as_ref().map(spelled) == Some(FOO)
        && map.spelled_at(*b"BAR") == Some(BAR)
        && map.len() == 2
}

// The walk of an ordered map shows bar 1, and fOO 7 behind it.
fn respells_in_order(alloc: Global, way: Way) -> Result<bool, AllocError> {
    let mut map = in_order(alloc);
    let is_respelled = is_respelled(&mut map, way);
    Ok(is_respelled && map.listed(alloc)?.iter().map(spelled).eq([BAR, FOO]))
}

// That of a hash map shows both, in whatever order.
fn respells_by_hash(alloc: Global, way: Way) -> Result<bool, AllocError> {
    let mut map = by_hash(alloc);
    let is_respelled = is_respelled(&mut map, way);
    let walked = map.listed(alloc)?;
    let is_bar_first = walked.iter().map(spelled).eq([BAR, FOO]);
    Ok(is_respelled && (is_bar_first || walked.iter().map(spelled).eq([FOO, BAR])))
}

#[test]
fn coarse_writes(rt: HostRuntime) -> Result<(), Fail> {
    check(&rt, respells_in_order(rt.alloc(), Way::Guard)?);
    check(&rt, respells_by_hash(rt.alloc(), Way::Guard)?);
    Ok(())
}

#[test]
fn coarse_writes_by_entry(rt: HostRuntime) -> Result<(), Fail> {
    check(&rt, respells_in_order(rt.alloc(), Way::Entry)?);
    check(&rt, respells_by_hash(rt.alloc(), Way::Entry)?);
    Ok(())
}

#[test]
fn coarse_writes_by_visitor(rt: HostRuntime) -> Result<(), Fail> {
    check(&rt, respells_in_order(rt.alloc(), Way::Visitor)?);
    check(&rt, respells_by_hash(rt.alloc(), Way::Visitor)?);
    Ok(())
}

#[test]
fn coarse_writes_by_walk(rt: HostRuntime) -> Result<(), Fail> {
    check(&rt, respells_in_order(rt.alloc(), Way::Walk)?);
    Ok(())
}

#[test]
fn hash_coarse_writes_by_walk(rt: HostRuntime) -> Result<(), Fail> {
    check(&rt, respells_by_hash(rt.alloc(), Way::Walk)?);
    Ok(())
}

// The inner loan writes 5: the guard reads it then, and shows it once it is spent.
fn reads_and_shows(map: &mut Either<Coarse>) -> bool {
    let is_full = has_bar_and_foo(map);
    let five = (*b"Foo", 5);
    match map.write_by_reborrow(&Caseless(*b"Foo"), 5) {
        Some(three) => {
            let [_, read, shown] = three;
            is_full && spelled(&read) == five && spelled(&shown) == five
        }
        None => false,
    }
}

#[test]
fn reborrow(rt: HostRuntime) {
    check(&rt, reads_and_shows(&mut in_order(rt.alloc())));
    check(&rt, reads_and_shows(&mut by_hash(rt.alloc())));
}

fn equals_its_clone(map: &mut Either<Coarse>) -> bool {
    let is_full = has_bar_and_foo(map);
    let copy = map.copied();
    let is_spent = map.spend(&Caseless(*b"Foo"));
    match copy {
        Ok(copy) => is_full && is_spent && map.equals(&copy),
        Err(_) => false,
    }
}

#[test]
fn guard_spent_unwritten(rt: HostRuntime) {
    check(&rt, equals_its_clone(&mut in_order(rt.alloc())));
    check(&rt, equals_its_clone(&mut by_hash(rt.alloc())));
}

// Whether fifty numbers are inserted, each two above the one before.
fn fifty_are_put<S: BuildHasher>(map: &mut Either<Numbered, S>, first: u32) -> bool {
    for half in 0..50u32 {
        if !map.is_put(numbered(half.wrapping_mul(2).wrapping_add(first))) {
            return false;
        }
    }
    true
}

// Whether the even numbers below a hundred come out.
fn fifty_come_out<S: BuildHasher>(map: &mut Either<Numbered, S>) -> bool {
    for half in 0..50u32 {
        if map.remove(&half.wrapping_mul(2)).is_none() {
            return false;
        }
    }
    true
}

// Whether a hundred numbers are found after a shrink without the even ones.
fn is_found_shrunk<S: BuildHasher>(map: &mut Either<Numbered, S>) -> bool {
    fifty_are_put(map, 0)
        && fifty_are_put(map, 1)
        && fifty_come_out(map)
        && map.shrink_to_fit().is_ok()
        && map.is_compact()
        && fifty_are_put(map, 0)
        && are_found(map, 100)
}

#[test]
fn equal_hashes_shrunk(rt: HostRuntime) {
    check(&rt, is_found_shrunk(&mut of_equal_hashes(rt.alloc())));
}

// The values of the first ten of thirty numbers are one more than they were.
#[test]
fn writing_walk_stopped(rt: HostRuntime) {
    let (map, left) = ordered_of(&rt, 1, 31).written(10, |item: &mut Numbered| {
        item.value = item.value.wrapping_add(1);
    });
    check(&rt, left == 20 && map.len() == 30);
    for item in map.iter() {
        let raise = u32::from(item.number <= 10);
        check(&rt, item.value == (item.number ^ 5).wrapping_add(raise));
    }
}
