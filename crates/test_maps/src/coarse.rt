//! Rows of keys that are equal without regard to case, and of entries.
use crate::commands::{Rows, replies};
use crate::prelude::*;

// What a call returned is this item, spelled so.
fn is_spelled(put: Put, name: [u8; 3], value: u32) -> bool {
    matches!(put, Ok(Some(item)) if spelled(&item) == (name, value))
}

fn overwrites(rt: &impl Abort, mut map: Either<Coarse>) {
    check(rt, matches!(map.overwrite(item_of(*b"Foo", 1)), Ok(None)));
    let old = map.overwrite(item_of(*b"FOO", 2));
    check(rt, is_spelled(old, *b"Foo", 1));
    check(rt, map.spelled_at(*b"foo") == Some((*b"FOO", 2)));
    check(rt, map.len() == 1);
}

#[test]
fn coarse_overwrite(rt: HostRuntime) {
    overwrites(&rt, in_order(rt.alloc()));
    overwrites(&rt, by_hash(rt.alloc()));
}

fn coarse_rows(alloc: Global) -> Rows<Coarse, Caseless> {
    let (first, last) = (item_of(*b"Foo", 1), item_of(*b"FOO", 2));
    let rows = [
        (Command::InsertOverwrite(first), Reply::Inserted),
        (Command::InsertOverwrite(last), Reply::Replaced(first)),
        (Command::Get(first.name), Reply::Found(last)),
        (Command::Get(last.name), Reply::Found(last)),
        (Command::Len, Reply::Length(1)),
        (Command::Clear, Reply::Done),
        (Command::Len, Reply::Length(0)),
    ];
    Ok(Vec::from_array(alloc, rows)?)
}

// The spelling and the value of the item that the reply shows.
fn shown(reply: &Reply<Coarse>) -> Option<([u8; 3], u32)> {
    match reply {
        Reply::Replaced(item) | Reply::Found(item) => Some(spelled(item)),
        _ => None,
    }
}

// Whether the replies are equal, and each item that they show is spelled alike.
fn are_alike((given, expected): (Vec<Reply<Coarse>>, Vec<Reply<Coarse>>)) -> bool {
    given == expected && given.iter().map(shown).eq(expected.iter().map(shown))
}

#[test]
fn coarse_overwrite_by_commands(rt: HostRuntime) -> Result<(), Fail> {
    let alloc = rt.alloc();
    let both = replies(alloc, &mut IdOrdMap::new(alloc), coarse_rows(alloc))?;
    check(&rt, are_alike(both));
    let both = replies(alloc, &mut IdHashMap::new(alloc), coarse_rows(alloc))?;
    check(&rt, are_alike(both));
    Ok(())
}

fn foo_by_entry(rt: &impl Abort, mut map: Either<Coarse>) {
    let foo = map.put_vacant(&Caseless(*b"foo"), item_of(*b"foo", 42));
    check(rt, is_spelled(foo, *b"foo", 42));
    check(rt, map.write(&Caseless(*b"foo"), 99));
    check(rt, map.spelled_at(*b"foo") == Some((*b"foo", 99)));
    let mut asked = 0;
    let found = map.find_or_put(item_of(*b"foo", 7), &mut asked);
    check(rt, is_spelled(found, *b"foo", 99));
    check(rt, asked == 0);
}

#[test]
fn entry(rt: HostRuntime) {
    foo_by_entry(&rt, in_order(rt.alloc()));
    foo_by_entry(&rt, by_hash(rt.alloc()));
}

fn coarse_entries(rt: &impl Abort, mut map: Either<Coarse>) -> Either<Coarse> {
    check(rt, map.is_put(item_of(*b"foo", 42)));
    let doubled = map.double_or_put(item_of(*b"foo", 0));
    check(rt, is_spelled(doubled, *b"foo", 84) && map.len() == 1);
    check(rt, map.insert_and_write(item_of(*b"bar", 5), 6));
    check(rt, map.spelled_at(*b"bar") == Some((*b"bar", 6)));
    let gone = map.put_and_remove(item_of(*b"baz", 1));
    check(rt, is_spelled(gone, *b"baz", 1) && map.len() == 2);
    let old = map.insert_occupied(item_of(*b"FOO", 7));
    check(rt, is_spelled(Ok(old), *b"foo", 84));
    check(rt, map.spelled_at(*b"foo") == Some((*b"FOO", 7)));
    let new = map.put_vacant(&Caseless(*b"qux"), item_of(*b"aaa", 3));
    check(rt, is_spelled(new, *b"aaa", 3));
    check(rt, map.spelled_at(*b"aaa") == Some((*b"aaa", 3)));
    check(rt, map.get(&Caseless(*b"qux")).is_none());
    map
}

#[test]
fn entries_with_coarse_keys(rt: HostRuntime) {
    let ordered = coarse_entries(&rt, in_order(rt.alloc()));
    let items = ordered.listed(rt.alloc()).expect(&rt, "no memory");
    let first = items.as_slice().first().map(spelled);
    check(&rt, first == Some((*b"aaa", 3)));
    let _ = coarse_entries(&rt, by_hash(rt.alloc()));
}
