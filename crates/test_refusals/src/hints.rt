//! Iterators whose hints lie, with a request refused.
use crate::prelude::*;
use test_support::bulk::is_not_taken_in;
use test_support::items::{BAR, FOO, Named};

// Inserts the item, again if it is refused: whether it was refused, or `None` if it is not in.
fn put_at_last(map: &mut Either<Named>, item: Named) -> Option<bool> {
    match map.insert(item) {
        Inserted::Done => Some(false),
        Inserted::Refused(back, _) if back == item => map.is_put(item).then_some(true),
        _ => None,
    }
}

// The word for a map that an iterator lies to before and after it has two items. A request that is refused is one
// of theirs.
fn lied_to(alloc: Global, mut map: Either<Named>) -> Word {
    arm(alloc);
    let is_empty_kept = is_not_taken_in(&mut map) && map.len() == 0;
    let refused = (put_at_last(&mut map, FOO), put_at_last(&mut map, BAR));
    let is_kept = is_empty_kept && is_not_taken_in(&mut map);
    let is_met = is_met(alloc);
    let has_both = map.get(b"foo").copied() == Some(FOO) && map.get(b"bar").copied() == Some(BAR);
    let is_whole = is_kept && has_both && map.len() == 2 && map.is_sound();
    let rows = rows! {
        "no_item_refused": ((Some(false), Some(false)), false, true);
        "hint_refused": ((Some(true), Some(false)), true, true);
        "hint_refused": ((Some(false), Some(true)), true, true);
    };
    word_of(&rows, &(refused, is_met, is_whole))
}

#[test]
fn lying_hints(rt: HostRuntime) -> Result<(), Fail> {
    tell(&rt, lied_to(rt.alloc(), in_order(rt.alloc())))
}

#[test]
fn hash_lying_hints(rt: HostRuntime) -> Result<(), Fail> {
    tell(&rt, lied_to(rt.alloc(), by_hash(rt.alloc())))
}
