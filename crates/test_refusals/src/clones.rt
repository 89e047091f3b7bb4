//! Clones with a request refused: nothing is made, and the map is as it was.
use crate::entries::{fill, holds};
use crate::prelude::*;

// The word for a copy that is dropped: whether it was whole, or was refused. The map is as it was, and no more memory is
// held than before.
fn word(alloc: Global, copied: Result<bool, TryReserveError>, is_kept: bool) -> Word {
    let is_met = is_met(alloc);
    let is_well = is_due(copied, is_met) && is_kept && !has_leaked(alloc);
    word_by_refusal(is_well, is_met, ["cloned", "nothing_made"])
}

// A clone that is equal.
fn clone_of_four(alloc: Global, mut map: Either<Coarse>) -> Word {
    let is_full = fill(&mut map, 4);
    arm(alloc);
    let copied = map.copied().map(|copy| map.equals(&copy));
    word(alloc, copied, is_full && holds(&map, 4, false))
}

#[test]
fn clone(rt: HostRuntime) -> Result<(), Fail> {
    tell(&rt, clone_of_four(rt.alloc(), in_order(rt.alloc())))
}

#[test]
fn hash_clone(rt: HostRuntime) -> Result<(), Fail> {
    tell(&rt, clone_of_four(rt.alloc(), by_hash(rt.alloc())))
}

// Whether the map is sound and has the four items, and no other.
fn has_four(map: &Either<Kept>) -> bool {
    let are_there = (0..4u32).all(|name| {
        let found = map.get(&name).map(|kept| (kept.name, *kept.value));
        found == Some((name, name ^ 5))
    });
    are_there && map.len() == 4 && map.is_sound()
}

fn copy(map: &Either<Kept>) -> Result<Either<Kept>, TryReserveError> {
    match map {
        Either::Ordered(map) => Ok(Either::Ordered(Ordered::new(map.map().clone()?))),
        Either::Hashed(map) => Ok(Either::Hashed(Hashed::new(map.map().clone()?))),
    }
}

// A clone of four items, each of whose clones asks for memory.
fn clone_of_four_kept(alloc: Global, mut map: Either<Kept>) -> Word {
    for name in 0..4u32 {
        let value = Box::new(alloc, name ^ 5)?;
        let _ = map.is_put(Kept { name, value });
    }
    arm(alloc);
    let copied = copy(&map).map(|copy| has_four(&copy));
    word(alloc, copied, has_four(&map))
}

#[test]
fn clone_of_kept(rt: HostRuntime) -> Result<(), Fail> {
    tell(&rt, clone_of_four_kept(rt.alloc(), in_order(rt.alloc())))
}

#[test]
fn hash_clone_of_kept(rt: HostRuntime) -> Result<(), Fail> {
    tell(&rt, clone_of_four_kept(rt.alloc(), by_hash(rt.alloc())))
}
