//! What is held of a map's memory once it is dropped: nothing, whatever was refused on the way.
use crate::entries::name;
use crate::prelude::*;

// Inserts the items of the numbers from the one up to the other, but for those that are refused.
fn put_in(map: &mut Either<Coarse>, from: u8, to: u8) {
    for number in from..to {
        let _ = map.is_put(item_of(name(number), 5));
    }
}

// Fills the map, so that its index grows, takes most out again, so that it falls, and gives memory back. A copy of it is
// dropped before it.
fn lives(mut map: Either<Coarse>) {
    put_in(&mut map, 0, 100);
    for number in 10..90 {
        let _ = map.remove(&Caseless(name(number)));
    }
    let _ = map.shrink_to_fit();
    put_in(&mut map, 40, 60);
    let _ = map.copied();
    map.clear();
    put_in(&mut map, 0, 30);
}

// Two items of an owned walk are taken, and the rest is dropped with it.
fn walks_out(mut map: Either<Coarse>) {
    put_in(&mut map, 0, 100);
    let _ = match map {
        Either::Ordered(map) => map.into_map().into_iter().take(2).count(),
        Either::Hashed(map) => map.into_map().into_iter().take(2).count(),
    };
}

// The word for what is held when all is dropped.
fn word(alloc: Global) -> Word {
    let is_met = is_met(alloc);
    let is_free = !has_leaked(alloc);
    word_by_refusal(is_free, is_met, ["all_given_back", "nothing_held"])
}

#[test]
fn map_dropped(rt: HostRuntime) -> Result<(), Fail> {
    arm(rt.alloc());
    lives(in_order(rt.alloc()));
    tell(&rt, word(rt.alloc()))
}

#[test]
fn hash_map_dropped(rt: HostRuntime) -> Result<(), Fail> {
    arm(rt.alloc());
    lives(by_hash(rt.alloc()));
    tell(&rt, word(rt.alloc()))
}

#[test]
fn owned_walk_dropped(rt: HostRuntime) -> Result<(), Fail> {
    arm(rt.alloc());
    walks_out(in_order(rt.alloc()));
    tell(&rt, word(rt.alloc()))
}

#[test]
fn hash_owned_walk_dropped(rt: HostRuntime) -> Result<(), Fail> {
    arm(rt.alloc());
    walks_out(by_hash(rt.alloc()));
    tell(&rt, word(rt.alloc()))
}
