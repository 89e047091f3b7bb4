//! Maps at their limit: an insertion is refused for that, and no request is made for it.
use crate::numbers::{fill, holds};
use crate::prelude::*;
use test_support::either::{by_hash_of, in_order_of};

// Fills a map up to its limit, and tries two insertions of a new number and a reservation. Each is refused since the map
// is full.
fn full(alloc: Global, mut map: Either<Numbered>, limit: u32) -> Word {
    let is_full = fill(&mut map, limit);
    let new = numbered(1000, 6);
    let error = TryReserveError::capacity_overflow();
    arm(alloc);
    let is_kept_out = map.insert(new) == Inserted::Refused(new, error);
    let overwritten = map
        .overwrite(new)
        .map_err(|refused| (refused.item, refused.error));
    let is_refused = overwritten == Err((new, error)) && map.reserve(1).is_err();
    let is_well = is_full && is_kept_out && is_refused && holds(&map, limit);
    word_without_memory(alloc, is_well)
}

// With 8 items the store is full; with 78 the tree has no unused block; with 9 the hash index is full.
#[test]
fn full_store(rt: HostRuntime) -> Result<(), Fail> {
    tell(&rt, full(rt.alloc(), in_order_of(rt.alloc(), 8), 8))
}

#[test]
fn full_without_nodes(rt: HostRuntime) -> Result<(), Fail> {
    tell(&rt, full(rt.alloc(), in_order_of(rt.alloc(), 78), 78))
}

#[test]
fn hash_full_store(rt: HostRuntime) -> Result<(), Fail> {
    tell(&rt, full(rt.alloc(), by_hash_of(rt.alloc(), 8), 8))
}

#[test]
fn hash_full_index(rt: HostRuntime) -> Result<(), Fail> {
    tell(&rt, full(rt.alloc(), by_hash_of(rt.alloc(), 9), 9))
}
