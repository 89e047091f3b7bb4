//! Items that are lent, visited, and taken at the ends, which asks for no memory.
use crate::numbers::fill;
use crate::prelude::*;
use crate::ranges::filled;
use test_support::maps::ByEntry;

// Fills the map with numbers, visits them, one by `get_mut` and one by its entry.
fn visits(alloc: Global, mut map: Either<Numbered>) -> Word {
    let is_full = fill(&mut map, 78);
    arm(alloc);
    let is_visited = map.visit(7, &mut Change::KeepOdd(0)) == Some(true);
    map.visit_all(true);
    let is_modified = map.enter(numbered(7, 5), ByEntry::ModifyOrInsert);
    word_without_memory(alloc, is_full && is_visited && is_modified)
}

#[test]
fn visits_without_memory(rt: HostRuntime) -> Result<(), Fail> {
    tell(&rt, visits(rt.alloc(), in_order(rt.alloc())))
}

#[test]
fn hash_visits_without_memory(rt: HostRuntime) -> Result<(), Fail> {
    tell(&rt, visits(rt.alloc(), by_hash(rt.alloc())))
}

// The same of both ends, which are taken, and of an item by its position.
#[test]
fn ends_without_memory(rt: HostRuntime) -> Result<(), Fail> {
    let mut map = filled(rt.alloc())?;
    arm(rt.alloc());
    let is_well = map.use_ends() && map.spend_index(75);
    tell(&rt, word_without_memory(rt.alloc(), is_well))
}
