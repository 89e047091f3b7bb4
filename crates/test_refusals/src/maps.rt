//! Insertions by a key that are refused, and calls that do not allocate, on both maps.
use crate::entries::{By, put_by_hash, put_in_order};
use crate::numbers::fill;
use crate::prelude::*;
use test_support::items::Titled;

const BACK: &str = "item_back";

// A store is full with 4 and with 8 items, the ordered index too; a hash index first with 9.
#[test]
fn insert_unique(rt: HostRuntime) -> Result<(), Fail> {
    tell(&rt, put_in_order(rt.alloc(), By::InsertUnique, 4, BACK))
}

#[test]
fn insert_unique_counted(rt: HostRuntime) -> Result<(), Fail> {
    tell(&rt, put_in_order(rt.alloc(), By::InsertCounted, 4, BACK))
}

// The 78th of ascending keys gives the tree its third level. With 83 the last leaf is full, and no unused block is left.
#[test]
fn prepare_of_three_levels(rt: HostRuntime) -> Result<(), Fail> {
    tell(&rt, put_in_order(rt.alloc(), By::InsertUnique, 83, BACK))
}

#[test]
fn insert_overwrite(rt: HostRuntime) -> Result<(), Fail> {
    tell(&rt, put_in_order(rt.alloc(), By::InsertOverwrite, 4, BACK))
}

#[test]
fn hash_insert_unique(rt: HostRuntime) -> Result<(), Fail> {
    tell(&rt, put_by_hash(rt.alloc(), By::InsertUnique, 8, BACK))
}

#[test]
fn hash_insert_unique_into_full_index(rt: HostRuntime) -> Result<(), Fail> {
    tell(&rt, put_by_hash(rt.alloc(), By::InsertUnique, 9, BACK))
}

#[test]
fn hash_insert_overwrite(rt: HostRuntime) -> Result<(), Fail> {
    tell(&rt, put_by_hash(rt.alloc(), By::InsertOverwrite, 9, BACK))
}

// Fills the map with this many numbers, inserts each again by both insertions, and clears the map.
fn akin(alloc: Global, mut map: Either<Numbered>, count: u32) -> Word {
    let is_full = fill(&mut map, count);
    arm(alloc);
    let are_akin = (0..count).all(|number| {
        let (new, there) = (numbered(number, 6), numbered(number, 5));
        map.insert(new) == Inserted::Duplicate(new, Some(there))
            && map.overwrite(new).ok() == Some(Some(there))
    });
    let is_well = is_full && are_akin && map.len() == count as usize;
    map.clear();
    word_without_memory(alloc, is_well && map.len() == 0)
}

#[test]
fn akin_insertions_without_memory(rt: HostRuntime) -> Result<(), Fail> {
    tell(&rt, akin(rt.alloc(), in_order(rt.alloc()), 8))
}

#[test]
fn hash_akin_insertions_without_memory(rt: HostRuntime) -> Result<(), Fail> {
    tell(&rt, akin(rt.alloc(), by_hash(rt.alloc()), 8))
}

// The last leaf is full and the tree has no unused block, as in `prepare_of_three_levels`: a greater key would ask for
// some.
#[test]
fn akin_insertions_without_nodes(rt: HostRuntime) -> Result<(), Fail> {
    tell(&rt, akin(rt.alloc(), in_order(rt.alloc()), 83))
}

#[test]
fn hash_akin_insertions_into_full_index(rt: HostRuntime) -> Result<(), Fail> {
    tell(&rt, akin(rt.alloc(), by_hash(rt.alloc()), 9))
}

// Fills the map with a hundred names, and then finds and takes out each, with the values in order.
fn lookups(alloc: Global, mut map: Either<Titled>) -> Word {
    let mut names = Vec::new(alloc);
    for value in 0..100u32 {
        let name = format!(in alloc; "name {value}")?;
        names.push(name.clone()?)?;
        let _ = map.is_put(Titled { name, value });
    }
    arm(alloc);
    let are_taken_out = names.iter().zip(0..100u32).all(|(name, value)| {
        let found = map.find(name).map(|item| item.value);
        found == Some(value) && map.take_out(name).map(|item| item.value) == found
    });
    word_without_memory(alloc, are_taken_out && map.len() == 0)
}

#[test]
fn lookups_without_memory(rt: HostRuntime) -> Result<(), Fail> {
    tell(&rt, lookups(rt.alloc(), in_order(rt.alloc())))
}

#[test]
fn hash_lookups_without_memory(rt: HostRuntime) -> Result<(), Fail> {
    tell(&rt, lookups(rt.alloc(), by_hash(rt.alloc())))
}
