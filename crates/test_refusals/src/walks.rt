//! Walks, for reading and for writing, which ask for no memory.
use crate::numbers::fill;
use crate::prelude::*;

fn write(item: &mut Numbered) {
    item.value = 7;
}

// Fills the map with numbers, walks it, retains all of them but one, and writes to 70 of the 77.
fn walks(alloc: Global, mut map: Either<Numbered>) -> Word {
    let is_full = fill(&mut map, 78);
    let walk = map.listed(alloc)?;
    arm(alloc);
    let is_walked = map.lists(walk.as_slice());
    map.retain(|item| *item != numbered(3, 5));
    let is_left = map.len() == 77;
    let left = map.written(70, write);
    word_without_memory(alloc, is_full && is_walked && is_left && left == 7)
}

#[test]
fn walks_without_memory(rt: HostRuntime) -> Result<(), Fail> {
    tell(&rt, walks(rt.alloc(), in_order(rt.alloc())))
}

#[test]
fn hash_walks_without_memory(rt: HostRuntime) -> Result<(), Fail> {
    tell(&rt, walks(rt.alloc(), by_hash(rt.alloc())))
}
