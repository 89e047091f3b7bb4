//! Closing up the slots, so that none is vacant.
ghost use Rattle.std.specs.Prelude.{◌≡◌, ◌<◌};
ghost use Rattle.iddqd_store.specs.Store.{EndsOccupied, vacant};
ghost use Rattle.iddqd_hash_parts.specs.StoreAndIndex.{MovesItems};
ghost use Rattle.iddqd_bi_hash.specs.StoreAndIndexes.{ArePaired, bi_map_of};

use super::{BiHashMap, Keyed};
use crate::items::BiHashItem;
use iddqd_hash_index::HashIndex;
use iddqd_store::ItemStore;
use std::hash::BuildHasher;

// Moves the item of the last slot into a vacant one, until no slot is vacant. Does not allocate.
pub(super) fn compact<T: BiHashItem, S: BuildHasher>(
    store: &mut ItemStore<T>,
    index1: &mut HashIndex,
    index2: &mut HashIndex,
    hasher: &S,
)
    requires paired { ArePaired store.old index1.old.pairs index2.old.pairs }
    requires keyed { ⟦<BiHashMap<T, S> as Keyed>⟧.keyed (bi_map_of store.old index1.old index2.old hasher.now) }

    // what moves
    ensures moves1 { MovesItems store.old store.new index1.old index1.new }
    ensures moves2 { MovesItems store.old store.new index2.old index2.new }
    ensures vacant { vacant store.new ≡ 0 }

    // what stays
    ensures paired { ArePaired store.new index1.new.pairs index2.new.pairs }
    ensures keyed { ⟦<BiHashMap<T, S> as Keyed>⟧.keyed (bi_map_of store.new index1.new index2.new hasher.now) }
{
    store.cut_end();
    while store.vacant() > 0 {
        move_last(store, index1, index2, hasher);
    }
}

// Moves the item of the last slot into a vacant one, and lists the item's hashes with that slot. Hashes each of the
// item's keys once.
fn move_last<T: BiHashItem, S: BuildHasher>(
    store: &mut ItemStore<T>,
    index1: &mut HashIndex,
    index2: &mut HashIndex,
    hasher: &S,
)
    requires paired { ArePaired store.old index1.old.pairs index2.old.pairs }
    requires keyed { ⟦<BiHashMap<T, S> as Keyed>⟧.keyed (bi_map_of store.old index1.old index2.old hasher.now) }
    requires cut { EndsOccupied store.old.slots }
    requires some { 0 < vacant store.old }

    // what moves
    ensures moves1 { MovesItems store.old store.new index1.old index1.new }
    ensures moves2 { MovesItems store.old store.new index2.old index2.new }
    ensures fewer { vacant store.new < vacant store.old }

    // what stays
    ensures paired { ArePaired store.new index1.new.pairs index2.new.pairs }
    ensures keyed { ⟦<BiHashMap<T, S> as Keyed>⟧.keyed (bi_map_of store.new index1.new index2.new hasher.now) }
    ensures cut { EndsOccupied store.new.slots }
{
    let last = store.slots() - 1;
    let item = store.item(last);
    let hash1 = hasher.hash_one(item.key1());
    let hash2 = hasher.hash_one(item.key2());
    if let Some((_, hole)) = store.last_into_hole() {
        index1.rename(hash1, last, hole);
        index2.rename(hash2, last, hole);
    }
}
