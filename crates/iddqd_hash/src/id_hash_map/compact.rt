//! Closing up the slots, so that none is vacant.
ghost use Rattle.std.specs.Prelude.{◌≡◌, ◌<◌};
ghost use Rattle.iddqd_store.specs.Store.{EndsOccupied, vacant};
ghost use Rattle.iddqd_hash_parts.specs.StoreAndIndex.{MovesItems, PairsOccupied, map_of};

use super::{IdHashMap, Keyed};
use iddqd_hash_index::HashIndex;
use iddqd_store::{IdHashItem, ItemStore};
use std::hash::BuildHasher;

// Moves the item of the last slot into a vacant one, until no slot is vacant. Does not allocate.
pub(super) fn compact<T: IdHashItem, S: BuildHasher>(
    store: &mut ItemStore<T>,
    index: &mut HashIndex,
    hasher: &S,
)
    requires paired { PairsOccupied store.old index.old.pairs }
    requires keyed { ⟦<IdHashMap<T, S> as Keyed>⟧.keyed (map_of store.old index.old hasher.now) }

    // what moves
    ensures moves { MovesItems store.old store.new index.old index.new }
    ensures vacant { vacant store.new ≡ 0 }

    // what stays
    ensures paired { PairsOccupied store.new index.new.pairs }
    ensures keyed { ⟦<IdHashMap<T, S> as Keyed>⟧.keyed (map_of store.new index.new hasher.now) }
{
    store.cut_end();
    while store.vacant() > 0 {
        move_last(store, index, hasher);
    }
}

// Moves the item of the last slot into a vacant one, and lists the item's hash with that slot. Hashes the item's key
// once.
fn move_last<T: IdHashItem, S: BuildHasher>(
    store: &mut ItemStore<T>,
    index: &mut HashIndex,
    hasher: &S,
)
    requires paired { PairsOccupied store.old index.old.pairs }
    requires keyed { ⟦<IdHashMap<T, S> as Keyed>⟧.keyed (map_of store.old index.old hasher.now) }
    requires cut { EndsOccupied store.old.slots }
    requires some { 0 < vacant store.old }

    // what moves
    ensures moves { MovesItems store.old store.new index.old index.new }
    ensures fewer { vacant store.new < vacant store.old }

    // what stays
    ensures paired { PairsOccupied store.new index.new.pairs }
    ensures keyed { ⟦<IdHashMap<T, S> as Keyed>⟧.keyed (map_of store.new index.new hasher.now) }
    ensures cut { EndsOccupied store.new.slots }
{
    let last = store.slots() - 1;
    let hash = hasher.hash_one(store.item(last).key());
    if let Some((_, hole)) = store.last_into_hole() {
        index.rename(hash, last, hole);
    }
}
