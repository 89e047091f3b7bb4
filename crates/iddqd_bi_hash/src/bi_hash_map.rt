//! A hash map of two keys, over an item store and two hash indexes.
#![tactic(auto, unfolding(crate::specs::BiHashItems::IsKeyedByBoth))]

ghost use Rattle.std.specs.Prelude.{◌≡◌, ◌↔◌, ◌+◌, ◌≤◌, [], length, IsTrue};
ghost use Rattle.iddqd_store.specs.Hashing.{hash_under};
ghost use Rattle.iddqd_store.specs.SlotItems.{HaveSlots};

mod by_key;
mod clone;
mod collect;
mod compact;
pub mod entry;
mod equality;
mod extend_unique;
mod fmt;
mod get_mut;
mod insert;
mod insert_overwrite;
mod into_iter;
mod iter;
pub mod iter_mut;
mod keys;
mod lookups;
pub mod ref_mut;
mod retain;
mod room;
mod slots;
mod store_and_indexes;
mod unique;
mod validate;

use crate::items::BiHashItem;
pub use by_key::{First, Second};
pub use entry::{Entry, OccupiedEntry, OccupiedEntryMut, VacantEntry};
pub use fmt::DebugWithKeys;
use iddqd_hash_index::HashIndex;
pub use iddqd_hash_parts::{IntoIter, Iter, Keyed};
use iddqd_store::{ItemStore, MAX_ITEMS};
pub use iter_mut::IterMut;
pub use keys::Keys;
pub use ref_mut::{RefMut, Shown};
use std::alloc::Global;
use std::hash::{BuildHasher, BuildHasherDefault, FoldHasher, Hasher};
use std::marker::Model;

/// The default hasher's builder: std's, with a fixed seed. If strangers choose the keys, pass a `RandomState` instead.
pub type DefaultHashBuilder = BuildHasherDefault<FoldHasher>;

/// A map of items, no two of which have equal first keys or equal second keys, in no particular order. Each item lies in
/// a numbered slot of a store. Two indexes find the slot, each by the hash of one key. Contracts see the items with their
/// slots and stored hashes, the hasher, `spare`, `vacant`, the capacity and the limit.
pub struct BiHashMap<T, S = DefaultHashBuilder> {
    store: ItemStore<T>,
    index1: HashIndex,
    index2: HashIndex,
    hasher: S,
    // An insertion returns a reference to this if it succeeds. So its caller learns what the map is then.
    done: (),
}

// Not derived: a proof goes through a derived drop field by field wherever a map is dropped. It cites this one as a
// call.
impl<T: Drop, S: Drop> Drop for BiHashMap<T, S> {
    fn drop(self) {
        let BiHashMap {
            store: _,
            index1: _,
            index2: _,
            hasher: _,
            done: _,
        } = self;
    }
}

impl<T, S> Model for BiHashMap<T, S> {
    ghost use Rattle.iddqd_bi_hash.specs.BiHashItems.{BiHashItems};
    ghost use Rattle.iddqd_bi_hash.specs.StoreAndIndexes.{ArePaired, bi_map_of};

    ghost Value = { BiHashItems S T };

    ghost view = { λ m. bi_map_of m.store m.index1 m.index2 m.hasher };

    ghost invariant = { λ m. ArePaired m.store m.index1.pairs m.index2.pairs };
}

impl<T: BiHashItem, S: BuildHasher> Keyed for BiHashMap<T, S> {
    ghost use Rattle.iddqd_bi_hash.specs.BiHashItems.{IsKeyedByBoth};

    type Item = T;

    ghost keyed = { IsKeyedByBoth T.key1 T.key2 T.K1.eq T.K2.eq T.K1.hash_input T.K2.hash_input (hash_under S.BuildHasher S.Hasher.Hasher) };

    ghost hash = { λ m. hash_under S.BuildHasher S.Hasher.Hasher m.hasher };

    ghost akin = { λ x y. IsTrue (T.K1.eq (T.key1 x) (T.key1 y)) × IsTrue (T.K2.eq (T.key2 x) (T.key2 y)) };
}

impl<T, S> BiHashMap<T, S> {
    ghost use Rattle.iddqd_bi_hash.specs.BiHashMap.{SpareFits};

    /// Returns the number of items, in constant time.
    #[inline]
    pub fn len(&self) -> usize
        ensures len { result ≡ length self.now.items }
        ensures within_limit { result ≤ self.now.limit }
        ensures spare_fits { SpareFits self.now }
        ensures slots { HaveSlots self.now.slots self.now.items }
    {
        self.store.len()
    }

    /// Returns true if the map has no items.
    #[inline]
    pub fn is_empty(&self) -> bool
        ensures { IsTrue result ↔ (self.now.items ≡ []) }
    {
        self.len() == 0
    }

    /// Returns the number of items that fit before the store allocates.
    #[inline]
    pub fn capacity(&self) -> usize
        ensures number { result ≡ self.now.capacity }
        ensures holds { self.now.spare + length self.now.items ≤ result }
    {
        self.store.capacity()
    }

    /// Returns the number of items with new keys that the map accepts without a refusal, in constant time.
    #[inline]
    pub fn spare(&self) -> usize
        ensures number { result ≡ self.now.spare }
        ensures spare_fits { SpareFits self.now }
    {
        let len = self.store.len();
        let in_store = self.store.capacity().min(self.store.limit() as usize) - len;
        self.index1.spare().min(self.index2.spare()).min(in_store)
    }

    /// Returns the number of vacant slots, which removed items left, in constant time.
    #[inline]
    pub fn vacant(&self) -> u32
        ensures { result ≡ self.now.vacant }
    {
        self.store.vacant()
    }

    /// Returns the greatest number of items that the map can hold.
    #[inline]
    pub fn limit(&self) -> u32
        ensures { result ≡ self.now.limit }
    {
        self.store.limit()
    }
}

impl<T: BiHashItem> BiHashMap<T> {
    ghost use Rattle.iddqd_bi_hash.specs.BiHashMap.{IsEmptyMap};

    /// Returns a map without items, over the default hasher. Does not allocate.
    pub fn new(alloc: Global) -> Self
        ensures empty { IsEmptyMap MAX_ITEMS result }
        ensures keyed { ⟦<Self as Keyed>⟧.keyed result }
    {
        BiHashMap::with_hasher(alloc, DefaultHashBuilder::new())
    }
}

impl<T: BiHashItem, S: BuildHasher> BiHashMap<T, S> {
    ghost use Rattle.iddqd_bi_hash.specs.BiHashMap.{BiStays, IsEmptyMap};
    ghost use Rattle.iddqd_bi_hash.specs.StoreAndIndexes.{empty_bi_map_of};

    /// Returns a map without items, over this hasher. Does not allocate.
    pub fn with_hasher(alloc: Global, hasher: S) -> Self
        ensures empty { IsEmptyMap MAX_ITEMS result }
        ensures hasher { result.hasher ≡ hasher }
        ensures keyed { ⟦<Self as Keyed>⟧.keyed result }
    {
        BiHashMap::with_limit(alloc, MAX_ITEMS, hasher)
    }

    /// Returns a map without items that never holds more than `limit`. Does not allocate.
    pub fn with_limit(alloc: Global, limit: u32, hasher: S) -> Self
        ensures empty { IsEmptyMap limit result }
        ensures hasher { result.hasher ≡ hasher }
        ensures keyed { ⟦<Self as Keyed>⟧.keyed result }
    {
        BiHashMap::over(
            ItemStore::new(alloc, limit),
            HashIndex::new(alloc),
            HashIndex::new(alloc),
            hasher,
        )
    }

    // The map over a store without slots and indexes without pairs.
    fn over(store: ItemStore<T>, index1: HashIndex, index2: HashIndex, hasher: S) -> Self
        requires no_slot { store.slots ≡ [] }
        requires no_pair1 { index1.pairs ≡ [] }
        requires no_pair2 { index2.pairs ≡ [] }
        ensures empty { result ≡ empty_bi_map_of store index1 index2 hasher }
        ensures keyed { ⟦<Self as Keyed>⟧.keyed result }
    {
        BiHashMap {
            store,
            index1,
            index2,
            hasher,
            done: (),
        }
    }

    /// Drops every item and every slot, and keeps the capacity. The room of the items is spare again. Does not
    /// allocate.
    pub fn clear(&mut self)
    where
        T: Drop,
        // what goes
        ensures items { self.new.items ≡ [] }
        ensures slots { self.new.slots ≡ [] }
        ensures vacant { self.new.vacant ≡ 0 }

        // what stays
        ensures capacity { self.new.capacity ≡ self.old.capacity }
        ensures limit { self.new.limit ≡ self.old.limit }
        ensures stays { BiStays ⟦<Self as Keyed>⟧.keyed self.old self.new }
    {
        self.store.clear();
        self.index1.clear();
        self.index2.clear();
    }
}
