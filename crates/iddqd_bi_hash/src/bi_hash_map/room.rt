//! Room for items.
ghost use Rattle.std.specs.Prelude.{◌≡◌, ◌<◌, ◌≤◌, length, IfOk, IfErr, OnOk, OnErr};
ghost use Rattle.iddqd_store.specs.Refusal.{IsKindOf, memory_refused};
ghost use Rattle.iddqd_bi_hash.specs.BiHashMap.{BiKeeps, BiShrinks, HasNoItems, LacksRoomFor, Reserves, SpareFits};

use super::compact::compact;
use super::store_and_indexes::{reserve_room, shrink_room};
use super::{BiHashMap, DefaultHashBuilder, Keyed};
use crate::items::BiHashItem;
use iddqd_hash_index::HashIndex;
use iddqd_store::{ItemStore, MAX_ITEMS, TryReserveError};
use std::alloc::Global;
use std::hash::BuildHasher;

impl<T: BiHashItem> BiHashMap<T> {
    /// As `with_capacity_and_hasher`, over the default hasher.
    pub fn with_capacity(alloc: Global, capacity: usize) -> Result<Self, TryReserveError>
        // on success
        ensures empty { IfOk result (HasNoItems MAX_ITEMS) }
        ensures spare { IfOk result (λ m. capacity ≤ m.spare) }
        ensures spare_fits { IfOk result SpareFits }
        ensures capacity { IfOk result (λ m. capacity ≤ m.capacity) }
        ensures in_limit { OnOk result (capacity ≤ MAX_ITEMS) }
        ensures keyed { IfOk result ⟦<Self as Keyed>⟧.keyed }

        // on refusal
        ensures refused { IfErr result (IsKindOf MAX_ITEMS capacity) }
        ensures asked { OnErr result (0 < capacity) }
    {
        BiHashMap::with_capacity_and_hasher(alloc, capacity, DefaultHashBuilder::new())
    }
}

impl<T: BiHashItem, S: BuildHasher> BiHashMap<T, S> {
    /// Returns a map without items that accepts the next `capacity` items with new keys. The limit refuses it if
    /// `capacity` is above `MAX_ITEMS`. Memory can refuse it only if `capacity` is above 0.
    pub fn with_capacity_and_hasher(
        alloc: Global,
        capacity: usize,
        hasher: S,
    ) -> Result<Self, TryReserveError>
    where
        S: Drop,
        // on success
        ensures empty { IfOk result (HasNoItems MAX_ITEMS) }
        ensures spare { IfOk result (λ m. capacity ≤ m.spare) }
        ensures spare_fits { IfOk result SpareFits }
        ensures capacity { IfOk result (λ m. capacity ≤ m.capacity) }
        ensures hasher { IfOk result (λ m. m.hasher ≡ hasher) }
        ensures in_limit { OnOk result (capacity ≤ MAX_ITEMS) }
        ensures keyed { IfOk result ⟦<Self as Keyed>⟧.keyed }

        // on refusal
        ensures refused { IfErr result (IsKindOf MAX_ITEMS capacity) }
        ensures asked { OnErr result (0 < capacity) }
    {
        if capacity > MAX_ITEMS as usize {
            return Err(TryReserveError::capacity_overflow());
        }
        let index1 = HashIndex::with_capacity(alloc, capacity)?;
        let index2 = HashIndex::with_capacity(alloc, capacity)?;
        let store = ItemStore::with_capacity(alloc, MAX_ITEMS, capacity)?;
        Ok(BiHashMap::over(store, index1, index2, hasher))
    }

    /// Reserves room for `additional` more items: the next `additional` items with new keys are accepted. If the limit
    /// has no room for them, it is refused before memory is asked for. Memory can refuse it only if `spare` is below
    /// `additional`. The items stay, and `spare` is no less. Hashes no key.
    pub fn reserve(&mut self, additional: usize) -> Result<(), TryReserveError>
        requires keyed { ⟦<Self as Keyed>⟧.keyed self.old }
        ensures reserves { OnOk result (Reserves additional self.old self.new) }
        ensures refused { IfErr result (LacksRoomFor additional self.old) }
        ensures kept { BiKeeps ⟦<Self as Keyed>⟧.keyed self.old self.new }
    {
        reserve_room(
            &mut self.store,
            &mut self.index1,
            &mut self.index2,
            additional,
        )
    }

    /// As `reserve`.
    pub fn try_reserve(&mut self, additional: usize) -> Result<(), TryReserveError>
        requires keyed { ⟦<Self as Keyed>⟧.keyed self.old }
        ensures reserves { OnOk result (Reserves additional self.old self.new) }
        ensures refused { IfErr result (LacksRoomFor additional self.old) }
        ensures kept { BiKeeps ⟦<Self as Keyed>⟧.keyed self.old self.new }
    {
        self.reserve(additional)
    }

    /// As `shrink_to(0)`: gives back the memory that the items do not need. Without items the store gives back all.
    pub fn shrink_to_fit(&mut self) -> Result<(), TryReserveError>
        requires keyed { ⟦<Self as Keyed>⟧.keyed self.old }
        ensures shrinks { BiShrinks ⟦<Self as Keyed>⟧.keyed 0 self.old self.new }
        ensures frees { length self.old.items ≡ 0 → OnOk result (self.new.capacity ≡ 0) }
        ensures only_memory { IfErr result (λ e. e ≡ memory_refused) }
    {
        self.shrink_to(0)
    }

    /// Closes up the slots, and gives memory back, in the store and in the index. There are two indexes. Room stays for
    /// the items, and for `min` in all, or as much as there was. It can be refused only for memory, since the smaller
    /// arrays are made before the old ones are dropped. Refused or not, the items stay and no slot is vacant then.
    /// Hashes both keys of each item that moves into a vacant slot once. An index that gives memory back reads each of
    /// its pairs.
    pub fn shrink_to(&mut self, min: usize) -> Result<(), TryReserveError>
        requires keyed { ⟦<Self as Keyed>⟧.keyed self.old }
        ensures shrinks { BiShrinks ⟦<Self as Keyed>⟧.keyed min self.old self.new }
        ensures frees { length self.old.items ≡ 0 → min ≡ 0 → OnOk result (self.new.capacity ≡ 0) }
        ensures only_memory { IfErr result (λ e. e ≡ memory_refused) }
    {
        compact(
            &mut self.store,
            &mut self.index1,
            &mut self.index2,
            &self.hasher,
        );
        shrink_room(&mut self.store, &mut self.index1, &mut self.index2, min)
    }
}
