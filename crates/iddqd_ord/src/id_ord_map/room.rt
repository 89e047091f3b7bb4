//! Room for items.
ghost use Rattle.std.specs.Prelude.{◌≡◌, ◌+◌, ◌<◌, ◌≤◌, length, max, Err, IfOk, IfErr, OnOk, OnErr};
ghost use Rattle.iddqd_store.specs.Contents.{Ascends};
ghost use Rattle.iddqd_store.specs.Holding.{Shrinks};
ghost use Rattle.iddqd_store.specs.Refusal.{IsKindOf, memory_refused};

use super::IdOrdMap;
use super::compact::compact;
use super::store_and_index::reserve_slots;
use iddqd_store::{IdOrdItem, ItemStore, MAX_ITEMS, TryReserveError};
use std::alloc::Global;

impl<T: IdOrdItem> IdOrdMap<T> {
    ghost use Rattle.iddqd_ord.specs.OrdMap.{IsShortOf, RefusesRoomFor, empty_map};

    /// Returns a map without items, with room for exactly `capacity` in the store. The limit refuses a `capacity`
    /// above `MAX_ITEMS`. Else it is refused only if memory is, and does not allocate for 0.
    pub fn with_capacity(alloc: Global, capacity: usize) -> Result<Self, TryReserveError>
        // on success
        ensures empty { IfOk result (λ m. m ≡ empty_map capacity MAX_ITEMS) }
        ensures in_limit { OnOk result (capacity ≤ MAX_ITEMS) }
        ensures keyed { IfOk result (λ m. Ascends T.key T.Key.cmp m.items) }

        // on refusal
        ensures refused { IfErr result (IsKindOf MAX_ITEMS capacity) }
        ensures asked { OnErr result (0 < capacity) }
    {
        let store = ItemStore::with_capacity(alloc, MAX_ITEMS, capacity)?;
        Ok(IdOrdMap::over(store, alloc))
    }

    /// Reserves room in the store for `additional` more items. If the limit has no room for them, it is refused before
    /// memory is asked for. Else it is refused only if memory is, and allocates only if the capacity is short. The
    /// items stay. An insertion may still be refused memory for the index.
    pub fn reserve(&mut self, additional: usize) -> Result<(), TryReserveError>
        requires keyed { Ascends T.key T.Key.cmp self.old.items }

        // on success
        ensures room { OnOk result (length self.old.items + additional ≤ self.new.capacity) }
        ensures in_limit { OnOk result (length self.old.items + additional ≤ self.old.limit) }

        // on refusal
        ensures refused { IfErr result (RefusesRoomFor self.old additional) }
        ensures needed { result ≡ Err memory_refused → IsShortOf self.old additional }
        ensures asked { OnErr result (0 < additional) }

        // either way
        ensures rest { self.new ≡ record self.old { capacity = self.new.capacity } }
        ensures capacity { self.old.capacity ≤ self.new.capacity }
        ensures keyed { Ascends T.key T.Key.cmp self.new.items }
    {
        reserve_slots(&mut self.store, &self.index, additional)
    }

    /// As `shrink_to(0)`: gives back the memory that the items do not need.
    pub fn shrink_to_fit(&mut self) -> Result<(), TryReserveError>
        requires keyed { Ascends T.key T.Key.cmp self.old.items }

        // on success
        ensures frees { length self.old.items ≡ 0 → OnOk result (self.new.capacity ≡ 0) }

        // on refusal
        ensures only_memory { IfErr result (λ e. e ≡ memory_refused) }
        ensures needed { OnErr result (length self.old.items < self.old.capacity) }

        // either way
        ensures items { self.new.items ≡ self.old.items }
        ensures shrinks { Shrinks 0 self.old self.new }
        ensures keyed { Ascends T.key T.Key.cmp self.new.items }
    {
        self.shrink_to(0)
    }

    /// Closes up the slots, and gives back memory of the store, except room for `min` items and for those in the map.
    /// The index keeps its nodes. If the heap refuses a smaller block, the store keeps its memory, and the call returns
    /// `Ok`. An `Err` is reserved for a store that reports this. In every case the items stay, and no slot is vacant.
    /// Each item that moves into a vacant slot costs one search; no other is touched.
    pub fn shrink_to(&mut self, min: usize) -> Result<(), TryReserveError>
        requires keyed { Ascends T.key T.Key.cmp self.old.items }

        // on success
        ensures frees { length self.old.items ≡ 0 → min ≡ 0 → OnOk result (self.new.capacity ≡ 0) }

        // on refusal
        ensures only_memory { IfErr result (λ e. e ≡ memory_refused) }
        ensures needed { OnErr result (max min (length self.old.items) < self.old.capacity) }

        // either way
        ensures items { self.new.items ≡ self.old.items }
        ensures shrinks { Shrinks min self.old self.new }
        ensures keyed { Ascends T.key T.Key.cmp self.new.items }
    {
        compact(&mut self.store, &mut self.index);
        self.store.shrink_to(min)
    }
}
