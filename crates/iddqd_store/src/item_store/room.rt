//! Making room for items, and giving it back.
ghost use Rattle.std.specs.Prelude.{◌≡◌, ◌+◌, ◌<◌, ◌≤◌, ◌↔◌, [], IfOk, IfErr, OnOk, OnErr, Err, min, max};
ghost use Rattle.iddqd_store.specs.Refusal.{IsKindOf, limit_refused, memory_refused};
ghost use Rattle.iddqd_store.specs.Store.{store_len, vacant, ExceedsCapacity, ExceedsLimit, FreesUnneeded, HasRoomFor, IsEmptyStore};

use super::ItemStore;
use crate::errors::TryReserveError;
use std::alloc::Global;

impl<T> ItemStore<T> {
    /// Returns a store without items that can hold at most `limit`, with room for exactly `capacity`. It returns
    /// `CapacityOverflow` if that is above the limit, else `AllocError` if memory is refused. If `capacity` is 0,
    /// it does not allocate.
    pub fn with_capacity(
        alloc: Global,
        limit: u32,
        capacity: usize,
    ) -> Result<Self, TryReserveError>
        ensures empty { IfOk result (IsEmptyStore limit) }
        ensures exact { IfOk result (λ s. s.capacity ≡ capacity) }
        ensures in_limit { OnOk result (capacity ≤ limit) }
        ensures refused { IfErr result (IsKindOf limit capacity) }
        ensures asked { OnErr result (0 < capacity) }
    {
        if capacity > limit as usize {
            return Err(TryReserveError::capacity_overflow());
        }
        let Ok(slots) = Vec::with_capacity(alloc, capacity) else {
            return Err(TryReserveError::alloc_error());
        };
        Ok(ItemStore::over(slots, limit))
    }

    /// Makes room for `additional` more items. It returns `CapacityOverflow` if the limit has no room for them,
    /// else `AllocError` if memory is refused. The slots stay as they were. If there is room, it does not allocate.
    #[inline]
    pub fn try_reserve(&mut self, additional: usize) -> Result<(), TryReserveError>
        ensures ok { OnOk result (HasRoomFor self.new additional) }
        ensures overflow { (result ≡ Err limit_refused) ↔ ExceedsLimit self.old additional }
        ensures memory { result ≡ Err memory_refused → ExceedsCapacity self.old additional }
        ensures rest { self.new ≡ record self.old { capacity = self.new.capacity } }
        ensures capacity { self.old.capacity ≤ self.new.capacity }
    {
        if additional > self.limit as usize - self.len {
            return Err(TryReserveError::capacity_overflow());
        }
        if additional > self.slots.capacity() - self.len {
            return self.grow(additional);
        }
        Ok(())
    }

    // Makes room that is not there yet.
    #[cold]
    #[inline(never)]
    fn grow(&mut self, additional: usize) -> Result<(), TryReserveError>
        requires limit { store_len self.old + additional ≤ self.old.limit }
        requires needed { ExceedsCapacity self.old additional }

        // on success
        ensures ok { OnOk result (HasRoomFor self.new additional) }

        // on refusal
        ensures err { OnErr result (result ≡ Err memory_refused) }

        // either way
        ensures rest { self.new ≡ record self.old { capacity = self.new.capacity } }
        ensures capacity { self.old.capacity ≤ self.new.capacity }
    {
        let vacant = self.slots.len() - self.len;
        self.slots
            .reserve(additional - vacant)
            .map_err(|_| TryReserveError::alloc_error())
    }

    /// Gives memory back, except for room for `min_capacity` items and for the existing ones. No slot may be
    /// vacant, as after `last_into_hole` returned `None`. Refused or not, the slots stay as they were. It is
    /// refused only if there is memory to give back. If there are no items and `min_capacity` is 0, it gives all of
    /// it back.
    pub fn shrink_to(&mut self, min_capacity: usize) -> Result<(), TryReserveError>
        requires { vacant self.old ≡ 0 }

        // on refusal
        ensures err { OnErr result (result ≡ Err memory_refused) }
        ensures needed { OnErr result (max min_capacity (store_len self.old) < self.old.capacity) }

        // on success
        ensures frees { OnOk result (FreesUnneeded self.old self.new min_capacity) }

        // either way
        ensures rest { self.new ≡ record self.old { capacity = self.new.capacity } }
        ensures lowers { self.new.capacity ≤ self.old.capacity }
        ensures keeps_items { store_len self.old ≤ self.new.capacity }
        ensures keeps_room { min min_capacity self.old.capacity ≤ self.new.capacity }
    {
        self.slots.shrink_to(min_capacity);
        Ok(())
    }
}
