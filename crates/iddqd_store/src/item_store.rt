//! Items in numbered slots. A vacant slot is used again.
mod chain;
mod into_items;
mod moves;
mod next;
mod room;
mod walk;

ghost use Rattle.std.specs.Prelude.{◌≡◌, ◌+◌, ◌-◌, ◌<◌, ◌≤◌, [], length, IfSome, IfNone, IfOk, Some, None, OnSome, option_copied, slice_set, vec_capacity, Err};
ghost use Rattle.std.specs.Borrow.{sem};
ghost use Rattle.iddqd_store.specs.Store.{item_at, AreVacant, AreVacantFrom, IsFirstOccupied, IsOccupied, store_len, vacant, HasRoomFor, Updates, SameItems, MovesLast, EndsOccupied, IsStoreClone, with_item};

use crate::errors::TryReserveError;
use chain::{NO_SLOT, Slot, fill_first, vacate};
pub use into_items::IntoItems;
use moves::{cut_vacant, move_last};
use std::alloc::{AllocError, Global};
use std::marker::Model;
use std::mem;
pub use walk::Items;

/// The most items that a map can hold: one for each slot number, but for the last, which stands for no slot.
pub const MAX_ITEMS: u32 = u32::MAX;

/// Items in numbered slots. An item stays in its slot until it is removed or moved to a lower one. The slot of a
/// removed item is used again. Contracts see the list of the slots, each with its item or vacant, the capacity and the
/// limit.
#[derive(Drop)]
pub struct ItemStore<T> {
    slots: Vec<Slot<T>>,
    // The number of occupied slots.
    len: usize,
    // The head of the chain of vacant slots, or `NO_SLOT`.
    first_vacant: u32,
    limit: u32,
}

impl<T> Model for ItemStore<T> {
    ghost use Rattle.std.specs.Prelude.{vec_capacity};
    ghost use Rattle.iddqd_store.specs.Store.{Store};

    ghost Value = { Store T };

    ghost use Rattle.iddqd_store.specs.Slots.{items_of, IsSound};

    ghost view = { λ s. record {
      slots = items_of s.slots.items;
      capacity = vec_capacity s.slots;
      limit = s.limit;
    } };

    ghost invariant = { λ s. IsSound s.slots.items s.len s.first_vacant s.limit };
}

impl<T> ItemStore<T> {
    ghost use Rattle.iddqd_store.specs.Lends.{lends_item};

    /// Returns a store without items that can hold at most `limit`. Does not allocate.
    pub fn new(alloc: Global, limit: u32) -> Self
        ensures slots { result.slots ≡ [] }
        ensures capacity { result.capacity ≡ 0 }
        ensures limit { result.limit ≡ limit }
    {
        ItemStore::over(Vec::new(alloc), limit)
    }

    // Returns the store over a vector without slots.
    fn over(slots: Vec<Slot<T>>, limit: u32) -> Self
        requires empty { slots.items ≡ [] }
        ensures { result ≡ record { slots = []; capacity = vec_capacity slots; limit = limit } }
    {
        ItemStore {
            slots,
            len: 0,
            first_vacant: NO_SLOT,
            limit,
        }
    }

    /// Returns the number of items, in constant time.
    #[inline]
    pub fn len(&self) -> usize
        ensures items { result ≡ store_len self.now }
        ensures limit { result ≤ self.now.limit }
        ensures fits { result ≤ u32.MAX }
    {
        self.len
    }

    /// Returns the number of vacant slots, in constant time.
    #[inline]
    pub fn vacant(&self) -> u32
        ensures { result ≡ vacant self.now }
    {
        (self.slots.len() - self.len) as u32
    }

    /// Returns the number of slots. Each number below it is a slot's, occupied or vacant.
    #[inline]
    pub fn slots(&self) -> u32
        ensures slots { result ≡ length self.now.slots }
        ensures parts { store_len self.now + vacant self.now ≡ result }
        ensures limit { result ≤ self.now.limit }
        ensures capacity { result ≤ self.now.capacity }
    {
        self.slots.len() as u32
    }

    /// Returns how many items fit before memory is needed.
    #[inline]
    pub fn capacity(&self) -> usize
        ensures number { result ≡ self.now.capacity }
        ensures holds { store_len self.now ≤ result }
    {
        self.slots.capacity()
    }

    /// Returns the most items that the store can hold, as `new` was told.
    #[inline]
    pub fn limit(&self) -> u32
        ensures { result ≡ self.now.limit }
    {
        self.limit
    }

    /// Returns the item of the slot, or `None` if the slot is vacant or does not exist.
    #[inline]
    pub fn get(&self, slot: u32) -> Option<&T>
        ensures { option_copied result ≡ item_at self.now slot }
    {
        match self.slots.get(slot as usize) {
            Some(Slot::Occupied(item)) => Some(item),
            _ => None,
        }
    }

    /// Returns the item of an occupied slot.
    #[inline]
    pub fn item(&self, slot: u32) -> &T
        requires { IsOccupied self.now slot }
        ensures { item_at self.now slot ≡ Some result.now }
    {
        match &self.slots[slot as usize] {
            Slot::Occupied(item) => item,
            Slot::Vacant(_) => unreachable!(),
        }
    }

    /// Returns the first occupied slot from this number on with its item, or `None` if there is none. It looks at
    /// each slot up to that one once, and at the first of them twice if that is vacant.
    #[inline]
    pub fn next_occupied(&self, from: u32) -> Option<(u32, &T)>
        // if a slot has an item
        ensures slot { IfSome result (λ found. IsFirstOccupied self.now from found.0) }
        ensures item { IfSome result (λ found. item_at self.now found.0 ≡ Some found.1.now) }
        ensures number { IfSome result (λ found. found.0 < u32.MAX) }

        // if none has
        ensures none { IfNone result (AreVacant self.now from (length self.now.slots)) }
    {
        match self.slots.get(from as usize) {
            Some(Slot::Occupied(item)) => Some((from, item)),
            _ => self.skip_vacant(from),
        }
    }

    // Does the same slot by slot.
    #[inline]
    fn skip_vacant(&self, from: u32) -> Option<(u32, &T)>
        // if a slot has an item
        ensures slot { IfSome result (λ found. IsFirstOccupied self.now from found.0) }
        ensures item { IfSome result (λ found. item_at self.now found.0 ≡ Some found.1.now) }
        ensures number { IfSome result (λ found. found.0 < u32.MAX) }

        // if none has
        ensures none { IfNone result (AreVacant self.now from (length self.now.slots)) }
    {
        let slot = self.first_occupied(from);
        let item = self.get(slot)?;
        Some((slot, item))
    }

    // Returns the slot alone, or `NO_SLOT`. A function of its own, so that a walk from item to item is short. It
    // returns a number, since the compiler would clear the room for a pair at each item.
    #[inline(never)]
    fn first_occupied(&self, from: u32) -> u32
        ensures slot { IsOccupied self.now result → IsFirstOccupied self.now from result }
        ensures number { IsOccupied self.now result → result < u32.MAX }
        ensures none { item_at self.now result ≡ None → AreVacantFrom self.now from }
    {
        for slot in from as usize..self.slots.len() {
            if let Slot::Occupied(_) = &self.slots[slot] {
                return slot as u32;
            }
        }
        NO_SLOT
    }

    /// Returns the first occupied slot from this number on. There must be one. It looks at each slot up to that one
    /// once, and at the first of them twice if that is vacant.
    #[inline]
    pub fn occupied_from(&self, from: u32) -> u32
        requires { ¬ AreVacantFrom self.now from }
        ensures slot { IsFirstOccupied self.now from result }
        ensures number { result < u32.MAX }
    {
        match &self.slots[from as usize] {
            Slot::Occupied(_) => from,
            Slot::Vacant(_) => self.first_occupied(from),
        }
    }

    /// Returns the item of an occupied slot, for writing.
    #[inline]
    pub fn get_mut(&mut self, slot: u32) -> &mut T
        requires { IsOccupied self.old slot }
        ensures* writes_back { sem 𝓛 (lends_item T.row self.entry slot result) }
        ensures item { item_at self.old slot ≡ Some result.now }
    {
        self.slots[slot as usize].item_mut()
    }

    /// Inserts the item into a vacant slot, or into a new one of the next number if none is vacant, and returns the
    /// slot. There must be room, as `try_reserve(1)` makes it. Does not allocate.
    #[inline]
    pub fn insert_reserved(&mut self, item: T) -> u32
        requires { HasRoomFor self.old 1 }

        // the slots
        ensures was_vacant { item_at self.old result ≡ None }
        ensures updates { Updates self.old self.new result (Some item) }
        ensures reuses { 0 < vacant self.old → result < length self.old.slots }
        ensures next { vacant self.old ≡ 0 → result ≡ length self.old.slots }

        // the numbers
        ensures len { store_len self.new ≡ store_len self.old + 1 }
        ensures vacant { vacant self.new ≡ vacant self.old - 1 }
        ensures capacity { self.new.capacity ≡ self.old.capacity }
        ensures limit { self.new.limit ≡ self.old.limit }
    {
        let slot = self.first_vacant;
        self.len += 1;
        if slot == NO_SLOT {
            let next = self.slots.len() as u32;
            self.slots.push_reserved(Slot::Occupied(item));
            return next;
        }
        self.first_vacant = fill_first(self.slots.as_mut_slice(), slot, item);
        slot
    }

    /// Replaces the item of an occupied slot, and returns the old item. Does not allocate.
    #[inline]
    pub fn replace(&mut self, slot: u32, item: T) -> T
        requires { IsOccupied self.old slot }
        ensures item { item_at self.old slot ≡ Some result }

        // the slots
        ensures store { self.new ≡ with_item self.old slot item }
        ensures updates { Updates self.old self.new slot (Some item) }

        // the numbers
        ensures len { store_len self.new ≡ store_len self.old }
        ensures vacant { vacant self.new ≡ vacant self.old }
    {
        match mem::replace(&mut self.slots[slot as usize], Slot::Occupied(item)) {
            Slot::Occupied(old) => old,
            Slot::Vacant(_) => unreachable!(),
        }
    }

    /// Removes the item of an occupied slot, which is vacant then, and returns it. It neither allocates nor frees
    /// memory.
    #[inline]
    pub fn remove(&mut self, slot: u32) -> T
        requires { IsOccupied self.old slot }
        ensures item { item_at self.old slot ≡ Some result }

        // the slots
        ensures store { self.new ≡ record self.old { slots = slice_set self.old.slots slot None } }
        ensures updates { Updates self.old self.new slot None }

        // the numbers
        ensures len { store_len self.new + 1 ≡ store_len self.old }
        ensures vacant { vacant self.new ≡ vacant self.old + 1 }
    {
        let item = vacate(self.slots.as_mut_slice(), self.first_vacant, slot);
        self.len -= 1;
        self.first_vacant = slot;
        item
    }

    /// Drops every item, and leaves no slot. The capacity stays.
    pub fn clear(&mut self)
    where
        T: Drop,
        ensures { self.new ≡ record self.old { slots = [] } }
    {
        self.slots.clear();
        self.len = 0;
        self.first_vacant = NO_SLOT;
    }

    /// Removes the vacant slots at the end, so that the last slot is occupied. It looks only at the slots that it
    /// removes, and does not allocate.
    pub fn cut_end(&mut self)
        ensures items { SameItems self.old self.new }
        ensures cut { EndsOccupied self.new.slots }
        ensures len { store_len self.new ≡ store_len self.old }
        ensures capacity { self.new.capacity ≡ self.old.capacity }
        ensures limit { self.new.limit ≡ self.old.limit }
    {
        let first = self.first_vacant;
        self.first_vacant = cut_vacant(&mut self.slots, first);
    }

    /// Moves the item of the greatest occupied slot to a lower vacant one, and returns the old slot and the new
    /// one. It returns `None` if there is no such move, and then no slot is vacant. It removes vacant slots at the
    /// end. It looks only at the slots that it removes, and does not allocate.
    pub fn last_into_hole(&mut self) -> Option<(u32, u32)>
        // if an item moves
        ensures moves { IfSome result (λ m. MovesLast self.old.slots self.new.slots m.0 m.1) }
        ensures fewer { OnSome result (vacant self.new < vacant self.old) }

        // if none moves
        ensures none_vacant { IfNone result (vacant self.new ≡ 0) }
        ensures none_moves { IfNone result (SameItems self.old self.new) }

        // either way
        ensures cut { EndsOccupied self.new.slots }
        ensures len { store_len self.new ≡ store_len self.old }
        ensures capacity { self.new.capacity ≡ self.old.capacity }
        ensures limit { self.new.limit ≡ self.old.limit }
    {
        self.first_vacant = cut_vacant(&mut self.slots, self.first_vacant);
        if self.first_vacant == NO_SLOT {
            return None;
        }
        let hole = self.first_vacant;
        let last = self.slots.len() - 1;
        self.first_vacant = move_last(&mut self.slots, hole);
        self.first_vacant = cut_vacant(&mut self.slots, self.first_vacant);
        Some((last as u32, hole))
    }

    /// Returns a store of the same limit with a clone of each item in the same slot, and the same slots vacant. It
    /// returns an error if memory for a clone or for the slots is refused; then the clones are dropped.
    pub fn try_clone(&self) -> Result<Self, AllocError>
    where
        T: Clone,
        ensures clones { IfOk result (IsStoreClone T.is_clone self.now) }
        ensures len { IfOk result (λ copy. store_len copy ≡ store_len self.now) }
        ensures vacant { IfOk result (λ copy. vacant copy ≡ vacant self.now) }
    {
        Ok(ItemStore {
            slots: self.slots.clone()?,
            len: self.len,
            first_vacant: self.first_vacant,
            limit: self.limit,
        })
    }
}
