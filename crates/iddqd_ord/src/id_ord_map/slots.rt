//! The items of slots: read, lent for writing, removed.
ghost use Rattle.std.specs.Prelude.{◌≡◌, ◌<◌, ◌≤◌, IsSome, Some, length, remove, slice_get};
ghost use Rattle.std.specs.Borrow.{sem};
ghost use Rattle.iddqd_store.specs.Contents.{Ascends};
ghost use Rattle.iddqd_store.specs.Holding.{LeavesSlots, Removes};
ghost use Rattle.iddqd_store.specs.SlotItems.{HaveSlots};
ghost use Rattle.iddqd_ord.specs.StoreAndIndex.{LosesBetween};

use super::IdOrdMap;
use super::store_and_index::{remove_from_both, remove_part_from_both};
use iddqd_ord_index::Place;
use iddqd_store::IdOrdItem;

impl<T> IdOrdMap<T> {
    ghost use Rattle.iddqd_ord.specs.Guard.{IsSlotAt, item_in_slot, lends_item};

    // Returns the item of the slot.
    #[inline]
    pub(super) fn item_in_slot(&self, slot: u32) -> &T
        requires { IsSome (item_in_slot self.now slot) }
        ensures { item_in_slot self.now slot ≡ Some result.now }
    {
        self.store.item(slot)
    }

    // Returns the item of the slot, for writing.
    #[inline]
    pub(super) fn item_in_slot_mut(&mut self, slot: u32) -> &mut T
        requires { IsSome (item_in_slot self.old slot) }
        ensures* writes_back { sem 𝓛 (lends_item T.row self.entry slot result) }
        ensures value { item_in_slot self.old slot ≡ Some result.now }
    {
        self.store.get_mut(slot)
    }

    // Returns the slot of the item at this position. Calls for one position after the other go down the index once for
    // several items.
    #[inline]
    pub(super) fn slot_at_position(&mut self, at: usize) -> u32
        requires { at < length self.old.items }
        ensures slot { IsSlotAt self.old at result }
        ensures unchanged { self.new ≡ self.old }
    {
        let place = self.index.place(at);
        self.index.slot_in_turn(place)
    }

    // Returns the slot at the place. It goes down the index once.
    #[inline]
    pub(super) fn slot_at(&self, place: Place) -> u32
        requires { place < length self.now.items }
        ensures { IsSlotAt self.now place result }
    {
        self.index.slot_at(place)
    }
}

impl<T: IdOrdItem> IdOrdMap<T> {
    // Removes and returns the item at the place.
    pub(super) fn take_at_place(&mut self, place: Place) -> T
        requires keyed { Ascends T.key T.Key.cmp self.old.items }
        requires in_list { place < length self.old.slots }
        ensures item { slice_get self.old.items place ≡ Some result }

        // what is left
        ensures items { self.new.items ≡ remove self.old.items place }
        ensures slots { self.new.slots ≡ remove self.old.slots place }
        ensures own { HaveSlots self.old.slots self.old.items }
        ensures removed { Removes (Some result) self.old self.new }
        ensures keyed { Ascends T.key T.Key.cmp self.new.items }
    {
        remove_from_both(&mut self.store, &mut self.index, place)
    }

    // Removes and drops the items from one position on up to another.
    pub(super) fn remove_between(&mut self, from: usize, to: usize)
    where
        T: Drop,
        requires keyed { Ascends T.key T.Key.cmp self.old.items }
        requires forward { from ≤ to }
        requires in_list { to ≤ length self.old.items }
        ensures items { LosesBetween from to self.old.items self.new.items }
        ensures leaves { LeavesSlots self.old self.new }
        ensures keyed { Ascends T.key T.Key.cmp self.new.items }
    {
        let from = self.index.place(from);
        let to = self.index.place(to);
        remove_part_from_both(&mut self.store, &mut self.index, from, to);
    }
}
