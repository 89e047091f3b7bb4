//! The item of an entry: read, lent, replaced, removed. Nothing here looks for it again, and nothing allocates.
ghost use Rattle.std.specs.Prelude.{◌≡◌, Some};
ghost use Rattle.std.specs.Borrow.{sem};
ghost use Rattle.iddqd_store.specs.Contents.{Ascends};
ghost use Rattle.iddqd_store.specs.Holding.{Removes};
ghost use Rattle.iddqd_ord.specs.Entry.{EntryKeeps, EntryKeepsAkin, HasKeyOf, Occupied, entry_follows, entry_item, entry_map, entry_lender, entry_others, entry_slot, entry_with};
ghost use Rattle.iddqd_ord.specs.Guard.{GuardKeeps, GuardKeepsAkin, lent_map, guard_lender, lent_slot, shown_item, shown_map, shown_lender};

use super::OccupiedEntry;
use crate::id_ord_map::{RefMut, Shown};
use iddqd_store::IdOrdItem;
use std::mem;

impl<'a, T> OccupiedEntry<'a, T> {
    /// Returns the item.
    #[inline]
    pub fn get(&self) -> &T
        ensures { entry_item (Occupied self.now) ≡ Some result.now }
    {
        self.map.item_in_slot(self.slot)
    }

    /// Returns the item, for reading as long as the map is borrowed.
    #[inline]
    pub fn into_ref(self) -> Shown<'a, T>
        ensures same_map { shown_lender result ≡ entry_lender (Occupied self.entry) }
        ensures map { shown_map result ≡ entry_map (Occupied self.entry) }
        ensures item { shown_item result ≡ entry_item (Occupied self.entry) }
    {
        let OccupiedEntry {
            map,
            slot,
            place: _,
        } = self;
        Shown { map, slot }
    }
}

impl<'a, T: IdOrdItem> OccupiedEntry<'a, T> {
    /// Returns the item, for writing while the entry is borrowed. A keyed map stays keyed if the key written is equal
    /// to the entry's.
    #[inline]
    pub fn get_mut(&mut self) -> &mut T
        ensures* writes_back { sem 𝓛 (entry_follows T.row self.entry result) }
        ensures value { entry_item (Occupied self.old) ≡ Some result.now }
        ensures keyed { EntryKeeps T.key T.Key.cmp self.old result }
        ensures keyed_akin { EntryKeepsAkin T.key T.Key.cmp T.Key.eq self.old result }
    {
        let slot = self.slot;
        self.map.item_in_slot_mut(slot)
    }

    /// Returns a guard for the item, as long as the map is borrowed. The guard has to be spent.
    #[inline]
    pub fn into_mut(self) -> RefMut<'a, T>
        requires keyed { Ascends T.key T.Key.cmp (entry_map (Occupied self)).items }
        ensures same_map { guard_lender result ≡ entry_lender (Occupied self.entry) }
        ensures lent { lent_map result ≡ entry_map (Occupied self.entry) }
        ensures slot { lent_slot result ≡ entry_slot self.entry }

        // after a write
        ensures keyed { GuardKeeps T.key T.Key.cmp result }
        ensures keyed_akin { GuardKeepsAkin T.key T.Key.cmp T.Key.eq result }
    {
        let OccupiedEntry {
            map,
            slot,
            place: _,
        } = self;
        RefMut {
            map,
            slot,
            spent: false,
        }
    }

    /// Replaces the entry's item by this one, whose key is equal, and returns the old one. The whole item is replaced,
    /// its key's spelling too. Compares no keys.
    pub fn insert(&mut self, item: T) -> T
        requires keyed { Ascends T.key T.Key.cmp (entry_map (Occupied self.old)).items }
        requires akin { HasKeyOf T.key T.Key.eq item (Occupied self.old) }
        ensures old { entry_item (Occupied self.old) ≡ Some result }
        ensures new { entry_item (Occupied self.new) ≡ Some item }
        ensures map { entry_map (Occupied self.new) ≡ entry_with (Occupied self.old) item }

        // what stays
        ensures same_map { entry_lender (Occupied self.new) ≡ entry_lender (Occupied self.old) }
        ensures slot { entry_slot self.new ≡ entry_slot self.old }
        ensures others { entry_others (Occupied self.new) ≡ entry_others (Occupied self.old) }
        ensures keyed { Ascends T.key T.Key.cmp (entry_map (Occupied self.new)).items }
    {
        mem::replace(self.get_mut(), item)
    }

    /// Removes and returns the item. Its slot becomes vacant. Compares no keys.
    pub fn remove(self) -> T
        requires keyed { Ascends T.key T.Key.cmp (entry_map (Occupied self)).items }
        ensures value { entry_item (Occupied self.entry) ≡ Some result }
        ensures items { self.exit.0.now.items ≡ entry_others (Occupied self.entry) }
        ensures removed { Removes (Some result) (entry_map (Occupied self.entry)) self.exit.0.now }
        ensures keyed { Ascends T.key T.Key.cmp self.exit.0.now.items }
    {
        let place = self.place;
        self.map.take_at_place(place)
    }
}
