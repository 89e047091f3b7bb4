//! The item of an entry: read, lent, replaced, removed. No call looks for it again, and none allocates.
ghost use Rattle.std.specs.Prelude.{◌≡◌, IfSome, Some};
ghost use Rattle.std.specs.Borrow.{sem};
ghost use Rattle.iddqd_hash.specs.Entry.{EntryKeeps, EntryKeepsAkin, HasKeyOf, Occupied, RemovesAt, entry_follows, entry_item, entry_map, entry_lender, entry_others, entry_slot, entry_with};
ghost use Rattle.iddqd_hash.specs.Guard.{GuardKeeps, GuardKeepsAkin, lent_map, guard_lender, lent_slot, shown_item, shown_map, shown_lender};

use super::OccupiedEntry;
use crate::id_hash_map::{IdHashMap as Map, Keyed, RefMut, Shown};
use iddqd_store::IdHashItem;
use std::hash::BuildHasher;
use std::mem;

impl<'a, T, S> OccupiedEntry<'a, T, S> {
    /// Returns the item.
    #[inline]
    pub fn get(&self) -> &T
        ensures { entry_item (Occupied self.now) ≡ Some result.now }
    {
        self.map.item_in_slot(self.slot)
    }

    /// Returns the item, for reading as long as the map is borrowed.
    #[inline]
    pub fn into_ref(self) -> Shown<'a, T, S>
        ensures same_map { shown_lender result ≡ entry_lender (Occupied self.entry) }
        ensures map { shown_map result ≡ entry_map (Occupied self.entry) }
        ensures item { shown_item result ≡ entry_item (Occupied self.entry) }
    {
        let OccupiedEntry { map, slot, hash: _ } = self;
        Shown { map, slot }
    }
}

impl<'a, T: IdHashItem, S: BuildHasher> OccupiedEntry<'a, T, S> {
    /// Returns the item, for writing while the entry is borrowed. A keyed map stays keyed if the key written is equal
    /// to the entry's.
    #[inline]
    pub fn get_mut(&mut self) -> &mut T
        ensures* writes_back { sem 𝓛 (entry_follows S.row T.row self.entry result) }
        ensures value { entry_item (Occupied self.old) ≡ Some result.now }
        ensures keyed { EntryKeeps ⟦<Map<T, S> as Keyed>⟧ T.key self.old result }
        ensures keyed_akin { EntryKeepsAkin ⟦<Map<T, S> as Keyed>⟧ self.old result }
    {
        let slot = self.slot;
        self.map.item_in_slot_mut(slot)
    }

    /// Returns a guard for the item, as long as the map is borrowed. The guard has to be spent.
    #[inline]
    pub fn into_mut(self) -> RefMut<'a, T, S>
        requires keyed { ⟦<Map<T, S> as Keyed>⟧.keyed (entry_map (Occupied self)) }

        // what is lent
        ensures same_map { guard_lender result ≡ entry_lender (Occupied self.entry) }
        ensures lent { lent_map result ≡ entry_map (Occupied self.entry) }
        ensures slot { lent_slot result ≡ entry_slot self.entry }

        // what may be written
        ensures keyed { GuardKeeps T.key ⟦<Map<T, S> as Keyed>⟧.keyed result }
        ensures keyed_akin { GuardKeepsAkin ⟦<Map<T, S> as Keyed>⟧ result }
    {
        let OccupiedEntry { map, slot, hash: _ } = self;
        RefMut {
            map,
            slot,
            spent: false,
        }
    }

    /// Replaces the entry's item by this one, whose key is equal, and returns the old one. The whole item is replaced,
    /// its key's spelling too. Hashes and compares no keys.
    pub fn insert(&mut self, item: T) -> T
        requires keyed { ⟦<Map<T, S> as Keyed>⟧.keyed (entry_map (Occupied self.old)) }
        requires akin { IfSome (entry_item (Occupied self.old)) (HasKeyOf T.key T.Key.eq item) }

        // what is replaced
        ensures old { entry_item (Occupied self.old) ≡ Some result }
        ensures new { entry_item (Occupied self.new) ≡ Some item }
        ensures map { entry_map (Occupied self.new) ≡ entry_with (Occupied self.old) item }

        // what stays
        ensures same_map { entry_lender (Occupied self.new) ≡ entry_lender (Occupied self.old) }
        ensures slot { entry_slot self.new ≡ entry_slot self.old }
        ensures others { entry_others (Occupied self.new) ≡ entry_others (Occupied self.old) }
        ensures keyed { ⟦<Map<T, S> as Keyed>⟧.keyed (entry_map (Occupied self.new)) }
    {
        mem::replace(self.get_mut(), item)
    }

    /// Removes and returns the item. Its slot becomes vacant, and its room is spare. Hashes and compares no keys.
    pub fn remove(self) -> T
        requires keyed { ⟦<Map<T, S> as Keyed>⟧.keyed (entry_map (Occupied self)) }
        ensures { RemovesAt ⟦<Map<T, S> as Keyed>⟧ result self.entry self.exit.0.now }
    {
        let slot = self.slot;
        let hash = self.hash;
        self.map.take_hashed(hash, slot)
    }
}
