//! The items of an entry: read, lent, replaced, removed. No call looks for them again, and none allocates.
ghost use Rattle.std.specs.Prelude.{◌≡◌, ◌∷◌, [], IsTrue, Some, map};
ghost use Rattle.std.specs.Borrow.{sem};
ghost use Rattle.iddqd_store.specs.Contents.{IsAbsent};
ghost use Rattle.iddqd_store.specs.Errors.{values_of};
ghost use Rattle.iddqd_bi_hash.specs.Entry.{AreLent, EntryKeeps, EntryKeepsAkin, LendsIfOccupied, MutKeeps, MutKeepsAkin, Occupied, RemovesItems, ReplacesItems, entry_follows, entry_is_unique, entry_item, entry_items, entry_lender, entry_map, entry_others, mut_lender};
ghost use Rattle.iddqd_bi_hash.specs.TwoKeys.{slots_of_pair};

use super::{OccupiedEntry, OccupiedEntryMut};
use crate::bi_hash_map::{BiHashMap as Map, Keyed, RefMut};
use crate::items::BiHashItem;
use iddqd_store::Few;
use std::hash::BuildHasher;

// Two slots, or one if they are the same.
fn few_slots(first: u32, second: u32) -> Few<u32>
    ensures { values_of result ≡ slots_of_pair first second }
{
    if first == second {
        Few::One(first)
    } else {
        Few::Two(first, second)
    }
}

impl<'a, T, S> OccupiedEntry<'a, T, S> {
    /// Returns the one or two items, that of the first key first.
    #[inline]
    pub fn items(&self) -> Few<&T>
        ensures { AreLent (Occupied self.now) (values_of result) }
    {
        let slots = few_slots(self.first, self.second);
        self.map.items_in_slots(slots)
    }

    /// Returns true if one item has both keys.
    #[inline]
    pub fn is_unique(&self) -> bool
        ensures { result ≡ entry_is_unique (Occupied self.now) }
    {
        self.unique
    }
}

impl<'a, T: BiHashItem, S: BuildHasher> OccupiedEntry<'a, T, S> {
    /// Returns the item that has both keys, for writing while the entry is borrowed. Ask `is_unique` first. A keyed map
    /// stays keyed if each key written is equal to the item's.
    #[inline]
    pub fn get_mut(&mut self) -> &mut T
        requires unique { IsTrue (entry_is_unique (Occupied self.old)) }
        ensures* writes_back { sem 𝓛 (entry_follows S.row T.row self.entry result) }
        ensures value { entry_item (Occupied self.old) ≡ Some result.now }
        ensures items { entry_items (Occupied self.old) ≡ result.now ∷ [] }
        ensures keyed { EntryKeeps ⟦<Map<T, S> as Keyed>⟧ T.key1 T.key2 self.old result }
        ensures keyed_akin { EntryKeepsAkin ⟦<Map<T, S> as Keyed>⟧ self.old result }
    {
        let slot = self.first;
        self.map.item_in_slot_mut(slot)
    }

    /// Returns a guard for the item, as long as the map is borrowed. If no item has both keys, it returns the entry. The
    /// guard has to be spent.
    #[inline]
    pub fn into_mut(self) -> OccupiedEntryMut<'a, T, S>
        requires keyed { ⟦<Map<T, S> as Keyed>⟧.keyed (entry_map (Occupied self)) }

        // what is lent
        ensures same_map { mut_lender result ≡ entry_lender (Occupied self.entry) }
        ensures lent { LendsIfOccupied (Occupied self.entry) result }

        // what may be written
        ensures keyed { MutKeeps ⟦<Map<T, S> as Keyed>⟧ T.key1 T.key2 result }
        ensures keyed_akin { MutKeepsAkin ⟦<Map<T, S> as Keyed>⟧ result }
    {
        if !self.unique {
            return OccupiedEntryMut::NonUnique(self);
        }
        let slot = self.first;
        OccupiedEntryMut::Unique(RefMut {
            map: self.map,
            slot,
            spent: false,
        })
    }

    /// Replaces the entry's items by this one, and returns them, that of the first key first. No other item has one of
    /// its keys, which need not be those that were asked for. Hashes each key once, and those of each removed item.
    pub fn insert(self, item: T) -> Few<T>
        requires keyed { ⟦<Map<T, S> as Keyed>⟧.keyed (entry_map (Occupied self)) }
        requires absent1 { IsAbsent T.key1 (T.K1.eq (T.key1 item)) (entry_others (Occupied self)) }
        requires absent2 { IsAbsent T.key2 (T.K2.eq (T.key2 item)) (entry_others (Occupied self)) }
        ensures { ReplacesItems ⟦<Map<T, S> as Keyed>⟧ item self.entry result self.exit.0.now }
    {
        let slots = few_slots(self.first, self.second);
        self.map.replace_slots(slots, item)
    }

    /// Removes and returns the items, that of the first key first. Their slots become vacant, and their room is spare.
    /// Hashes both keys of each once, and compares none.
    pub fn remove(self) -> Few<T>
        requires keyed { ⟦<Map<T, S> as Keyed>⟧.keyed (entry_map (Occupied self)) }
        ensures { RemovesItems ⟦<Map<T, S> as Keyed>⟧ self.entry result self.exit.0.now }
    {
        let slots = few_slots(self.first, self.second);
        self.map.take_slots(slots)
    }
}
