//! The items of slots: read, lent for writing, removed; and the slots that searches find.
ghost use Rattle.std.specs.Prelude.{◌≡◌, ◌<◌, ◌++◌, IfSome, IsSome, Some};
ghost use Rattle.std.specs.Borrow.{sem};
ghost use Rattle.iddqd_store.specs.Contents.{AddsItem, IsAbsent};
ghost use Rattle.iddqd_store.specs.Errors.{values_of};
ghost use Rattle.iddqd_store.specs.Holding.{Removes};
ghost use Rattle.iddqd_store.specs.SlotItems.{item_of_slot};
ghost use Rattle.iddqd_bi_hash.specs.TwoKeys.{as_list, other_slot};
ghost use Rattle.iddqd_hash_parts.specs.SlotOrder.{FindsItemFrom, FindsSlotFrom, GoesOnAt};
ghost use Rattle.iddqd_hash_parts.specs.SlotsFound.{values_if_any};

use super::by_key::{First, Second};
use super::store_and_indexes::remove_from_all;
use super::{BiHashMap, Keyed};
use crate::both::Both;
use crate::items::BiHashItem;
use iddqd_hash_parts::{find_slot, item_from, rising_slots, slot_from};
use iddqd_store::{Equivalent, Few, Steps};
use std::hash::BuildHasher;

// The slots that two searches found, that of the first search first and each once.
fn slots_once(one: Option<u32>, other: Option<u32>) -> Option<Few<u32>>
    ensures { values_if_any result ≡ as_list one ++ as_list (other_slot one other) }
{
    match (one, other) {
        (None, None) => None,
        (Some(slot), None) | (None, Some(slot)) => Some(Few::One(slot)),
        (Some(one), Some(other)) if one == other => Some(Few::One(one)),
        (Some(one), Some(other)) => Some(Few::Two(one, other)),
    }
}

impl<T, S> BiHashMap<T, S> {
    ghost use Rattle.iddqd_bi_hash.specs.BiHashMap.{AreItemsOf, AreOccupied, IsOccupied};
    ghost use Rattle.iddqd_bi_hash.specs.Guard.{lends_item};

    // Returns the item of the slot.
    #[inline]
    pub(super) fn item_in_slot(&self, slot: u32) -> &T
        requires { IsOccupied self.now slot }
        ensures { item_of_slot self.now.slots self.now.items slot ≡ Some result.now }
    {
        self.store.item(slot)
    }

    // Returns the item of the slot, for writing.
    #[inline]
    pub(super) fn item_in_slot_mut(&mut self, slot: u32) -> &mut T
        requires { IsOccupied self.old slot }
        ensures* writes_back { sem 𝓛 (lends_item S.row T.row self.entry slot result) }
        ensures value { item_of_slot self.old.slots self.old.items slot ≡ Some result.now }
    {
        self.store.get_mut(slot)
    }

    // Returns the items of the slots.
    pub(super) fn items_in_slots(&self, slots: Few<u32>) -> Few<&T>
        requires { AreOccupied self.now (values_of slots) }
        ensures { AreItemsOf self.now (values_of slots) (values_of result) }
    {
        match slots {
            Few::One(a) => Few::One(self.item_in_slot(a)),
            Few::Two(a, b) => Few::Two(self.item_in_slot(a), self.item_in_slot(b)),
            Few::Three(a, b, c) => Few::Three(
                self.item_in_slot(a),
                self.item_in_slot(b),
                self.item_in_slot(c),
            ),
        }
    }
}

impl<T, S> BiHashMap<T, S> {
    ghost use Rattle.iddqd_bi_hash.specs.BiHashMap.{SpareFits};

    // Returns the first slot from this number on that has an item, with the item. Looks at each slot up to that one.
    pub(super) fn item_from(&self, from: u32) -> Option<(u32, &T)>
        ensures found { FindsItemFrom self.now.slots self.now.items from result }
        ensures fits { IfSome result (λ found. found.0 < u32.MAX) }
        ensures spare_fits { SpareFits self.now }
    {
        item_from(&self.store, from)
    }

    // Returns the first slot from this number on that has an item. There must be one, and the number must be 0 or that
    // behind another such slot. Looks at each slot up to that one.
    #[inline]
    pub(super) fn slot_from(&self, from: u32) -> u32
        requires { GoesOnAt self.now.slots from }
        ensures found { FindsSlotFrom self.now.slots self.now.items from result }
        ensures fits { result < u32.MAX }
    {
        slot_from(&self.store, from)
    }
}

impl<T: BiHashItem, S: BuildHasher> BiHashMap<T, S> {
    ghost use Rattle.iddqd_hash_parts.specs.HashItems.{FindsSlot, HasHash};
    ghost use Rattle.iddqd_bi_hash.specs.BiHashItems.{by_key1, by_key2, holding_of};
    ghost use Rattle.iddqd_bi_hash.specs.BiHashMap.{AreHashes, AreOccupied, AreSlotsDisplaced, AreSlotsMet, BiStays, FindsSlotByBoth, IsOccupied, LosesPlaceOf, SpareFits};

    // Returns the slot of the item that the query finds by the first key. The hash is that of each key for which the
    // query stands.
    #[inline]
    pub(super) fn slot_by_key1<Q: Equivalent<T::K1>>(&self, hash: u64, query: &Q) -> Option<u32>
        requires keyed { ⟦<Self as Keyed>⟧.keyed self.now }
        requires hash { HasHash ⟦<Self as Keyed>⟧.hash self.now (Q.equivalent query.now) T.K1.hash_input hash }
        ensures slot { FindsSlot T.key1 (Q.equivalent query.now) (by_key1 self.now) hash result }
        ensures spare_fits { SpareFits self.now }
    {
        find_slot::<T, First, Q>(&self.store, &self.index1, hash, query, &mut Steps::new())
    }

    // The same by the second key.
    #[inline]
    pub(super) fn slot_by_key2<Q: Equivalent<T::K2>>(&self, hash: u64, query: &Q) -> Option<u32>
        requires keyed { ⟦<Self as Keyed>⟧.keyed self.now }
        requires hash { HasHash ⟦<Self as Keyed>⟧.hash self.now (Q.equivalent query.now) T.K2.hash_input hash }
        ensures slot { FindsSlot T.key2 (Q.equivalent query.now) (by_key2 self.now) hash result }
        ensures spare_fits { SpareFits self.now }
    {
        find_slot::<T, Second, Q>(&self.store, &self.index2, hash, query, &mut Steps::new())
    }

    // Returns the slot of the item that both queries find. Searches by the first key, under its hash, and compares the
    // second key of the item that it finds.
    pub(super) fn slot_by_both<Q: Equivalent<T::K1>, R: Equivalent<T::K2>>(
        &self,
        hash: u64,
        query1: &Q,
        query2: &R,
    ) -> Option<u32>
        requires keyed { ⟦<Self as Keyed>⟧.keyed self.now }
        requires hash { HasHash ⟦<Self as Keyed>⟧.hash self.now (Q.equivalent query1.now) T.K1.hash_input hash }
        ensures first { IfSome result (λ slot. FindsSlot T.key1 (Q.equivalent query1.now) (by_key1 self.now) hash (Some slot)) }
        ensures both { FindsSlotByBoth T.key1 T.key2 (Q.equivalent query1.now) (R.equivalent query2.now) self.now result }
        ensures spare_fits { SpareFits self.now }
    {
        let slot = self.slot_by_key1(hash, query1)?;
        if query2.equivalent(self.item_in_slot(slot).key2()) {
            Some(slot)
        } else {
            None
        }
    }

    // Returns the slots of the items that have one of the item's keys, the lesser first and each once.
    pub(super) fn slots_met(&self, hash1: u64, hash2: u64, item: &T) -> Option<Few<u32>>
        requires keyed { ⟦<Self as Keyed>⟧.keyed self.now }
        requires hashes { AreHashes ⟦<T as Both>⟧ ⟦<Self as Keyed>⟧ self.now item.now hash1 hash2 }
        ensures there { AreOccupied self.now (values_if_any result) }
        ensures met { AreSlotsMet ⟦<T as Both>⟧ item.now self.now result }
    {
        let steps = &mut Steps::new();
        let one = find_slot::<T, First, _>(&self.store, &self.index1, hash1, item.key1(), steps);
        let other = find_slot::<T, Second, _>(&self.store, &self.index2, hash2, item.key2(), steps);
        rising_slots(one, other)
    }

    // Returns the slots of the items that have one of the item's keys, that of the first key first and each once.
    pub(super) fn slots_displaced(&self, hash1: u64, hash2: u64, item: &T) -> Option<Few<u32>>
        requires keyed { ⟦<Self as Keyed>⟧.keyed self.now }
        requires hashes { AreHashes ⟦<T as Both>⟧ ⟦<Self as Keyed>⟧ self.now item.now hash1 hash2 }
        ensures there { AreOccupied self.now (values_if_any result) }
        ensures met { AreSlotsDisplaced ⟦<T as Both>⟧ item.now self.now result }
    {
        let one = self.slot_by_key1(hash1, item.key1());
        let other = self.slot_by_key2(hash2, item.key2());
        slots_once(one, other)
    }

    // Removes the item of the slot. Hashes each of its keys once.
    pub(super) fn take_slot(&mut self, slot: u32) -> T
        requires keyed { ⟦<Self as Keyed>⟧.keyed self.old }
        requires there { IsSome (item_of_slot self.old.slots self.old.items slot) }
        ensures value { item_of_slot self.old.slots self.old.items slot ≡ Some result }
        ensures gone { LosesPlaceOf slot self.old self.new }
        ensures removed { Removes (Some result) (holding_of self.old) (holding_of self.new) }
        ensures stays { BiStays ⟦<Self as Keyed>⟧.keyed self.old self.new }
    {
        let hash1 = self.hasher.hash_one(self.item_in_slot(slot).key1());
        let hash2 = self.hasher.hash_one(self.item_in_slot(slot).key2());
        self.take_hashed(hash1, hash2, slot)
    }

    // Removes the item of the slot, with the hashes that are stored for it.
    pub(super) fn take_hashed(&mut self, hash1: u64, hash2: u64, slot: u32) -> T
        requires keyed { ⟦<Self as Keyed>⟧.keyed self.old }
        requires there { IsOccupied self.old slot }
        requires listed1 { item_of_slot self.old.slots self.old.hashes1 slot ≡ Some hash1 }
        requires listed2 { item_of_slot self.old.slots self.old.hashes2 slot ≡ Some hash2 }

        // what is removed
        ensures value { item_of_slot self.old.slots self.old.items slot ≡ Some result }
        ensures gone { LosesPlaceOf slot self.old self.new }
        ensures removed { Removes (Some result) (holding_of self.old) (holding_of self.new) }
        ensures alone { AddsItem result self.new.items self.old.items }
        ensures gone1 { IsAbsent T.key1 (T.K1.eq (T.key1 result)) self.new.items }
        ensures gone2 { IsAbsent T.key2 (T.K2.eq (T.key2 result)) self.new.items }

        // what stays
        ensures stays { BiStays ⟦<Self as Keyed>⟧.keyed self.old self.new }
    {
        remove_from_all(
            &mut self.store,
            &mut self.index1,
            &mut self.index2,
            hash1,
            hash2,
            slot,
        )
    }
}
