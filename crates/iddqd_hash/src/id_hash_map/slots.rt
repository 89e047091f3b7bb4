//! The items of slots: found, read, lent for writing, removed; and from slot to slot, in the order of their numbers.
ghost use Rattle.std.specs.Prelude.{◌≡◌, ◌<◌, IfSome, IsSome, Some};
ghost use Rattle.std.specs.Borrow.{sem};
ghost use Rattle.iddqd_store.specs.Counting.{CountsAtMost};
ghost use Rattle.iddqd_store.specs.Holding.{Removes};
ghost use Rattle.iddqd_store.specs.SlotItems.{item_of_slot};
ghost use Rattle.iddqd_hash_parts.specs.SlotOrder.{FindsItemFrom, FindsSlotFrom, GoesOnAt};

use super::{IdHashMap, Keyed};
use iddqd_hash_parts::{find_slot, item_from, remove_from_both, slot_from};
use iddqd_store::{Equivalent, IdHashItem, OwnKey, Steps};
use std::hash::BuildHasher;

impl<T, S> IdHashMap<T, S> {
    ghost use Rattle.iddqd_hash.specs.Guard.{lends_item};
    ghost use Rattle.iddqd_hash.specs.HashMap.{SpareFits};

    // Returns the item of the slot.
    #[inline]
    pub(super) fn item_in_slot(&self, slot: u32) -> &T
        requires { IsSome (item_of_slot self.now.slots self.now.items slot) }
        ensures { item_of_slot self.now.slots self.now.items slot ≡ Some result.now }
    {
        self.store.item(slot)
    }

    // Returns the item of the slot, for writing.
    #[inline]
    pub(super) fn item_in_slot_mut(&mut self, slot: u32) -> &mut T
        requires { IsSome (item_of_slot self.old.slots self.old.items slot) }
        ensures* writes_back { sem 𝓛 (lends_item S.row T.row self.entry slot result) }
        ensures value { item_of_slot self.old.slots self.old.items slot ≡ Some result.now }
    {
        self.store.get_mut(slot)
    }

    // Returns the first slot from this number on that has an item, with the item. Looks at each slot up to that one.
    #[inline]
    pub(super) fn item_from(&self, from: u32) -> Option<(u32, &T)>
        ensures found { FindsItemFrom self.now.slots self.now.items from result }
        ensures fits { IfSome result (λ found. found.0 < u32.MAX) }
        ensures spare_fits { SpareFits self.now }
    {
        item_from(&self.store, from)
    }

    // Returns the first slot from this number on that has an item. There must be one, and the number must be 0 or that
    // behind another such slot. Looks at each slot up to that one.
    #[inline]
    pub(super) fn slot_from(&self, from: u32) -> u32
        requires { GoesOnAt self.now.slots from }
        ensures found { FindsSlotFrom self.now.slots self.now.items from result }
        ensures fits { result < u32.MAX }
    {
        slot_from(&self.store, from)
    }
}

impl<T: IdHashItem, S: BuildHasher> IdHashMap<T, S> {
    ghost use Rattle.iddqd_hash_parts.specs.HashItems.{FindsSlot, HasHash, holding_of, of_stored_hash};
    ghost use Rattle.iddqd_hash.specs.HashMap.{HashStays, LosesPlaceOf, SpareFits};

    // Returns the slot of the item that the query finds. The hash is that of each key for which the query stands.
    #[inline(always)]
    pub(super) fn slot_by_key<Q: Equivalent<T::Key>>(
        &self,
        hash: u64,
        query: &Q,
        steps: &mut Steps,
    ) -> Option<u32>
        requires keyed { ⟦<Self as Keyed>⟧.keyed self.now }
        requires hash { HasHash ⟦<Self as Keyed>⟧.hash self.now (Q.equivalent query.now) T.Key.hash_input hash }

        // what is found
        ensures slot { FindsSlot T.key (Q.equivalent query.now) self.now hash result }
        ensures spare_fits { SpareFits self.now }

        // what it costs
        ensures steps { CountsAtMost steps.old steps.new (of_stored_hash self.now hash) }
    {
        find_slot::<T, OwnKey, Q>(&self.store, &self.index, hash, query, steps)
    }

    // Returns the slot of the item whose key is equal to this item's, which has the hash.
    #[inline]
    pub(super) fn slot_of_equal(&self, hash: u64, item: &T) -> Option<u32>
        requires keyed { ⟦<Self as Keyed>⟧.keyed self.now }
        requires hash { hash ≡ ⟦<Self as Keyed>⟧.hash self.now (T.Key.hash_input (T.key item.now)) }
        ensures slot { FindsSlot T.key (T.Key.eq (T.key item.now)) self.now hash result }
        ensures spare_fits { SpareFits self.now }
    {
        self.slot_by_key(hash, item.key(), &mut Steps::new())
    }

    // Returns the hash of the item's key.
    #[inline]
    pub(super) fn hash_of(&self, item: &T) -> u64
        ensures { result ≡ ⟦<Self as Keyed>⟧.hash self.now (T.Key.hash_input (T.key item.now)) }
    {
        self.hasher.hash_one(item.key())
    }

    // Removes the item of the slot. Hashes its key once.
    pub(super) fn take_slot(&mut self, slot: u32) -> T
        requires keyed { ⟦<Self as Keyed>⟧.keyed self.old }
        requires there { IsSome (item_of_slot self.old.slots self.old.items slot) }
        ensures gone { LosesPlaceOf slot self.old self.new }
        ensures removed { Removes (Some result) (holding_of self.old) (holding_of self.new) }
        ensures stays { HashStays ⟦<Self as Keyed>⟧.keyed self.old self.new }
    {
        let hash = self.hash_of(self.item_in_slot(slot));
        self.take_hashed(hash, slot)
    }

    // The same, with the hash that is stored for the slot.
    pub(super) fn take_hashed(&mut self, hash: u64, slot: u32) -> T
        requires keyed { ⟦<Self as Keyed>⟧.keyed self.old }
        requires there { IsSome (item_of_slot self.old.slots self.old.items slot) }
        requires listed { item_of_slot self.old.slots self.old.hashes slot ≡ Some hash }

        // what is removed
        ensures value { item_of_slot self.old.slots self.old.items slot ≡ Some result }
        ensures gone { LosesPlaceOf slot self.old self.new }
        ensures removed { Removes (Some result) (holding_of self.old) (holding_of self.new) }

        // what stays
        ensures stays { HashStays ⟦<Self as Keyed>⟧.keyed self.old self.new }
    {
        remove_from_both(&mut self.store, &mut self.index, hash, slot)
    }
}
