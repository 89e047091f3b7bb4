//! What the calls of an entry do to its map.
ghost use Rattle.std.specs.Prelude.{◌≡◌, ◌+◌, ◌<◌, ◌≤◌, IfErr, IfOk, OnErr, OnOk, length, nat_eq};
ghost use Rattle.std.specs.List.{IsDistinct};
ghost use Rattle.iddqd_store.specs.Contents.{AddsItem};
ghost use Rattle.iddqd_store.specs.Errors.{values_of};
ghost use Rattle.iddqd_store.specs.SlotItems.{HaveSlots};

use crate::bi_hash_map::{BiHashMap, Keyed};
use crate::both::Both;
use crate::items::BiHashItem;
use iddqd_store::{Few, Refused};
use std::hash::BuildHasher;

impl<T: BiHashItem, S: BuildHasher> BiHashMap<T, S> {
    ghost use Rattle.iddqd_bi_hash.specs.BiHashMap.{AreOccupied, BiInserts, BiKeeps, BiReturnsItem, BiStays, HasNewKeys, IsInsertedAt, MeetsNoneBeside, items_at, items_beside};

    // Inserts an item whose keys no other has, and returns its slot.
    pub(super) fn insert_absent(&mut self, item: T) -> Result<u32, Refused<T>>
        requires keyed { ⟦<Self as Keyed>⟧.keyed self.old }
        requires absent { HasNewKeys ⟦<T as Both>⟧ item self.old.items }

        // on success
        ensures inserted { OnOk result (BiInserts ⟦<Self as Keyed>⟧.keyed item self.old self.new) }
        ensures there { IfOk result (IsInsertedAt item self.old self.new) }

        // on refusal
        ensures refused { IfErr result (BiReturnsItem ⟦<T as Both>⟧ self.old item) }
        ensures kept { OnErr result (BiKeeps ⟦<Self as Keyed>⟧.keyed self.old self.new) }
    {
        let hash1 = self.hasher.hash_one(item.key1());
        let hash2 = self.hasher.hash_one(item.key2());
        self.insert_hashed(hash1, hash2, item)
    }

    // Removes and returns the items of one or two slots, in their order. Hashes both keys of each once.
    pub(super) fn take_slots(&mut self, slots: Few<u32>) -> Few<T>
        requires keyed { ⟦<Self as Keyed>⟧.keyed self.old }
        requires there { AreOccupied self.old (values_of slots) }
        requires each_once { IsDistinct nat_eq (values_of slots) }
        requires at_most_two { length (values_of slots) ≤ 2 }

        // what is removed
        ensures items { values_of result ≡ items_at self.old (values_of slots) }
        ensures others { self.new.items ≡ items_beside self.old (values_of slots) }
        ensures vacant { self.new.vacant ≡ self.old.vacant + length (values_of result) }

        // room
        ensures room { 0 < self.new.spare }
        ensures capacity { self.new.capacity ≡ self.old.capacity }
        ensures limit { self.new.limit ≡ self.old.limit }

        // what stays
        ensures stays { BiStays ⟦<Self as Keyed>⟧.keyed self.old self.new }
    {
        match slots {
            Few::One(slot) => Few::One(self.take_slot(slot)),
            Few::Two(one, other) => {
                let first = self.take_slot(one);
                Few::Two(first, self.take_slot(other))
            }
            Few::Three(_, _, _) => unreachable!(),
        }
    }

    // Inserts the item in place of those of one or two slots, which it returns. Does not allocate.
    pub(super) fn replace_slots(&mut self, slots: Few<u32>, item: T) -> Few<T>
        requires keyed { ⟦<Self as Keyed>⟧.keyed self.old }
        requires there { AreOccupied self.old (values_of slots) }
        requires each_once { IsDistinct nat_eq (values_of slots) }
        requires at_most_two { length (values_of slots) ≤ 2 }
        requires absent { MeetsNoneBeside ⟦<T as Both>⟧ item self.old (values_of slots) }

        // what is replaced
        ensures items { values_of result ≡ items_at self.old (values_of slots) }
        ensures put { AddsItem item (items_beside self.old (values_of slots)) self.new.items }
        ensures slots { HaveSlots self.new.slots self.new.items }
        ensures vacant { self.new.vacant + 1 ≡ self.old.vacant + length (values_of result) }

        // what stays
        ensures capacity { self.new.capacity ≡ self.old.capacity }
        ensures limit { self.new.limit ≡ self.old.limit }
        ensures stays { BiStays ⟦<Self as Keyed>⟧.keyed self.old self.new }
    {
        let hash1 = self.hasher.hash_one(item.key1());
        let hash2 = self.hasher.hash_one(item.key2());
        let back = self.take_slots(slots);
        self.insert_reserved(hash1, hash2, item);
        back
    }
}
