//! Insertions of items with new keys. Each looks for the items that have one of the keys first, then at the limit, then
//! asks for memory. After a refusal no item has changed.
ghost use Rattle.std.specs.Prelude.{◌≡◌, ◌<◌, IfErr, IfOk, OnOk, OnErr};
ghost use Rattle.std.specs.Borrow.{sem};
ghost use Rattle.iddqd_store.specs.Contents.{IsAbsent};
ghost use Rattle.iddqd_store.specs.Refusal.{OnRefused};

use super::store_and_indexes::{insert_in_all, reserve_one};
use super::{BiHashMap, Keyed};
use crate::both::Both;
use crate::items::BiHashItem;
use iddqd_store::{DuplicateItem, InsertError, Refused};
use std::hash::BuildHasher;

impl<T: BiHashItem, S: BuildHasher> BiHashMap<T, S> {
    ghost use Rattle.iddqd_bi_hash.specs.BiHashMap.{AreHashes, BiReturnsItem, BiInserts, BiKeeps, HasNewKeys, IsInsertedAt, RefusesItem, map_after_insertion};

    /// Inserts the item if no item has one of its keys. Duplicates do not allocate, and the map is as it was. The error
    /// has references to the one or two items with a key of it, in the order of their slots. If the map is full or
    /// memory is refused, the item is returned, and the items are as they were. If `spare` is above 0, an item that is
    /// no duplicate is never refused. Allocates only if `spare` is 0. Hashes each key once and searches once by each.
    /// If an index grows, it reads each of its pairs. In a caller's proof, match the error by a name, as in
    /// `Err(_error)`. `Err(_)` in the last `match` of a function leaves nothing known of the map, if the items own
    /// memory.
    pub fn insert_unique(&mut self, item: T) -> Result<&mut (), InsertError<'_, T>>
        requires keyed { ⟦<Self as Keyed>⟧.keyed self.old }

        // once the result is dropped
        ensures* after { sem 𝓛 (map_after_insertion S.row T.row ⟦<Self as Keyed>⟧ self.entry result item) }

        // on success
        ensures absent1 { OnOk result (IsAbsent T.key1 (T.K1.eq (T.key1 item)) self.old.items) }
        ensures absent2 { OnOk result (IsAbsent T.key2 (T.K2.eq (T.key2 item)) self.old.items) }

        // on refusal
        ensures refused { IfErr result (RefusesItem ⟦<T as Both>⟧ self.old item) }
        ensures no_spare { IfErr result (OnRefused (self.old.spare ≡ 0)) }
    {
        let hash1 = self.hasher.hash_one(item.key1());
        let hash2 = self.hasher.hash_one(item.key2());
        if let Some(slots) = self.slots_met(hash1, hash2, &item) {
            let existing = self.items_in_slots(slots);
            return Err(InsertError::Duplicate(DuplicateItem::internal_new(item, existing)));
        }
        match self.insert_hashed(hash1, hash2, item) {
            Ok(_) => Ok(&mut self.done),
            Err(refused) => Err(InsertError::Refused(refused)),
        }
    }

    // Inserts an item whose keys no other has, and returns its slot.
    pub(super) fn insert_hashed(
        &mut self,
        hash1: u64,
        hash2: u64,
        item: T,
    ) -> Result<u32, Refused<T>>
        requires keyed { ⟦<Self as Keyed>⟧.keyed self.old }
        requires absent { HasNewKeys ⟦<T as Both>⟧ item self.old.items }
        requires hashes { AreHashes ⟦<T as Both>⟧ ⟦<Self as Keyed>⟧ self.old item hash1 hash2 }

        // on success
        ensures inserted { OnOk result (BiInserts ⟦<Self as Keyed>⟧.keyed item self.old self.new) }
        ensures there { IfOk result (IsInsertedAt item self.old self.new) }

        // on refusal
        ensures refused { IfErr result (BiReturnsItem ⟦<T as Both>⟧ self.old item) }
        ensures kept { OnErr result (BiKeeps ⟦<Self as Keyed>⟧.keyed self.old self.new) }
    {
        if let Err(error) = reserve_one(&mut self.store, &mut self.index1, &mut self.index2) {
            return Err(Refused { item, error });
        }
        Ok(self.insert_reserved(hash1, hash2, item))
    }

    // As `insert_hashed`, if there is room. Does not allocate.
    pub(super) fn insert_reserved(&mut self, hash1: u64, hash2: u64, item: T) -> u32
        requires keyed { ⟦<Self as Keyed>⟧.keyed self.old }
        requires absent { HasNewKeys ⟦<T as Both>⟧ item self.old.items }
        requires hashes { AreHashes ⟦<T as Both>⟧ ⟦<Self as Keyed>⟧ self.old item hash1 hash2 }
        requires room { 0 < self.old.spare }

        // afterwards
        ensures inserted { BiInserts ⟦<Self as Keyed>⟧.keyed item self.old self.new }
        ensures there { IsInsertedAt item self.old self.new result }
        ensures capacity { self.new.capacity ≡ self.old.capacity }
    {
        insert_in_all(
            &mut self.store,
            &mut self.index1,
            &mut self.index2,
            hash1,
            hash2,
            item,
        )
    }
}
