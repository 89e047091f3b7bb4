//! Insertions. Each reports an item of equal key first, then a full map, then refused memory. After any of these no
//! item has changed.
ghost use Rattle.std.specs.Prelude.{◌≡◌, IfOk, IfErr, OnOk, OnErr};
ghost use Rattle.std.specs.Borrow.{sem};
ghost use Rattle.iddqd_store.specs.Contents.{IsAbsent};
ghost use Rattle.iddqd_store.specs.Refusal.{OnRefused};

use super::{IdHashMap, Keyed};
use iddqd_hash_parts::{insert_in_both, reserve_one};
use iddqd_store::{DuplicateItem, Few, IdHashItem, InsertError, Refused};
use std::hash::BuildHasher;
use std::mem;

impl<T: IdHashItem, S: BuildHasher> IdHashMap<T, S> {
    ghost use Rattle.iddqd_hash.specs.HashMap.{HashReturnsItem, HashInserts, HashKeeps, HashOverwrites, HashStays, IsInsertedAt, RefusesItem, map_after_insertion, lends_nothing};

    /// Inserts the item if no item has an equal key. A duplicate is returned beside a reference to the existing item.
    /// That does not allocate, and the map is as it was. If the map is full or memory is refused, the item is returned,
    /// and the items are as they were. If `spare` is above 0, an item that is no duplicate is never refused. Allocates
    /// only if `spare` is 0. Hashes the key once and searches once. If the index grows, it reads each of its pairs. In
    /// a caller's proof, match the error by a name, as in `Err(_error)`. `Err(_)` in the last `match` of a function
    /// leaves nothing known of the map, if the items own memory.
    pub fn insert_unique(&mut self, item: T) -> Result<&mut (), InsertError<'_, T>>
        requires keyed { ⟦<Self as Keyed>⟧.keyed self.old }
        ensures* after { sem 𝓛 (map_after_insertion S.row T.row ⟦<Self as Keyed>⟧ self.entry result item) }
        ensures absent { OnOk result (IsAbsent T.key (T.Key.eq (T.key item)) self.old.items) }
        ensures refused { IfErr result (RefusesItem T.key T.Key.eq self.old item) }
        ensures no_spare { IfErr result (OnRefused (self.old.spare ≡ 0)) }
    {
        let hash = self.hasher.hash_one(item.key());
        if let Some(slot) = self.slot_of_equal(hash, &item) {
            let existing = Few::One(self.item_in_slot(slot));
            return Err(InsertError::Duplicate(DuplicateItem::internal_new(item, existing)));
        }
        match self.insert_hashed(hash, item) {
            Ok(_) => Ok(&mut self.done),
            Err(refused) => Err(InsertError::Refused(refused)),
        }
    }

    /// Inserts the item, or replaces the item of an equal key, which it returns. The whole item is replaced, its key's
    /// spelling too. That does not allocate and is never refused. If no item has an equal key, it inserts the item as
    /// `insert_unique` does and returns `None`. If the map is full or memory is refused, the item is returned, and the
    /// items are as they were. Hashes the key once and searches once.
    pub fn insert_overwrite(&mut self, item: T) -> Result<Option<T>, Refused<T>>
        requires keyed { ⟦<Self as Keyed>⟧.keyed self.old }

        // on success
        ensures put { IfOk result (HashOverwrites T.key T.Key.eq item self.old self.new) }

        // on refusal
        ensures refused { IfErr result (HashReturnsItem T.key T.Key.eq self.old item) }
        ensures kept { OnErr result (HashKeeps ⟦<Self as Keyed>⟧.keyed self.old self.new) }

        // either way
        ensures stays { HashStays ⟦<Self as Keyed>⟧.keyed self.old self.new }
    {
        let hash = self.hasher.hash_one(item.key());
        match self.slot_of_equal(hash, &item) {
            Some(slot) => Ok(Some(mem::replace(self.item_in_slot_mut(slot), item))),
            None => {
                self.insert_hashed(hash, item)?;
                Ok(None)
            }
        }
    }

    /// Returns a reference to nothing of the map. A call of another crate returns it if it returns a reference in its
    /// error, as `insert_unique` does.
    #[doc(hidden)]
    pub fn lend_nothing(&mut self) -> &mut ()
        ensures* lends { sem 𝓛 (lends_nothing S.row T.row self.entry result) }
    {
        &mut self.done
    }

    // Inserts an item whose key no other has, and returns its slot.
    pub(super) fn insert_hashed(&mut self, hash: u64, item: T) -> Result<u32, Refused<T>>
        requires keyed { ⟦<Self as Keyed>⟧.keyed self.old }
        requires absent { IsAbsent T.key (T.Key.eq (T.key item)) self.old.items }
        requires hash { hash ≡ ⟦<Self as Keyed>⟧.hash self.old (T.Key.hash_input (T.key item)) }

        // on success
        ensures inserted { OnOk result (HashInserts ⟦<Self as Keyed>⟧.keyed item self.old self.new) }
        ensures there { IfOk result (IsInsertedAt item hash self.old self.new) }

        // on refusal
        ensures refused { IfErr result (HashReturnsItem T.key T.Key.eq self.old item) }
        ensures kept { OnErr result (HashKeeps ⟦<Self as Keyed>⟧.keyed self.old self.new) }
    {
        if let Err(error) = reserve_one(&mut self.store, &mut self.index) {
            return Err(Refused { item, error });
        }
        Ok(insert_in_both(&mut self.store, &mut self.index, hash, item))
    }
}
