//! An insertion that replaces the items that have one of the keys.
ghost use Rattle.std.specs.Prelude.{◌≡◌, ◌+◌, ◌<◌, ◌++◌, length, IfOk, IfErr, IfNone, IfSome, OnErr, OnSome};
ghost use Rattle.iddqd_store.specs.Errors.{values_of};
ghost use Rattle.iddqd_hash_parts.specs.SlotsFound.{values_if_any};
ghost use Rattle.iddqd_bi_hash.specs.TwoKeys.{as_list};

use super::{BiHashMap, Keyed};
use crate::both::Both;
use crate::items::BiHashItem;
use iddqd_store::{Few, Refused};
use std::hash::BuildHasher;

// One or two values, or none.
fn few_from_options<T>(one: Option<T>, other: Option<T>) -> Option<Few<T>>
    ensures { values_if_any result ≡ as_list one ++ as_list other }
{
    match (one, other) {
        (None, None) => None,
        (None, Some(y)) => Some(Few::One(y)),
        (Some(x), None) => Some(Few::One(x)),
        (Some(x), Some(y)) => Some(Few::Two(x, y)),
    }
}

impl<T: BiHashItem, S: BuildHasher> BiHashMap<T, S> {
    ghost use Rattle.iddqd_bi_hash.specs.BiHashMap.{AreHashes, BiReturnsItem, BiKeeps, BiOverwrites, BiStays, Displaces, KeepsUnmet, LeavesVacant};

    /// Inserts the item, and removes and returns the one or two items that have one of its keys, that of the first key
    /// first. If there is one, this does not allocate and is never refused. If there is none, it inserts the item as
    /// `insert_unique` does and returns `None`. If the map is full or memory is refused, the item is returned, and the
    /// items are as they were. Hashes each key once, and searches once by each. Hashes the other key of each removed
    /// item once.
    pub fn insert_overwrite(&mut self, item: T) -> Result<Option<Few<T>>, Refused<T>>
        requires keyed { ⟦<Self as Keyed>⟧.keyed self.old }

        // on success
        ensures put { IfOk result (BiOverwrites ⟦<T as Both>⟧ item self.old self.new) }

        // on refusal
        ensures refused { IfErr result (BiReturnsItem ⟦<T as Both>⟧ self.old item) }
        ensures kept { OnErr result (BiKeeps ⟦<Self as Keyed>⟧.keyed self.old self.new) }

        // either way
        ensures stays { BiStays ⟦<Self as Keyed>⟧.keyed self.old self.new }
    {
        let hash1 = self.hasher.hash_one(item.key1());
        let hash2 = self.hasher.hash_one(item.key2());
        match self.remove_met(hash1, hash2, &item) {
            None => {
                self.insert_hashed(hash1, hash2, item)?;
                Ok(None)
            }
            Some(back) => {
                self.insert_reserved(hash1, hash2, item);
                Ok(Some(back))
            }
        }
    }

    // Removes and returns the items that have one of the item's keys, that of the first key first. The hashes are those
    // of the item's keys.
    pub(super) fn remove_met(&mut self, hash1: u64, hash2: u64, item: &T) -> Option<Few<T>>
        requires keyed { ⟦<Self as Keyed>⟧.keyed self.old }
        requires hashes { AreHashes ⟦<T as Both>⟧ ⟦<Self as Keyed>⟧ self.old item.now hash1 hash2 }

        // what is removed
        ensures displaced { Displaces ⟦<T as Both>⟧ item.now self.old.items result }
        ensures items { KeepsUnmet ⟦<T as Both>⟧ item.now self.old self.new }
        ensures unchanged { IfNone result (self.new ≡ self.old) }
        ensures vacant { IfSome result (LeavesVacant self.old self.new) }

        // room
        ensures room { OnSome result (0 < self.new.spare) }
        ensures capacity { self.new.capacity ≡ self.old.capacity }
        ensures limit { self.new.limit ≡ self.old.limit }

        // what stays
        ensures stays { BiStays ⟦<Self as Keyed>⟧.keyed self.old self.new }
    {
        let one = self.remove_hashed1(hash1, item.key1());
        let other = self.remove_hashed2(hash2, item.key2());
        few_from_options(one, other)
    }
}
