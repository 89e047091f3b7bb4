//! The insertion that all calls of an entry share.
ghost use Rattle.std.specs.Prelude.{IfErr, IfOk, OnErr, OnOk};
ghost use Rattle.iddqd_store.specs.Contents.{IsAbsent};

use crate::id_hash_map::{IdHashMap, Keyed};
use iddqd_store::{IdHashItem, Refused};
use std::hash::BuildHasher;

impl<T: IdHashItem, S: BuildHasher> IdHashMap<T, S> {
    ghost use Rattle.iddqd_hash.specs.HashMap.{HashReturnsItem, HashInserts, HashKeeps, IsInsertedAt};

    // Inserts an item whose key no other has, and returns its slot and its hash.
    pub(super) fn insert_absent(&mut self, item: T) -> Result<(u32, u64), Refused<T>>
        requires keyed { ⟦<Self as Keyed>⟧.keyed self.old }
        requires absent { IsAbsent T.key (T.Key.eq (T.key item)) self.old.items }

        // on success
        ensures inserted { OnOk result (HashInserts ⟦<Self as Keyed>⟧.keyed item self.old self.new) }
        ensures there { IfOk result (λ at. IsInsertedAt item at.1 self.old self.new at.0) }

        // on refusal
        ensures kept { OnErr result (HashKeeps ⟦<Self as Keyed>⟧.keyed self.old self.new) }
        ensures refused { IfErr result (HashReturnsItem T.key T.Key.eq self.old item) }
    {
        let hash = self.hasher.hash_one(item.key());
        let slot = self.insert_hashed(hash, item)?;
        Ok((slot, hash))
    }
}
