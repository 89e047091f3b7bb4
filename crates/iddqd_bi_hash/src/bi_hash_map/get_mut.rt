//! Lending one item for writing, and what lends it.
ghost use Rattle.std.specs.Prelude.{◌≡◌, IfNone, IfSome, Some};
ghost use Rattle.std.specs.Borrow.{sem};
ghost use Rattle.iddqd_store.specs.Contents.{IsAbsent};
ghost use Rattle.iddqd_bi_hash.specs.TwoKeys.{LacksByBoth};

use super::{BiHashMap, Keyed, RefMut};
use crate::items::BiHashItem;
use iddqd_store::Equivalent;
use std::hash::{BuildHasher, Hash};

impl<T: BiHashItem, S: BuildHasher> BiHashMap<T, S> {
    ghost use Rattle.iddqd_hash_parts.specs.HashItems.{HashesAsKeys};
    ghost use Rattle.iddqd_bi_hash.specs.BiHashMap.{SpareFits};
    ghost use Rattle.iddqd_bi_hash.specs.Guard.{GuardFinds, GuardFindsByBoth, GuardKeeps, GuardKeepsAkin, GuardOverwrites as Overwrites, GuardReads, guard_lender, lent_map, rests_at_none};

    /// Returns a guard for the item that the query finds by the first key, or `None`, and then nothing has changed. The
    /// guard has to be spent. Hashes the query once, and makes as many comparisons as `get1`. Does not allocate.
    pub fn get1_mut<Q: Hash + Equivalent<T::K1>>(&mut self, query: &Q) -> Option<RefMut<'_, T, S>>
        requires keyed { ⟦<Self as Keyed>⟧.keyed self.old }
        requires hashes { HashesAsKeys Q.equivalent Q.hash_input T.K1.hash_input query.now }

        // if an item is found
        ensures same_map { IfSome result (λ r. guard_lender r ≡ self.entry.ghost_name) }
        ensures lent { IfSome result (λ r. lent_map r ≡ self.old) }
        ensures found { IfSome result (GuardFinds T.key1 (Q.equivalent query.now)) }
        ensures written { IfSome result (Overwrites T.key1 (Q.equivalent query.now) self.old) }
        ensures read1 { IfSome result (GuardReads T.key1 T.K1.eq) }
        ensures read2 { IfSome result (GuardReads T.key2 T.K2.eq) }
        ensures keyed { IfSome result (GuardKeeps T.key1 T.key2 ⟦<Self as Keyed>⟧.keyed) }
        ensures keyed_akin { IfSome result (GuardKeepsAkin ⟦<Self as Keyed>⟧) }

        // if none is
        ensures* unchanged_at_none { sem 𝓛 (rests_at_none S.row T.row self.entry result) }
        ensures absent { IfNone result (IsAbsent T.key1 (Q.equivalent query.now) self.old.items) }

        // room
        ensures spare_fits { SpareFits self.old }
    {
        let hash = self.hasher.hash_one(query);
        let slot = self.slot_by_key1(hash, query)?;
        Some(RefMut {
            map: self,
            slot,
            spent: false,
        })
    }

    /// Returns a guard for the item that the query finds by the second key, or `None`, and then nothing has changed.
    /// The guard has to be spent. Hashes the query once, and makes as many comparisons as `get2`. Does not allocate.
    pub fn get2_mut<Q: Hash + Equivalent<T::K2>>(&mut self, query: &Q) -> Option<RefMut<'_, T, S>>
        requires keyed { ⟦<Self as Keyed>⟧.keyed self.old }
        requires hashes { HashesAsKeys Q.equivalent Q.hash_input T.K2.hash_input query.now }

        // if an item is found
        ensures same_map { IfSome result (λ r. guard_lender r ≡ self.entry.ghost_name) }
        ensures lent { IfSome result (λ r. lent_map r ≡ self.old) }
        ensures found { IfSome result (GuardFinds T.key2 (Q.equivalent query.now)) }
        ensures written { IfSome result (Overwrites T.key2 (Q.equivalent query.now) self.old) }
        ensures read1 { IfSome result (GuardReads T.key1 T.K1.eq) }
        ensures read2 { IfSome result (GuardReads T.key2 T.K2.eq) }
        ensures keyed { IfSome result (GuardKeeps T.key1 T.key2 ⟦<Self as Keyed>⟧.keyed) }
        ensures keyed_akin { IfSome result (GuardKeepsAkin ⟦<Self as Keyed>⟧) }

        // if none is
        ensures* unchanged_at_none { sem 𝓛 (rests_at_none S.row T.row self.entry result) }
        ensures absent { IfNone result (IsAbsent T.key2 (Q.equivalent query.now) self.old.items) }

        // room
        ensures spare_fits { SpareFits self.old }
    {
        let hash = self.hasher.hash_one(query);
        let slot = self.slot_by_key2(hash, query)?;
        Some(RefMut {
            map: self,
            slot,
            spent: false,
        })
    }

    /// Returns a guard for the item that both queries find, or `None`, and then nothing has changed. The guard has to
    /// be spent. Hashes the first query once, and makes as many comparisons as `get_unique`. Does not allocate.
    pub fn get_mut_unique<Q: Hash + Equivalent<T::K1>, R: Equivalent<T::K2>>(
        &mut self,
        query1: &Q,
        query2: &R,
    ) -> Option<RefMut<'_, T, S>>
        requires keyed { ⟦<Self as Keyed>⟧.keyed self.old }
        requires hashes { HashesAsKeys Q.equivalent Q.hash_input T.K1.hash_input query1.now }

        // if an item is found
        ensures same_map { IfSome result (λ r. guard_lender r ≡ self.entry.ghost_name) }
        ensures lent { IfSome result (λ r. lent_map r ≡ self.old) }
        ensures found { IfSome result (GuardFindsByBoth T.key1 T.key2 (Q.equivalent query1.now) (R.equivalent query2.now)) }
        ensures written { IfSome result (Overwrites T.key1 (Q.equivalent query1.now) self.old) }
        ensures read1 { IfSome result (GuardReads T.key1 T.K1.eq) }
        ensures read2 { IfSome result (GuardReads T.key2 T.K2.eq) }
        ensures keyed { IfSome result (GuardKeeps T.key1 T.key2 ⟦<Self as Keyed>⟧.keyed) }
        ensures keyed_akin { IfSome result (GuardKeepsAkin ⟦<Self as Keyed>⟧) }

        // if none is
        ensures* unchanged_at_none { sem 𝓛 (rests_at_none S.row T.row self.entry result) }
        ensures absent { IfNone result (LacksByBoth T.key1 T.key2 (Q.equivalent query1.now) (R.equivalent query2.now) self.old.items) }

        // room
        ensures spare_fits { SpareFits self.old }
    {
        let hash = self.hasher.hash_one(query1);
        let slot = self.slot_by_both(hash, query1, query2)?;
        Some(RefMut {
            map: self,
            slot,
            spent: false,
        })
    }
}
