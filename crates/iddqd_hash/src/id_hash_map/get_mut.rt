//! Lending one item for writing, and what lends it.
ghost use Rattle.std.specs.Prelude.{◌≡◌, IfNone, IfSome, Some};
ghost use Rattle.std.specs.Borrow.{sem};
ghost use Rattle.iddqd_store.specs.Contents.{IsAbsent};

use super::{IdHashMap, Keyed, RefMut};
use iddqd_store::{Equivalent, IdHashItem, Steps};
use std::hash::{BuildHasher, Hash};

impl<T: IdHashItem, S: BuildHasher> IdHashMap<T, S> {
    ghost use Rattle.iddqd_hash.specs.Guard.{GuardFinds, GuardKeeps, GuardKeepsAkin, GuardOverwrites, guard_lender, lent_map, rests_at_none};
    ghost use Rattle.iddqd_hash_parts.specs.HashItems.{HashesAsKeys};
    ghost use Rattle.iddqd_hash.specs.HashMap.{SpareFits};

    /// Returns a guard for the item that the query finds, or `None`, and then nothing has changed. The guard has to be
    /// spent. Hashes the query once, and makes as many comparisons as `get`. Does not allocate.
    pub fn get_mut<Q: Hash + Equivalent<T::Key>>(&mut self, query: &Q) -> Option<RefMut<'_, T, S>>
        requires keyed { ⟦<Self as Keyed>⟧.keyed self.old }
        requires hashes { HashesAsKeys Q.equivalent Q.hash_input T.Key.hash_input query.now }

        // if an item is found
        ensures same_map { IfSome result (λ r. guard_lender r ≡ self.entry.ghost_name) }
        ensures lent { IfSome result (λ r. lent_map r ≡ self.old) }
        ensures found { IfSome result (GuardFinds T.key (Q.equivalent query.now)) }
        ensures written { IfSome result (GuardOverwrites T.key (Q.equivalent query.now) self.old) }
        ensures keyed { IfSome result (GuardKeeps T.key ⟦<Self as Keyed>⟧.keyed) }
        ensures keyed_akin { IfSome result (GuardKeepsAkin ⟦<Self as Keyed>⟧) }

        // if none is
        ensures* unchanged_at_none { sem 𝓛 (rests_at_none S.row T.row self.entry result) }
        ensures absent { IfNone result (IsAbsent T.key (Q.equivalent query.now) self.old.items) }

        // room
        ensures spare_fits { SpareFits self.old }
    {
        let hash = self.hasher.hash_one(query);
        let slot = self.slot_by_key(hash, query, &mut Steps::new())?;
        Some(RefMut {
            map: self,
            slot,
            spent: false,
        })
    }
}
