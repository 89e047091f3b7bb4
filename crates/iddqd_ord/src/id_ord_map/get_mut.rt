//! Lending one item for writing, and what lends it.
ghost use Rattle.std.specs.Prelude.{◌≡◌, ◌<◌, ◌≤◌, length, IfNone, IfSome, Some};
ghost use Rattle.std.specs.Borrow.{sem};
ghost use Rattle.iddqd_store.specs.Contents.{Ascends, IsAbsent};

use super::{IdOrdMap, RefMut};
use iddqd_store::{Comparable, IdOrdItem, Steps};

impl<T: IdOrdItem> IdOrdMap<T> {
    ghost use Rattle.iddqd_ord.specs.Guard.{GuardFinds, GuardKeeps, GuardKeepsAkin, GuardOverwrites, GuardReadsAt, GuardWritesAt, rests_at_none, guard_lender, lent_map};

    /// Returns a guard for the item that the query finds, or `None`, and then nothing has changed. The guard has to be
    /// spent. It makes as many comparisons as `get`. Does not allocate.
    pub fn get_mut<Q: Comparable<T::Key>>(&mut self, query: &Q) -> Option<RefMut<'_, T>>
        requires keyed { Ascends T.key T.Key.cmp self.old.items }
        ensures* unchanged_at_none { sem 𝓛 (rests_at_none T.row self.entry result) }
        ensures absent { IfNone result (IsAbsent T.key (Q.equivalent query.now) self.old.items) }

        // if an item is found
        ensures same_map { IfSome result (λ r. guard_lender r ≡ self.entry.ghost_name) }
        ensures lent { IfSome result (λ r. lent_map r ≡ self.old) }
        ensures found { IfSome result (GuardFinds T.key (Q.equivalent query.now)) }

        // after a write
        ensures written { IfSome result (GuardOverwrites T.key (Q.equivalent query.now) self.old) }
        ensures keyed { IfSome result (GuardKeeps T.key T.Key.cmp) }
        ensures keyed_akin { IfSome result (GuardKeepsAkin T.key T.Key.cmp T.Key.eq) }
    {
        let slot = self.index.get(&self.store, query, &mut Steps::new())?;
        Some(RefMut {
            map: self,
            slot,
            spent: false,
        })
    }

    /// Returns a guard for the item at the position in the order of the keys. If the map has no item there, it returns
    /// `None`, and nothing has changed. The guard has to be spent. Compares no keys. Does not allocate.
    pub fn get_index_mut(&mut self, index: usize) -> Option<RefMut<'_, T>>
        requires keyed { Ascends T.key T.Key.cmp self.old.items }
        ensures* unchanged_at_none { sem 𝓛 (rests_at_none T.row self.entry result) }
        ensures absent { IfNone result (length self.old.items ≤ index) }

        // if there is an item
        ensures same_map { IfSome result (λ r. guard_lender r ≡ self.entry.ghost_name) }
        ensures lent { IfSome result (λ r. lent_map r ≡ self.old) }
        ensures found { IfSome result (GuardReadsAt index) }

        // after a write
        ensures written { IfSome result (GuardWritesAt index) }
        ensures keyed { IfSome result (GuardKeeps T.key T.Key.cmp) }
        ensures keyed_akin { IfSome result (GuardKeepsAkin T.key T.Key.cmp T.Key.eq) }
    {
        if index >= self.len() {
            return None;
        }
        let place = self.index.place(index);
        let slot = self.slot_at(place);
        Some(RefMut {
            map: self,
            slot,
            spent: false,
        })
    }
}
