//! Removal by key: a search and the removal of what it finds, in one descent.
ghost use Rattle.std.specs.Prelude.{◌+◌, ◌*◌, length};
ghost use Rattle.iddqd_store.specs.Contents.{Ascends};
ghost use Rattle.iddqd_store.specs.Counting.{CountsAtMost};
ghost use Rattle.iddqd_ord_index.specs.Digits.{digits};
ghost use Rattle.iddqd_ord_index.specs.Listed.{listed_items, AreOccupied};
ghost use Rattle.iddqd_ord_index.specs.Removal.{RemovesSlot};

use super::OrdIndex;
use crate::tree::root;
use iddqd_store::{Comparable, IdOrdItem, ItemStore, Steps};

impl OrdIndex {
    /// Removes the slot whose item has the query's key and returns it. If there is none, it returns `None`, and the
    /// list is as it was. Either way the index is not prepared then. It goes down the tree once, by as many comparisons
    /// as `find`, and does not allocate.
    pub fn remove_by_key<T: IdOrdItem, Q: Comparable<T::Key>>(
        &mut self,
        store: &ItemStore<T>,
        query: &Q,
        steps: &mut Steps,
    ) -> Option<u32>
        requires occupied { AreOccupied store.now self.old.slots }
        requires ascending { Ascends T.key T.Key.cmp (listed_items store.now self.old.slots) }

        // what it leaves
        ensures after { RemovesSlot T.key (Q.compare query.now) store.now self.old result self.new }

        // what it costs
        ensures steps { CountsAtMost steps.old steps.new (4 + 2 * digits (length self.old.slots)) }
    {
        self.prepared = false;
        self.cache.clear();
        let (slot, levels) = root::remove_by_key(
            &mut self.root,
            self.levels,
            store,
            query,
            &mut self.pool,
            steps,
        );
        self.levels = levels;
        let slot = slot?;
        self.len -= 1;
        Some(slot)
    }
}
