//! Removal by key: one descent that searches each node by halves, and rebalances on the way back.
ghost use Rattle.std.specs.Prelude.{◌≡◌, ◌+◌, ◌*◌, ◌^◌, ◌<◌, ◌≤◌, length, slice_index, IfNone};
ghost use Rattle.iddqd_store.specs.Counting.{CountsAtMost};
ghost use Rattle.iddqd_ord_index.specs.Changes.{GivesBack, IsSameOrOneLess};
ghost use Rattle.iddqd_ord_index.specs.Listed.{AreOccupied};
ghost use Rattle.iddqd_ord_index.specs.NodeRemoval.{GivesBackIn, LosesEqual, LosesOwn};
ghost use Rattle.iddqd_ord_index.specs.Nodes.{below, slots_of, AreBranches};
ghost use Rattle.iddqd_ord_index.specs.Shape.{levels, IsDense, IsForked};
ghost use Rattle.iddqd_ord_index.specs.Standing.{StandsMonotone};

use super::remove::rebalance;
use super::{Branches, Node};
use crate::tree::pool::BlockPool;
use crate::tree::search::search;
use crate::tree::slots::Slots;
use iddqd_store::{Comparable, IdOrdItem, ItemStore, Steps};

// Removes the i-th own slot of a node and returns it. The last slot of the i-th branch takes its place.
fn remove_own(slots: &mut Slots, branches: &mut Branches, i: usize, pool: &mut BlockPool) -> u32
    requires branches { AreBranches branches.old }
    requires forked { IsForked (below branches.old) slots.old.items }
    requires inner { 0 < length (below branches.old) }
    requires in_bounds { i < length slots.old.items }
    requires room { length (slots_of branches.old slots.old) < 2 ^ 32 }

    // the branches
    ensures branches { AreBranches branches.new }
    ensures forked { IsForked (below branches.new) slots.new.items }
    ensures levels { levels (below branches.new) ≡ levels (below branches.old) }

    // the slots
    ensures value { result ≡ slice_index slots.old.items i }
    ensures slots { LosesOwn i branches.old slots.old branches.new slots.new }
    ensures width { IsSameOrOneLess (length slots.old.items) (length slots.new.items) }

    // the unused blocks
    ensures kept { pool.old.count ≤ pool.new.count }
    ensures given { GivesBackIn branches.old slots.old branches.new slots.new pool.old pool.new }
    ensures pool { (pool.new.wanted ≡ pool.old.wanted) × (pool.new.room ≡ pool.old.room) }
{
    let len = branches.count(i);
    let node = branches.block_mut().nodes[i].as_mut().unwrap();
    let last = node.remove(len - 1, pool);
    let width = node.width();
    branches.set_count(i, len - 1);
    let slot = slots.replace(i, last);
    rebalance(slots, branches, i, width, pool);
    slot
}

impl Node {
    // Removes the slot whose item has the query's key and returns it, or returns `None` and changes nothing. It makes at most
    // four comparisons a level, and adds up no positions.
    pub(crate) fn remove_by_key<T: IdOrdItem, Q: Comparable<T::Key>>(
        &mut self,
        store: &ItemStore<T>,
        query: &Q,
        pool: &mut BlockPool,
        steps: &mut Steps,
    ) -> Option<u32>
        requires occupied { AreOccupied store.now self.old.slots }
        requires monotone { StandsMonotone T.key (Q.compare query.now) store.now self.old.slots }
        requires room { length self.old.slots < 2 ^ 32 }
        requires some { 1 < self.old.height → 0 < self.old.width }

        // the node
        ensures slots { LosesEqual T.key (Q.compare query.now) store.now self.old result self.new }
        ensures unchanged { IfNone result (self.new ≡ self.old) }
        ensures height { self.new.height ≡ self.old.height }
        ensures width { self.old.width ≤ self.new.width + 1 }
        ensures dense { IsDense self.new }

        // the unused blocks
        ensures kept { pool.old.count ≤ pool.new.count }
        ensures gives_back { GivesBack self.old self.new pool.old pool.new }
        ensures pool { (pool.new.wanted ≡ pool.old.wanted) × (pool.new.room ≡ pool.old.room) }

        // what it costs
        ensures steps { CountsAtMost steps.old steps.new (4 * self.old.height) }
    {
        let place = search(self.slots.as_slice(), store, query, steps);
        if self.branches.is_empty() {
            return match place {
                Ok(i) => Some(self.slots.remove(i)),
                Err(_) => None,
            };
        }
        let i = match place {
            Ok(i) => return Some(remove_own(&mut self.slots, &mut self.branches, i, pool)),
            Err(i) => i,
        };
        let len = self.branches.count(i);
        // The branch stays in its cell, so that nothing is written if there is no such slot.
        let node = self.branches.block_mut().nodes[i].as_mut().unwrap();
        let slot = node.remove_by_key(store, query, pool, steps)?;
        let width = node.width();
        self.branches.set_count(i, len - 1);
        rebalance(&mut self.slots, &mut self.branches, i, width, pool);
        Some(slot)
    }
}
