//! Removal: a branch that is a slot short is rebalanced with a neighbour.
ghost use Rattle.std.specs.Prelude.{◌≡◌, ◌+◌, ◌-◌, ◌^◌, ◌<◌, ◌≤◌, length, remove, slice_index, slice_set, slice_index_or, IfSome, IsSome};
ghost use Rattle.iddqd_ord_index.specs.Changes.{GivesBack, IsReplaced, IsSameOrOneLess, IsShorter};
ghost use Rattle.iddqd_ord_index.specs.Neighbours.{AreNeighbours, IsNear, MayGiveBack};
ghost use Rattle.iddqd_ord_index.specs.Nodes.{below, slots_of, AreBranches, IsBare};
ghost use Rattle.iddqd_ord_index.specs.Shape.{levels, lists, starts, unused, IsDense, IsForked};

use super::{Block, Branches, LEAST_SLOTS, Node};
use crate::tree::pool::BlockPool;
use crate::tree::slots::{MOST_SLOTS, Slots};

// Rebalances the j-th branch and the next, of which one is a slot short, where they stand.
fn rebalance_at(slots: &mut Slots, branches: &mut Branches, j: usize, pool: &mut BlockPool)
    requires branches { AreBranches branches.old }
    requires pair { AreNeighbours (below branches.old) slots.old.items j }

    // the branches
    ensures branches { AreBranches branches.new }
    ensures forked { IsForked (below branches.new) slots.new.items }
    ensures levels { levels (below branches.new) ≡ levels (below branches.old) }

    // the slots
    ensures slots { slots_of branches.new slots.new ≡ slots_of branches.old slots.old }
    ensures width { IsSameOrOneLess (length slots.old.items) (length slots.new.items) }

    // the unused blocks
    ensures kept { length slots.new.items ≡ length slots.old.items → pool.new ≡ pool.old }
    ensures gives_back { IsShorter slots.old slots.new → MayGiveBack (levels (below branches.old)) pool.old pool.new }
{
    let middle = slots.as_slice()[j];
    if branches.get(j).width() + branches.get(j + 1).width() < MOST_SLOTS {
        slots.remove(j);
        let block = branches.merge_at(j, middle);
        pool.give_back(block);
        return;
    }
    let top = branches.shift_at(j, middle);
    slots.replace(j, top);
}

// Rebalances the i-th branch, whose node has this many slots of its own, if it is one short.
pub(super) fn rebalance(
    slots: &mut Slots,
    branches: &mut Branches,
    i: usize,
    width: usize,
    pool: &mut BlockPool,
)
    requires branches { AreBranches branches.old }
    requires near { IsNear (below branches.old) slots.old.items i }
    requires width { width ≡ (slice_index_or (below branches.old) i unused).width }
    requires room { starts (lists (below branches.old)) ≤ 2 ^ 32 }

    // the branches
    ensures branches { AreBranches branches.new }
    ensures forked { IsForked (below branches.new) slots.new.items }
    ensures levels { levels (below branches.new) ≡ levels (below branches.old) }

    // the slots
    ensures slots { slots_of branches.new slots.new ≡ slots_of branches.old slots.old }
    ensures width { IsSameOrOneLess (length slots.old.items) (length slots.new.items) }

    // the unused blocks
    ensures kept { length slots.new.items ≡ length slots.old.items → pool.new ≡ pool.old }
    ensures gives_back { IsShorter slots.old slots.new → MayGiveBack (levels (below branches.old)) pool.old pool.new }
    ensures short { IsShorter slots.old slots.new → width < LEAST_SLOTS }
{
    if width >= LEAST_SLOTS {
        return;
    }
    let j = i.min(slots.len() - 1);
    rebalance_at(slots, branches, j, pool);
}

// Returns the slot that leaves its node if position `rest` of the i-th branch, which had `len` slots, is removed.
// It is the one from that branch, or the own slot that this one replaces, if `rest` is behind the branch.
fn replace_own(slots: &mut Slots, i: usize, rest: u32, len: u32, taken: u32) -> u32
    requires within { rest ≤ len }
    requires own { rest ≡ len → i < length slots.old.items }
    ensures below { rest < len → (result ≡ taken) × (slots.new.items ≡ slots.old.items) }
    ensures own { rest ≡ len → IsReplaced slots.old.items i taken result slots.new.items }
    ensures len { length slots.new.items ≡ length slots.old.items }
{
    if rest < len {
        return taken;
    }
    slots.replace(i, taken)
}

impl Node {
    // Removes the slot at the position. The node's own width may fall by one, and so below what a branch needs. If
    // it falls, two nodes have merged at each level below. Each merge of inner nodes has given a block back, as long
    // as it is wanted.
    pub(crate) fn remove(&mut self, at: u32, pool: &mut BlockPool) -> u32
        requires place { at < length self.old.slots }
        requires room { length self.old.slots < 2 ^ 32 }
        requires some { 1 < self.old.height → 0 < self.old.width }

        // the node
        ensures value { result ≡ slice_index self.old.slots at }
        ensures slots { self.new.slots ≡ remove self.old.slots at }
        ensures height { self.new.height ≡ self.old.height }
        ensures width { self.old.width ≤ self.new.width + 1 }
        ensures dense { IsDense self.new }

        // the unused blocks
        ensures kept { pool.old.count ≤ pool.new.count }
        ensures gives_back { GivesBack self.old self.new pool.old pool.new }
        ensures pool { (pool.new.wanted ≡ pool.old.wanted) × (pool.new.room ≡ pool.old.room) }
    {
        if self.branches.is_empty() {
            return self.slots.remove(at as usize);
        }
        let (i, rest) = self.branches.branch_at(at);
        let len = self.branches.count(i);
        let node = self.branches.block_mut().nodes[i].as_mut().unwrap();
        let taken = node.remove(rest.min(len - 1), pool);
        let width = node.width();
        self.branches.set_count(i, len - 1);
        let slot = replace_own(&mut self.slots, i, rest, len, taken);
        rebalance(&mut self.slots, &mut self.branches, i, width, pool);
        slot
    }

    // A root without a slot of its own becomes its only branch. Returns the block that the branch lay in.
    pub(crate) fn collapse(&mut self) -> Option<Box<Block>>
        requires inner { 1 < self.old.height }
        requires empty { self.old.width ≡ 0 }

        // afterwards
        ensures slots { self.new.slots ≡ self.old.slots }
        ensures height { self.new.height + 1 ≡ self.old.height }
        ensures width { LEAST_SLOTS ≤ self.new.width }
        ensures dense { IsDense self.new }
        ensures bare { IfSome result (λ block. IsBare block.value) }
        ensures some { IsSome result }
    {
        let (node, _) = self.branches.remove(0);
        let block = self.branches.take_block();
        *self = node;
        block
    }
}
