//! Insertion: a node without room gives its upper half away.
ghost use Rattle.std.specs.Prelude.{◌≡◌, ◌+◌, ◌^◌, ◌<◌, ◌≤◌, [], ◌∷◌, ◌++◌, length, insert, nat_lt, OnSome, Some, if◌then◌else◌};
ghost use Rattle.arrayvec.specs.ArrayVec.{array_vec_len};
ghost use Rattle.iddqd_ord_index.specs.Changes.{AddsIn as Adds, AddsTo};
ghost use Rattle.iddqd_ord_index.specs.Nodes.{below, AreBranches, IsBare};
ghost use Rattle.iddqd_ord_index.specs.Shape.{lists, levels, tree, unused, in_order, IsBranch, IsDense, IsForked};

use super::{Block, Branches, KEPT, LEAST_SLOTS, Node};
use crate::tree::pool::BlockPool;
use crate::tree::slots::{MOST_SLOTS, Slots};

// Inserts `slot` at place `i` of a full node, moves the upper half into `upper`, which is empty, and returns the slot
// between the halves.
fn split_slots(slots: &mut Slots, i: usize, slot: u32, upper: &mut Slots) -> u32
    requires full { array_vec_len slots.old ≡ MOST_SLOTS }
    requires in_bounds { i ≤ MOST_SLOTS }
    requires upper_empty { upper.old.items ≡ [] }

    // afterwards
    ensures items { insert slots.old.items i slot ≡ slots.new.items ++ result ∷ upper.new.items }
    ensures lower { length slots.new.items ≡ (if nat_lt i KEPT then KEPT else LEAST_SLOTS) }
    ensures upper { length upper.new.items ≡ (if nat_lt i KEPT then LEAST_SLOTS else KEPT) }
    ensures wide { (LEAST_SLOTS ≤ length slots.new.items) × (LEAST_SLOTS ≤ length upper.new.items) }
{
    upper.extend_from_slice(&slots.as_slice()[KEPT..]);
    slots.truncate(KEPT);
    let Some(middle) = slots.pop() else {
        unreachable!()
    };
    if i < KEPT {
        slots.insert(i, slot);
    } else {
        upper.insert(i - KEPT, slot);
    }
    middle
}

// Inserts `middle` at place `i` of a full inner node and `upper` behind it. Returns the upper half, whose branches lie in
// this block, and the slot before it.
fn split_inner(
    slots: &mut Slots,
    branches: &mut Branches,
    i: usize,
    middle: u32,
    upper: Node,
    count: u32,
    block: Box<Block>,
) -> (u32, Node)
    requires branches { AreBranches branches.old }
    requires forked { IsForked (below branches.old) slots.old.items }
    requires full { array_vec_len slots.old ≡ MOST_SLOTS }
    requires inner { 0 < length (below branches.old) }
    requires in_bounds { i ≤ MOST_SLOTS }
    requires upper { IsBranch (levels (below branches.old)) upper }
    requires count { count ≡ length upper.slots }
    requires bare { IsBare block.value }

    // the branches
    ensures branches { AreBranches branches.new }
    ensures forked { IsForked (below branches.new) slots.new.items }
    ensures levels { levels (below branches.new) ≡ levels (below branches.old) }

    // the slots
    ensures split { Adds i middle upper branches.old slots.old branches.new slots.new (Some result) }
{
    let mut half = Slots::new();
    let top = split_slots(slots, i, middle, &mut half);
    let half = Node {
        slots: half,
        branches: branches.split(i, upper, count, block),
    };
    (top, half)
}

// Inserts `middle` at place `i` of an inner node and `upper` behind it.
pub(super) fn add_branch(
    slots: &mut Slots,
    branches: &mut Branches,
    i: usize,
    middle: u32,
    upper: Node,
    count: u32,
    pool: &mut BlockPool,
) -> Option<(u32, Node)>
    requires branches { AreBranches branches.old }
    requires forked { IsForked (below branches.old) slots.old.items }
    requires inner { 0 < length (below branches.old) }
    requires in_bounds { i ≤ length slots.old.items }
    requires upper { IsBranch (levels (below branches.old)) upper }
    requires count { count ≡ length upper.slots }
    requires enough { 0 < pool.old.count }

    // the branches
    ensures branches { AreBranches branches.new }
    ensures forked { IsForked (below branches.new) slots.new.items }
    ensures levels { levels (below branches.new) ≡ levels (below branches.old) }

    // the slots, and the unused blocks
    ensures adds { Adds i middle upper branches.old slots.old branches.new slots.new result }
    ensures left { pool.old.count ≤ pool.new.count + 1 }
    ensures pool { (pool.new.wanted ≡ pool.old.wanted) × (pool.new.room ≡ pool.old.room) }
{
    if slots.len() < MOST_SLOTS {
        slots.insert(i, middle);
        branches.insert(i + 1, upper, count);
        return None;
    }
    let block = pool.take();
    Some(split_inner(slots, branches, i, middle, upper, count, block))
}

impl Node {
    // Makes an empty leaf the root above two halves, with this many slots below each. They lie in this block.
    pub(crate) fn make_root(
        &mut self,
        block: Box<Block>,
        lower: Node,
        lower_count: u32,
        middle: u32,
        upper: Node,
        upper_count: u32,
    )
        requires unused { self.old ≡ unused }
        requires bare { IsBare block.value }
        requires lower { IsBranch (lower.height + 1) lower }
        requires upper { IsBranch (lower.height + 1) upper }
        requires lower_count { lower_count ≡ length lower.slots }
        requires upper_count { upper_count ≡ length upper.slots }

        // afterwards
        ensures slots { self.new.slots ≡ lower.slots ++ middle ∷ upper.slots }
        ensures height { self.new.height ≡ lower.height + 1 }
        ensures width { self.new.width ≡ 1 }
        ensures dense { IsDense self.new }
    {
        self.slots.push(middle);
        self.branches = Branches::within(block);
        self.branches.insert(0, lower, lower_count);
        self.branches.insert(1, upper, upper_count);
    }

    // Inserts a slot into a leaf. One without room gives its upper half away.
    pub(super) fn add_to_leaf(&mut self, at: u32, slot: u32) -> Option<(u32, Node)>
        requires leaf { self.old.height ≡ 1 }
        requires place { at ≤ length self.old.slots }

        // afterwards
        ensures adds { AddsTo (insert self.old.slots at slot) self.old.width self.new result }
        ensures full { OnSome result (self.old.width ≡ MOST_SLOTS) }
        ensures height { self.new.height ≡ self.old.height }
        ensures dense { IsDense self.new }
    {
        if self.slots.len() < MOST_SLOTS {
            self.slots.insert(at as usize, slot);
            return None;
        }
        let mut half = Node::new();
        let middle = split_slots(&mut self.slots, at as usize, slot, &mut half.slots);
        Some((middle, half))
    }

    // Inserts a slot at the position. A node without room gives its upper half away, with the slot before it.
    pub(crate) fn add(&mut self, at: u32, slot: u32, pool: &mut BlockPool) -> Option<(u32, Node)>
        requires place { at ≤ length self.old.slots }
        requires room { length self.old.slots + 1 < 2 ^ 32 }
        requires enough { self.old.height ≤ pool.old.count + 1 }

        // the node
        ensures adds { AddsTo (insert self.old.slots at slot) self.old.width self.new result }
        ensures height { self.new.height ≡ self.old.height }
        ensures dense { IsDense self.new }

        // the unused blocks
        ensures left { pool.old.count < pool.new.count + self.old.height }
        ensures pool { (pool.new.wanted ≡ pool.old.wanted) × (pool.new.room ≡ pool.old.room) }
    {
        if self.branches.is_empty() {
            return self.add_to_leaf(at, slot);
        }
        let (i, rest) = self.branches.branch_at(at);
        let count = self.branches.count(i) + 1;
        let node = self.branches.block_mut().nodes[i].as_mut().unwrap();
        let Some((middle, upper)) = node.add(rest, slot, pool) else {
            self.branches.set_count(i, count);
            return None;
        };
        let above = upper.len();
        self.branches.set_count(i, count - above - 1);
        add_branch(
            &mut self.slots,
            &mut self.branches,
            i,
            middle,
            upper,
            above,
            pool,
        )
    }
}
