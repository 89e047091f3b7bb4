//! The branches of a node and the number of slots below each, changed together.
ghost use Rattle.std.specs.Prelude.{true, false, ◌≡◌, ◌+◌, ◌^◌, ◌<◌, ◌≤◌, ◌==◌, [], ◌++◌, length, take, drop, insert, remove, slice_index_or, slice_set, nat_lt, if◌then◌else◌, IfOk, IfSome, IsSome};
ghost use Rattle.std.specs.Borrow.{sem};
ghost use Rattle.iddqd_ord_index.specs.Nodes.{below, below_with, counts_of, nodes_of, subtrees, AreBranches, HasBlock, IsBare, IsBlockOf};
ghost use Rattle.iddqd_ord_index.specs.Shape.{lists, starts, unused, IsBranchAt};

use super::{Block, Branches, KEPT, MOST_BRANCHES, Node};
use crate::tree::cells;
use arrayvec::ArrayVec;
use std::alloc::{AllocError, Global};

impl Block {
    // A block without branches.
    pub(crate) fn new() -> Self
        ensures { IsBare result }
    {
        Block {
            counts: ArrayVec::new(),
            nodes: [
                None, None, None, None, None, None, None, None, None, None, None, None,
            ],
        }
    }
}

impl Branches {
    ghost use Rattle.iddqd_ord_index.specs.Lends.{lends_block};

    // No branches, and no block.
    pub(super) fn new() -> Self
        ensures branches { AreBranches result }
        ensures none { below result ≡ [] }
    {
        Branches { block: None }
    }

    // No branches yet, in this block.
    pub(super) fn within(block: Box<Block>) -> Self
        requires bare { IsBare block.value }
        ensures branches { AreBranches result }
        ensures none { below result ≡ [] }
        ensures block { HasBlock result }
    {
        Branches { block: Some(block) }
    }

    // No branches yet, in a block if these have branches.
    pub(super) fn try_like(&self, alloc: Global) -> Result<Self, AllocError>
        requires { AreBranches self.now }
        ensures branches { IfOk result (λ like. AreBranches like × (below like ≡ [])) }
        ensures block { IfOk result (λ like. 0 < length (below self.now) → HasBlock like) }
    {
        if self.is_empty() {
            return Ok(Branches::new());
        }
        Ok(Branches::within(Box::new(alloc, Block::new())?))
    }

    // Takes the block away, if there is one, from no branches.
    pub(super) fn take_block(&mut self) -> Option<Box<Block>>
        requires branches { AreBranches self.old }
        requires none { below self.old ≡ [] }

        // the branches
        ensures branches { AreBranches self.new }
        ensures none { below self.new ≡ [] }

        // the block
        ensures bare { IfSome result (λ block. IsBare block.value) }
        ensures some { HasBlock self.old → IsSome result }
    {
        self.block.take()
    }

    // The block that the branches lie in.
    #[inline]
    fn block(&self) -> &Block
        requires { HasBlock self.now }
        ensures { IsBlockOf self.now result.now }
    {
        match &self.block {
            Some(block) => block,
            None => unreachable!(),
        }
    }

    // The same for writing. It lends the block and not a branch, since no clause can be shown of a `&mut` to an item in a
    // slice's cell.
    #[inline]
    pub(super) fn block_mut(&mut self) -> &mut Block
        requires { HasBlock self.old }
        ensures* writes_back { sem 𝓛 (lends_block self.entry result) }
        ensures block { IsBlockOf self.old result.now }
    {
        match &mut self.block {
            Some(block) => block,
            None => unreachable!(),
        }
    }

    // How many slots lie below each branch.
    fn counts(&self) -> &[u32]
        ensures { result.now ≡ counts_of self.now }
    {
        match &self.block {
            Some(block) => block.counts.as_slice(),
            None => &[],
        }
    }

    pub(super) fn len(&self) -> usize
        requires { AreBranches self.now }
        ensures { result ≡ length (below self.now) }
    {
        self.counts().len()
    }

    pub(super) fn is_empty(&self) -> bool
        requires { AreBranches self.now }
        ensures none { result ≡ true → length (below self.now) ≡ 0 }
        ensures some { result ≡ false → 0 < length (below self.now) }
    {
        self.counts().is_empty()
    }

    // How many slots lie below the i-th branch.
    pub(super) fn count(&self, i: usize) -> u32
        requires branches { AreBranches self.now }
        requires in_bounds { i < length (below self.now) }
        ensures { result ≡ length (slice_index_or (below self.now) i unused).slots }
    {
        self.counts()[i]
    }

    // The i-th branch.
    pub(super) fn get(&self, i: usize) -> &Node
        requires branches { AreBranches self.now }
        requires in_bounds { i < length (below self.now) }
        ensures { result.now ≡ slice_index_or (below self.now) i unused }
    {
        match &self.block().nodes[i] {
            Some(node) => node,
            None => unreachable!(),
        }
    }

    // The branches behind the i-th one.
    pub(super) fn branches_after(&self, i: usize) -> &[Option<Node>]
        requires branches { AreBranches self.now }
        requires in_bounds { i < length (below self.now) }
        ensures branches { subtrees result.now ≡ drop (i + 1) (below self.now) }
        ensures present { length (subtrees result.now) ≡ length result.now }
    {
        let block = self.block();
        let nodes: &[Option<Node>] = &block.nodes[..];
        &nodes[i + 1..block.counts.len()]
    }

    // The branches before the i-th one.
    pub(super) fn branches_before(&self, i: usize) -> &[Option<Node>]
        requires branches { AreBranches self.now }
        requires in_bounds { i < length (below self.now) }
        ensures branches { subtrees result.now ≡ take i (below self.now) }
        ensures present { length (subtrees result.now) ≡ length result.now }
    {
        let block = self.block();
        let nodes: &[Option<Node>] = &block.nodes[..];
        &nodes[..i]
    }

    // The branch that position `at` lies in or right behind, and the position in it.
    pub(super) fn branch_at(&self, at: u32) -> (usize, u32)
        requires branches { AreBranches self.now }
        requires reached { at < starts (lists (below self.now)) }
        ensures { IsBranchAt (lists (below self.now)) at result.0 result.1 }
    {
        let counts = self.counts();
        let mut i = 0;
        let mut rest = at;
        while i + 1 < counts.len() && rest > counts[i] {
            rest -= counts[i] + 1;
            i += 1;
        }
        (i, rest)
    }

    // How many slots stand before the i-th branch, with the own slots between.
    pub(super) fn start(&self, i: usize) -> u32
        requires branches { AreBranches self.now }
        requires in_bounds { i < length (below self.now) }
        requires room { starts (lists (below self.now)) ≤ 2 ^ 32 }
        ensures { result ≡ starts (take i (lists (below self.now))) }
    {
        let counts = self.counts();
        let mut start = 0;
        for k in 0..i {
            start += counts[k] + 1;
        }
        start
    }

    // Inserts a branch as the i-th one, with this many slots below it.
    pub(super) fn insert(&mut self, i: usize, node: Node, count: u32)
        requires branches { AreBranches self.old }
        requires in_bounds { i ≤ length (below self.old) }
        requires room { length (below self.old) < MOST_BRANCHES }
        requires count { count ≡ length node.slots }
        requires block { HasBlock self.old }

        // afterwards
        ensures branches { AreBranches self.new }
        ensures below { below self.new ≡ insert (below self.old) i node }
        ensures block { HasBlock self.new }
    {
        let block = self.block_mut();
        cells::insert(&mut block.nodes, i, node);
        block.counts.insert(i, count);
    }

    // Removes the i-th branch, and returns it with the number of slots below it.
    pub(super) fn remove(&mut self, i: usize) -> (Node, u32)
        requires branches { AreBranches self.old }
        requires in_bounds { i < length (below self.old) }

        // afterwards
        ensures branches { AreBranches self.new }
        ensures below { below self.new ≡ remove (below self.old) i }
        ensures node { result.0 ≡ slice_index_or (below self.old) i unused }
        ensures count { result.1 ≡ length result.0.slots }
        ensures block { HasBlock self.new }
    {
        let block = self.block_mut();
        let node = cells::remove(&mut block.nodes, i);
        (node, block.counts.remove(i))
    }

    // Sets the number of slots below the i-th branch.
    pub(super) fn set_count(&mut self, i: usize, count: u32)
        requires { i < length (counts_of self.old) }
        ensures cells { nodes_of self.new ≡ nodes_of self.old }
        ensures counts { counts_of self.new ≡ slice_set (counts_of self.old) i count }
    {
        self.block_mut().counts.as_mut_slice()[i] = count;
    }

    // Moves all branches of `upper` behind these.
    pub(super) fn append(&mut self, upper: &mut Branches)
        requires branches { AreBranches self.old }
        requires upper_branches { AreBranches upper.old }
        requires fits { length (below self.old) + length (below upper.old) ≤ MOST_BRANCHES }
        requires block { 0 < length (below upper.old) → HasBlock self.old }

        // afterwards
        ensures branches { AreBranches self.new }
        ensures upper_branches { AreBranches upper.new }
        ensures below { below self.new ≡ below self.old ++ below upper.old }
        ensures upper_below { below upper.new ≡ [] }
        ensures upper_block { HasBlock upper.old → HasBlock upper.new }
    {
        if upper.is_empty() {
            return;
        }
        let (len, more) = (self.len(), upper.len());
        let (block, upper) = (self.block_mut(), upper.block_mut());
        cells::append(&mut block.nodes, len, &mut upper.nodes, more);
        let Ok(()) = block.counts.try_extend_from_slice(upper.counts.as_slice()) else {
            unreachable!()
        };
        upper.counts.clear();
    }

    // Moves the branches from the i-th on into `upper`, which has none.
    fn move_tail(&mut self, i: usize, upper: &mut Branches)
        requires branches { AreBranches self.old }
        requires upper_branches { AreBranches upper.old }
        requires blocks { HasBlock self.old × HasBlock upper.old }
        requires in_bounds { i ≤ length (below self.old) }
        requires upper_empty { below upper.old ≡ [] }

        // afterwards
        ensures branches { AreBranches self.new }
        ensures upper_branches { AreBranches upper.new }
        ensures blocks { HasBlock self.new × HasBlock upper.new }
        ensures below { below self.new ≡ take i (below self.old) }
        ensures upper_below { below upper.new ≡ drop i (below self.old) }
    {
        let (block, upper) = (self.block_mut(), upper.block_mut());
        cells::move_tail(&mut block.nodes, i, &mut upper.nodes);
        let Ok(()) = upper
            .counts
            .try_extend_from_slice(&block.counts.as_slice()[i..])
        else {
            unreachable!()
        };
        block.counts.truncate(i);
    }

    // Puts a branch in behind the i-th of a full node, and returns the upper half, in this block.
    pub(super) fn split(&mut self, i: usize, node: Node, count: u32, block: Box<Block>) -> Branches
        requires branches { AreBranches self.old }
        requires full { length (below self.old) ≡ MOST_BRANCHES }
        requires in_bounds { i < MOST_BRANCHES }
        requires count { count ≡ length node.slots }
        requires bare { IsBare block.value }

        // afterwards
        ensures branches { AreBranches self.new }
        ensures upper_branches { AreBranches result }
        ensures below { below_with self.old i node ≡ below self.new ++ below result }
        ensures lower { length (below self.new) ≡ (if nat_lt i KEPT then KEPT + 1 else KEPT) }
        ensures upper { length (below result) ≡ (if nat_lt i KEPT then KEPT else KEPT + 1) }
    {
        let mut upper = Branches::within(block);
        self.move_tail(KEPT, &mut upper);
        if i < KEPT {
            self.insert(i + 1, node, count);
        } else {
            upper.insert(i + 1 - KEPT, node, count);
        }
        upper
    }
}
