//! A walk goes along the leaves below one node, and takes up that node's own slots between them.
ghost use Rattle.std.specs.Prelude.{◌≡◌, ◌*◌, ◌^◌, ◌<◌, ◌≤◌, [], ◌∷◌, ◌++◌, drop, length, slice_index_or, IfNone, IfSome};
ghost use Rattle.iddqd_store.specs.Counting.{CountsAtMost};
ghost use Rattle.iddqd_ord_index.specs.Listed.{AreOccupied};
ghost use Rattle.iddqd_ord_index.specs.Nodes.{subtrees, AreLeaves};
ghost use Rattle.iddqd_ord_index.specs.Runs.{BeginsWith};
ghost use Rattle.iddqd_ord_index.specs.Search.{position_of};
ghost use Rattle.iddqd_ord_index.specs.Shape.{unused};
ghost use Rattle.iddqd_ord_index.specs.Standing.{StandsAt, StandsMonotone};

use super::Node;
use crate::tree::search::search;
use iddqd_store::{Comparable, IdOrdItem, ItemStore, Steps};
use std::marker::Model;

/// The slots that come next: the rest of a leaf, then what comes behind it below the node above. Contracts see the list.
#[derive(Drop)]
pub(crate) struct LeafWalk<'a> {
    // The rest of a leaf, or one slot.
    run: &'a [u32],
    // The own slots that come in the node above, and the leaf behind each.
    slots: &'a [u32],
    leaves: &'a [Option<Node>],
}

impl<'a> Model for LeafWalk<'a> {
    ghost use Rattle.std.specs.Prelude.{◌≡◌, ◌++◌, List, ℕ, length};
    ghost use Rattle.iddqd_ord_index.specs.Nodes.{subtrees, AreLeaves};
    ghost use Rattle.iddqd_ord_index.specs.Shape.{behind, lists};

    ghost Value = { List ℕ };

    ghost view = { λ w. w.run.now ++ behind (lists (subtrees w.leaves.now)) w.slots.now };

    ghost invariant = { λ w. AreLeaves w.leaves.now (length w.slots.now) };
}

impl<'a> LeafWalk<'a> {
    // These slots alone.
    pub(crate) fn along(run: &'a [u32]) -> Self
        ensures { result ≡ run.now }
    {
        LeafWalk {
            run,
            slots: &[],
            leaves: &[],
        }
    }

    // Returns the slots that are left of one leaf, but at most so many, and goes on behind them.
    #[inline]
    pub(crate) fn take_run(&mut self, most: usize) -> &'a [u32]
        ensures taken { self.old ≡ result.now ++ self.new }
        ensures fits { length result.now ≤ most }
    {
        let (run, behind) = self.run.split_at(self.run.len().min(most));
        self.run = behind;
        run
    }

    // Returns the next slot, or `None` if there is none.
    #[inline]
    pub(crate) fn next(&mut self) -> Option<u32>
        ensures none { IfNone result (self.old ≡ []) }
        ensures some { IfSome result (λ slot. self.old ≡ slot ∷ self.new) }
    {
        match self.run.split_first() {
            Some((slot, run)) => {
                self.run = run;
                Some(*slot)
            }
            None => {
                let (slot, slots) = self.slots.split_first()?;
                self.run = leaf_at(self.leaves, 0);
                self.slots = slots;
                self.leaves = &self.leaves[1..];
                Some(*slot)
            }
        }
    }
}

// The slots of the i-th of these leaves.
pub(super) fn leaf_at(leaves: &[Option<Node>], i: usize) -> &[u32]
    requires leaves { AreLeaves leaves.now (length leaves.now) }
    requires in_bounds { i < length leaves.now }
    ensures { result.now ≡ (slice_index_or (subtrees leaves.now) i unused).slots }
{
    match &leaves[i] {
        Some(leaf) => leaf.leaf_slots(),
        None => unreachable!(),
    }
}

impl Node {
    // The slots of a leaf.
    fn leaf_slots(&self) -> &[u32]
        requires { self.now.height ≡ 1 }
        ensures { result.now ≡ self.now.slots }
    {
        self.slots.as_slice()
    }

    // The slots from the position on: to the end of the lowest node that is no leaf, or one slot of a higher node.
    pub(crate) fn leaves_at(&self, at: u32) -> LeafWalk<'_>
        requires { at < length self.now.slots }
        ensures some { 0 < length result }
        ensures walk { BeginsWith result (drop at self.now.slots) }
    {
        let mut node = self;
        let mut place = at;
        let mut slots: &[u32] = &[];
        let mut leaves: &[Option<Node>] = &[];
        'down: while !node.branches.is_empty() {
            let (i, rest) = node.branches.branch_at(place);
            if rest == node.branches.count(i) {
                return LeafWalk::along(&node.slots.as_slice()[i..i + 1]);
            }
            slots = &node.slots.as_slice()[i..];
            leaves = node.branches.branches_after(i);
            node = node.branches.get(i);
            place = rest;
        }
        let run = &node.slots.as_slice()[place as usize..];
        LeafWalk { run, slots, leaves }
    }

    // Where the query belongs, as `find` says, and the slots from there on, as far as `leaves_at` goes.
    pub(crate) fn find_leaves<T: IdOrdItem, Q: Comparable<T::Key>>(
        &self,
        store: &ItemStore<T>,
        query: &Q,
        steps: &mut Steps,
    ) -> (Result<u32, u32>, LeafWalk<'_>)
        requires occupied { AreOccupied store.now self.now.slots }
        requires monotone { StandsMonotone T.key (Q.compare query.now) store.now self.now.slots }
        requires room { length self.now.slots < 2 ^ 32 }

        // what it finds
        ensures place { StandsAt T.key (Q.compare query.now) store.now self.now.slots result.0 }
        ensures walk { BeginsWith result.1 (drop (position_of result.0) self.now.slots) }

        // what it costs
        ensures steps { CountsAtMost steps.old steps.new (4 * self.now.height) }
    {
        let mut node = self;
        let mut base = 0;
        let mut slots: &[u32] = &[];
        let mut leaves: &[Option<Node>] = &[];
        'down: while !node.branches.is_empty() {
            let own = node.slots.as_slice();
            match search(own, store, query, steps) {
                Ok(i) => {
                    let position = base + node.branches.start(i + 1) - 1;
                    return (Ok(position), LeafWalk::along(&own[i..i + 1]));
                }
                Err(i) => {
                    base += node.branches.start(i);
                    slots = &own[i..];
                    leaves = node.branches.branches_after(i);
                    node = node.branches.get(i);
                }
            }
        }
        let own = node.slots.as_slice();
        match search(own, store, query, steps) {
            Ok(i) => {
                let run = &own[i..];
                (Ok(base + i as u32), LeafWalk { run, slots, leaves })
            }
            Err(i) => {
                let run = &own[i..];
                (Err(base + i as u32), LeafWalk { run, slots, leaves })
            }
        }
    }
}
