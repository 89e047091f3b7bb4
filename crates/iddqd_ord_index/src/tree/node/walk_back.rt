//! A walk from the back along the leaves below one node, which takes up that node's own slots between them.
ghost use Rattle.std.specs.Prelude.{◌≡◌, ◌+◌, ◌<◌, [], ◌∷◌, ◌++◌, length, take, IfNone, IfSome};
ghost use Rattle.iddqd_ord_index.specs.Runs.{EndsWith};

use super::Node;
use super::walk::leaf_at;
use std::marker::Model;

/// The slots that come next from the back: the front of a leaf, then what comes before it below the node above. Contracts
/// see them in the order of the list.
#[derive(Drop)]
pub(crate) struct LeafWalkBack<'a> {
    // The front of a leaf, or one slot.
    run: &'a [u32],
    // The own slots that come before it in the node above, and the leaf before each.
    slots: &'a [u32],
    leaves: &'a [Option<Node>],
}

impl<'a> Model for LeafWalkBack<'a> {
    ghost use Rattle.std.specs.Prelude.{[], ◌∷◌, ◌++◌, List, ℕ, length};
    ghost use Rattle.iddqd_ord_index.specs.Nodes.{subtrees, AreLeaves};
    ghost use Rattle.iddqd_ord_index.specs.Shape.{in_order, lists};

    ghost Value = { List ℕ };

    ghost view = { λ w. in_order (lists (subtrees w.leaves.now) ++ w.run.now ∷ []) w.slots.now };

    ghost invariant = { λ w. AreLeaves w.leaves.now (length w.slots.now) };
}

impl<'a> LeafWalkBack<'a> {
    // These slots alone.
    pub(crate) fn along(run: &'a [u32]) -> Self
        ensures { result ≡ run.now }
    {
        LeafWalkBack {
            run,
            slots: &[],
            leaves: &[],
        }
    }

    // Returns the last slot, or `None` if there is none.
    #[inline]
    pub(crate) fn next(&mut self) -> Option<u32>
        ensures none { IfNone result (self.old ≡ []) }
        ensures some { IfSome result (λ slot. self.old ≡ self.new ++ slot ∷ []) }
    {
        match self.run.split_last() {
            Some((slot, run)) => {
                self.run = run;
                Some(*slot)
            }
            None => {
                let (slot, slots) = self.slots.split_last()?;
                self.run = leaf_at(self.leaves, slots.len());
                self.slots = slots;
                self.leaves = &self.leaves[..slots.len()];
                Some(*slot)
            }
        }
    }
}

impl Node {
    // The slots up to the position: from the start of the lowest node that is no leaf, or one slot of a higher node.
    pub(crate) fn leaves_before(&self, at: u32) -> LeafWalkBack<'_>
        requires { at < length self.now.slots }
        ensures some { 0 < length result }
        ensures walk { EndsWith result (take (at + 1) self.now.slots) }
    {
        let mut node = self;
        let mut place = at;
        let mut slots: &[u32] = &[];
        let mut leaves: &[Option<Node>] = &[];
        'down: while !node.branches.is_empty() {
            let (i, rest) = node.branches.branch_at(place);
            if rest == node.branches.count(i) {
                return LeafWalkBack::along(&node.slots.as_slice()[i..i + 1]);
            }
            slots = &node.slots.as_slice()[..i];
            leaves = node.branches.branches_before(i);
            node = node.branches.get(i);
            place = rest;
        }
        let run = &node.slots.as_slice()[..place as usize + 1];
        LeafWalkBack { run, slots, leaves }
    }
}
