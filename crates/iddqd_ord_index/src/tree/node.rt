//! A node of the tree. Contracts see it as its slots in order with those below it, its height, and its own number of
//! slots.
ghost use Rattle.std.specs.Prelude.{◌≡◌, ◌+◌, ◌^◌, ◌<◌, ◌≤◌, [], length};
ghost use Rattle.iddqd_ord_index.specs.Nodes.{below};
ghost use Rattle.iddqd_ord_index.specs.Shape.{unused};

mod branch_block;
mod by_position;
mod clone;
mod cut;
mod find;
mod first_last;
mod insert;
mod insert_by_key;
mod pair;
mod remove;
mod remove_by_key;
mod walk;
mod walk_back;

use crate::tree::slots::{MOST_SLOTS, Slots};
use arrayvec::ArrayVec;
pub(crate) use insert_by_key::Outcome;
use std::marker::Model;
pub(crate) use walk::LeafWalk;
pub(crate) use walk_back::LeafWalkBack;

/// How many branches a node has room for: one before each slot of its own, and one behind the last.
pub(crate) const MOST_BRANCHES: usize = MOST_SLOTS + 1;

// How many slots of its own each node but the root has at least.
const LEAST_SLOTS: usize = 5;

// How many of its branches and slots a full node keeps in a split. The last of these slots goes up.
const KEPT: usize = 6;

/// A node: its own slots, and the branches between which they stand. A leaf has no branches.
#[cycle(tree)]
#[derive(Drop)]
pub(crate) struct Node {
    slots: Slots,
    branches: Branches,
}

/// The branches of a node, in a block of their own. A leaf has none, so it is small.
#[cycle(tree)]
#[derive(Drop)]
pub(crate) struct Branches {
    block: Option<Box<Block>>,
}

/// The branches of an inner node, which lie in the block itself, and how many slots lie below each.
#[cycle(tree)]
#[derive(Drop)]
pub(crate) struct Block {
    counts: ArrayVec<u32, MOST_BRANCHES>,
    nodes: [Option<Node>; MOST_BRANCHES],
}

impl Model for Node {
    ghost use Rattle.iddqd_ord_index.specs.Shape.{Subtree};

    ghost Value = { Subtree };

    ghost use Rattle.iddqd_ord_index.specs.Nodes.{subtree_of, IsNode};

    ghost view = { λ n. subtree_of n };

    ghost invariant = { λ n. IsNode n };

    ghost size = { λ v. v.height };

    ghost use Rattle.iddqd_ord_index.specs.Falls.{falls};

    ghost size_decreases = { λ n h. falls n h };
}

impl Node {
    // A leaf without slots.
    pub(crate) fn new() -> Self
        ensures { result ≡ unused }
    {
        Node {
            slots: Slots::new(),
            branches: Branches::new(),
        }
    }

    // How many slots the node itself has.
    pub(crate) fn width(&self) -> usize
        ensures width { result ≡ self.now.width }
        ensures most { result ≤ MOST_SLOTS }
    {
        self.slots.len()
    }

    // How many slots the node has with those below it.
    pub(crate) fn len(&self) -> u32
        requires { length self.now.slots < 2 ^ 32 }
        ensures { result ≡ length self.now.slots }
    {
        let own = self.slots.len();
        if self.branches.is_empty() {
            return own as u32;
        }
        self.branches.start(own) + self.branches.count(own)
    }
}

// A leaf is small: it has no room for branches.
const _: () = prove!(std::mem::size_of::<Node>() == 64);
