//! A copy of a node with all that lies below it.
ghost use Rattle.std.specs.Prelude.{◌≡◌, IfOk};

use super::Node;
use crate::tree::slots::Slots;
use std::alloc::{AllocError, Global};

impl Node {
    // Returns a node of the same slots and shape, or an error if memory is refused.
    pub(crate) fn try_clone(&self, alloc: Global) -> Result<Node, AllocError>
        ensures { IfOk result (λ copy. copy ≡ self.now) }
    {
        let mut branches = self.branches.try_like(alloc)?;
        for i in 0..self.branches.len() {
            let node = self.branches.get(i).try_clone(alloc)?;
            branches.insert(i, node, self.branches.count(i));
        }
        let mut slots = Slots::new();
        slots.extend_from_slice(self.slots.as_slice());
        Ok(Node { slots, branches })
    }
}
