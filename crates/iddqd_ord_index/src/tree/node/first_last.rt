//! The first slot and the last one, each in one descent.
ghost use Rattle.std.specs.Prelude.{◌≡◌, ◌-◌, length, slice_get};

use super::Node;

impl Node {
    // Returns the first slot, or `None` if there is none.
    pub(crate) fn first(&self) -> Option<u32>
        ensures { result ≡ slice_get self.now.slots 0 }
    {
        let mut node = self;
        'down: while !node.branches.is_empty() {
            node = node.branches.get(0);
        }
        node.slots.as_slice().first().copied()
    }

    // Returns the last slot, or `None` if there is none.
    pub(crate) fn last(&self) -> Option<u32>
        ensures { result ≡ slice_get self.now.slots (length self.now.slots - 1) }
    {
        let mut node = self;
        'down: while !node.branches.is_empty() {
            node = node.branches.get(node.branches.len() - 1);
        }
        node.slots.as_slice().last().copied()
    }
}
