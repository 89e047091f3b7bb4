//! Removal of several slots at once, as long as no node has too few of its own then.
ghost use Rattle.std.specs.Prelude.{true, ◌≡◌, ◌+◌, ◌<◌, ◌≤◌, length, slice_index_or};
ghost use Rattle.iddqd_ord_index.specs.NodeRemoval.{LosesPart};
ghost use Rattle.iddqd_ord_index.specs.Nodes.{below, AreBranches};
ghost use Rattle.iddqd_ord_index.specs.Shape.{unused, IsDense};

use super::{Branches, LEAST_SLOTS, Node};

// Whether the branch behind the i-th one may go with the own slot before it: both are among the next `most` slots, and
// this many own slots are more than a node needs.
fn may_lose_next(branches: &Branches, i: usize, most: u32, width: usize) -> bool
    requires branches { AreBranches branches.now }
    requires fork { length (below branches.now) ≡ width + 1 }
    ensures in_bounds { result ≡ true → i < width }
    ensures wide { result ≡ true → LEAST_SLOTS < width }
    ensures fits { result ≡ true → length (slice_index_or (below branches.now) (i + 1) unused).slots < most }
{
    i < width && width > LEAST_SLOTS && branches.count(i + 1) < most
}

impl Node {
    // Removes some of the `most` slots from the position on, and returns how many: some of a leaf, or a branch with all
    // below it and the slot before it. It returns 0 if a node would have too few slots of its own.
    pub(crate) fn cut(&mut self, at: u32, most: u32) -> u32
        requires { at + most ≤ length self.old.slots }
        ensures part { LosesPart at most result self.old.slots self.new.slots }
        ensures height { self.new.height ≡ self.old.height }
        ensures width { self.new.width < self.old.width → LEAST_SLOTS ≤ self.new.width }
        ensures dense { IsDense self.new }
    {
        let width = self.slots.len();
        if self.branches.is_empty() {
            let spare = width.saturating_sub(LEAST_SLOTS);
            let count = (most as usize).min(width - at as usize).min(spare);
            self.slots.remove_part(at as usize, count);
            return count as u32;
        }
        let (i, rest) = self.branches.branch_at(at);
        let len = self.branches.count(i);
        if may_lose_next(&self.branches, i, most.saturating_sub(len - rest), width) {
            self.slots.remove(i);
            let (_, count) = self.branches.remove(i + 1);
            return count + 1;
        }
        let node = self.branches.block_mut().nodes[i].as_mut().unwrap();
        let count = node.cut(rest, most.min(len - rest));
        self.branches.set_count(i, len - count);
        count
    }
}
