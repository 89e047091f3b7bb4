//! The slots by their positions, which the counts lead to.
ghost use Rattle.std.specs.Prelude.{◌≡◌, ◌+◌, ◌<◌, ◌≤◌, length, slice_index};
ghost use Rattle.iddqd_ord_index.specs.NodeRemoval.{Writes};
ghost use Rattle.iddqd_ord_index.specs.Shape.{IsDense};

use super::Node;

impl Node {
    // The slot at the position.
    pub(crate) fn slot_at(&self, at: u32) -> u32
        requires { at < length self.now.slots }
        ensures { result ≡ slice_index self.now.slots at }
    {
        let mut node = self;
        let mut place = at;
        'down: while !node.branches.is_empty() {
            let (i, rest) = node.branches.branch_at(place);
            if rest == node.branches.count(i) {
                return node.slots.as_slice()[i];
            }
            node = node.branches.get(i);
            place = rest;
        }
        node.slots.as_slice()[place as usize]
    }

    // Writes the first of these slots over those from the position on, and returns how many: those that stand side by
    // side in a leaf, or one.
    pub(crate) fn write(&mut self, at: u32, more: &[u32]) -> usize
        requires some { 0 < length more.now }
        requires in_list { at + length more.now ≤ length self.old.slots }
        ensures slots { Writes at result more.now self.old.slots self.new.slots }
        ensures some { 0 < result }
        ensures most { result ≤ length more.now }
        ensures height { self.new.height ≡ self.old.height }
        ensures width { self.new.width ≡ self.old.width }
        ensures dense { IsDense self.new }
    {
        if self.branches.is_empty() {
            return self.slots.write(at as usize, more);
        }
        let (i, rest) = self.branches.branch_at(at);
        let count = self.branches.count(i);
        if rest == count {
            self.slots.replace(i, more[0]);
            return 1;
        }
        let fits = more.len().min((count - rest) as usize);
        let node = self.branches.block_mut().nodes[i].as_mut().unwrap();
        node.write(rest, &more[..fits])
    }
}
