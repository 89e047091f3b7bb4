//! Two neighbours of which one is a slot short: both are merged, or one borrows from the other.
ghost use Rattle.std.specs.Prelude.{◌≡◌, ◌+◌, ◌<◌, ◌≤◌, ◌++◌, length, take, drop, slice_index_or, IfSome, IsSome};
ghost use Rattle.iddqd_ord_index.specs.Cells.{IsPacked};
ghost use Rattle.iddqd_ord_index.specs.Neighbours.{all_slots, pair_width, ArePair, IsAsHigh, IsMerged, IsMergedAt, IsNarrower, IsPair, IsShifted, IsShiftedAt, IsWider};
ghost use Rattle.iddqd_ord_index.specs.Nodes.{below, subtrees, AreBranches, HasBlock, IsBare};
ghost use Rattle.iddqd_ord_index.specs.Shape.{unused, IsDense};

use super::{Block, Branches, MOST_BRANCHES, Node};
use crate::tree::slots::MOST_SLOTS;

// Moves the first branch of `upper`, if it has any, behind those of `lower`.
fn move_first(lower: &mut Branches, upper: &mut Branches)
    requires branches { AreBranches lower.old }
    requires upper_branches { AreBranches upper.old }
    requires fits { length (below lower.old) < MOST_BRANCHES }
    requires block { 0 < length (below upper.old) → HasBlock lower.old }

    // afterwards
    ensures branches { AreBranches lower.new }
    ensures upper_branches { AreBranches upper.new }
    ensures below { below lower.new ≡ below lower.old ++ take 1 (below upper.old) }
    ensures upper_below { below upper.new ≡ drop 1 (below upper.old) }
{
    if upper.is_empty() {
        return;
    }
    let len = lower.len();
    let (node, count) = upper.remove(0);
    lower.insert(len, node, count);
}

// Moves the branch behind the first `len` ones of `lower`, if it has any, before those of `upper`.
fn move_last(lower: &mut Branches, len: usize, upper: &mut Branches)
    requires branches { AreBranches lower.old }
    requires upper_branches { AreBranches upper.old }
    requires len { 0 < length (below lower.old) → len + 1 ≡ length (below lower.old) }
    requires fits { length (below upper.old) < MOST_BRANCHES }
    requires block { 0 < length (below lower.old) → HasBlock upper.old }

    // afterwards
    ensures branches { AreBranches lower.new }
    ensures upper_branches { AreBranches upper.new }
    ensures below { below lower.new ≡ take len (below lower.old) }
    ensures upper_below { below upper.new ≡ drop len (below lower.old) ++ below upper.old }
{
    if lower.is_empty() {
        return;
    }
    let (node, count) = lower.remove(len);
    upper.insert(0, node, count);
}

impl Node {
    // Moves all of `upper` behind `middle` into the node, and returns the block of `upper`, which only a leaf lacks.
    fn merge(&mut self, middle: u32, mut upper: Node) -> Option<Box<Block>>
        requires pair { IsPair self.old upper }
        requires fits { self.old.width + upper.width < MOST_SLOTS }

        // the node
        ensures merged { IsMerged self.old middle upper self.new }

        // the block
        ensures bare { IfSome result (λ block. IsBare block.value) }
        ensures some { 1 < self.old.height → IsSome result }
    {
        self.branches.append(&mut upper.branches);
        self.slots.push(middle);
        self.slots.extend_from_slice(upper.slots.as_slice());
        upper.branches.take_block()
    }

    // Inserts `middle` behind the node's slots with the first branch of `upper`, and returns the first own slot of
    // `upper`.
    fn borrow_first(&mut self, middle: u32, upper: &mut Node) -> u32
        requires height { self.old.height ≡ upper.old.height }
        requires fits { self.old.width < MOST_SLOTS }
        requires more { 0 < upper.old.width }

        // afterwards
        ensures slots { all_slots self.old middle upper.old ≡ all_slots self.new result upper.new }
        ensures height { IsAsHigh self.new self.old × IsAsHigh upper.new upper.old }
        ensures width { IsWider self.old self.new × IsNarrower upper.old upper.new }
        ensures dense { IsDense self.new × IsDense upper.new }
    {
        move_first(&mut self.branches, &mut upper.branches);
        self.slots.push(middle);
        upper.slots.remove(0)
    }

    // Inserts `middle` before the slots of `upper` with the node's last branch, and returns the node's last own
    // slot.
    fn lend_last(&mut self, middle: u32, upper: &mut Node) -> u32
        requires height { self.old.height ≡ upper.old.height }
        requires fits { upper.old.width < MOST_SLOTS }
        requires more { 0 < self.old.width }

        // afterwards
        ensures slots { all_slots self.old middle upper.old ≡ all_slots self.new result upper.new }
        ensures height { IsAsHigh self.new self.old × IsAsHigh upper.new upper.old }
        ensures width { IsNarrower self.old self.new × IsWider upper.old upper.new }
        ensures dense { IsDense self.new × IsDense upper.new }
    {
        move_last(&mut self.branches, self.slots.len(), &mut upper.branches);
        let Some(last) = self.slots.pop() else {
            unreachable!()
        };
        upper.slots.insert(0, middle);
        last
    }

    // Moves a slot from the wider of two neighbours to the narrower one. Returns the slot between them.
    fn shift(&mut self, middle: u32, upper: &mut Node) -> u32
        requires pair { IsPair self.old upper.old }
        requires many { MOST_SLOTS ≤ self.old.width + upper.old.width }
        ensures { IsShifted self.old middle upper.old self.new result upper.new }
    {
        if self.width() < upper.width() {
            return self.borrow_first(middle, upper);
        }
        self.lend_last(middle, upper)
    }
}

// Moves a slot from the wider of the nodes in cell j and the next to the narrower one. Returns the slot between them,
// and how many slots the lower one has then.
fn shift_cells(nodes: &mut [Option<Node>], j: usize, middle: u32) -> (u32, u32)
    requires packed { IsPacked nodes.old }
    requires pair { ArePair (subtrees nodes.old) j }
    requires many { MOST_SLOTS ≤ pair_width (subtrees nodes.old) j }

    // afterwards
    ensures packed { IsPacked nodes.new }
    ensures shifted { IsShiftedAt j middle (subtrees nodes.old) result.0 (subtrees nodes.new) }
    ensures len { result.1 ≡ length (slice_index_or (subtrees nodes.new) j unused).slots }
{
    let (front, back) = nodes.split_at_mut(j + 1);
    let Some(lower) = &mut front[j] else {
        unreachable!()
    };
    let Some(upper) = &mut back[0] else {
        unreachable!()
    };
    let top = lower.shift(middle, upper);
    (top, lower.len())
}

impl Branches {
    // Merges the j-th branch and the next in the cell of the j-th, with the slot between them. Returns the block of the
    // next, which only a leaf lacks.
    pub(super) fn merge_at(&mut self, j: usize, middle: u32) -> Option<Box<Block>>
        requires branches { AreBranches self.old }
        requires pair { ArePair (below self.old) j }
        requires fits { pair_width (below self.old) j < MOST_SLOTS }

        // the branches
        ensures branches { AreBranches self.new }
        ensures merged { IsMergedAt j middle (below self.old) (below self.new) }

        // the block
        ensures bare { IfSome result (λ block. IsBare block.value) }
        ensures some { 1 < (slice_index_or (below self.old) j unused).height → IsSome result }
    {
        let (upper, more) = self.remove(j + 1);
        let len = self.count(j);
        let lower = self.block_mut().nodes[j].as_mut().unwrap();
        let bare = lower.merge(middle, upper);
        self.set_count(j, len + more + 1);
        bare
    }

    // Moves a slot from the wider of the j-th branch and the next to the narrower one, in their cells. Returns the slot
    // between them.
    pub(super) fn shift_at(&mut self, j: usize, middle: u32) -> u32
        requires branches { AreBranches self.old }
        requires pair { ArePair (below self.old) j }
        requires many { MOST_SLOTS ≤ pair_width (below self.old) j }

        // afterwards
        ensures branches { AreBranches self.new }
        ensures shifted { IsShiftedAt j middle (below self.old) result (below self.new) }
    {
        let total = self.count(j) + self.count(j + 1);
        let (top, len) = shift_cells(&mut self.block_mut().nodes, j, middle);
        self.set_count(j, len);
        self.set_count(j + 1, total - len);
        top
    }
}
