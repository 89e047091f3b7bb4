//! The slots that an index has read last. Reading its slots in turn descends once for several of them.
ghost use Rattle.std.specs.Prelude.{◌≡◌, ◌+◌, ◌<◌, ◌≤◌, [], ◌++◌, drop, length, slice_index};
ghost use Rattle.iddqd_ord_index.specs.Runs.{BeginsWith, FollowsRemoval, IsRunOf};

use crate::tree::node::{LeafWalk, Node};
use arrayvec::ArrayVec;
use std::marker::Model;

// How many slots a cache has room for.
pub(super) const RUN: usize = 64;

/// Some slots that stand side by side in a list, and the position of the first.
#[derive(Drop)]
pub(crate) struct RunCache {
    slots: ArrayVec<u32, RUN>,
    start: u32,
}

impl Model for RunCache {
    ghost use Rattle.iddqd_ord_index.specs.Runs.{Run};

    ghost Value = { Run };

    ghost view = { λ c. record { slots = c.slots.items; start = c.start } };
}

impl RunCache {
    // Returns a cache without slots.
    pub(crate) fn new() -> Self
        ensures { result.slots ≡ [] }
    {
        RunCache {
            slots: ArrayVec::new(),
            start: 0,
        }
    }

    // Forgets the slots.
    #[inline]
    pub(crate) fn clear(&mut self)
        ensures { self.new.slots ≡ [] }
    {
        self.slots.clear();
    }

    // Follows a removal of the slot at the position from the list. It keeps the other slots if it had that one.
    #[inline]
    pub(crate) fn remove(&mut self, at: u32)
        ensures { FollowsRemoval at self.old self.new }
    {
        if at >= self.start && ((at - self.start) as usize) < self.slots.len() {
            self.slots.remove((at - self.start) as usize);
        } else {
            self.slots.clear();
        }
    }

    // Returns the slot at the position in the tree, out of the cache if it has it.
    #[inline]
    pub(crate) fn slot_at(&mut self, root: &Node, at: u32) -> u32
        requires in_list { at < length root.now.slots }
        requires cached { IsRunOf self.old root.now.slots }
        ensures slot { result ≡ slice_index root.now.slots at }
        ensures cached { IsRunOf self.new root.now.slots }
    {
        if at >= self.start {
            if let Some(slot) = self.slots.as_slice().get((at - self.start) as usize) {
                return *slot;
            }
        }
        self.read(root, at)
    }

    // The same for who goes on to lower positions: it reads the slots that end at this position, as far as there is room.
    #[inline]
    pub(crate) fn slot_before(&mut self, root: &Node, at: u32) -> u32
        requires in_list { at < length root.now.slots }
        requires cached { IsRunOf self.old root.now.slots }
        ensures slot { result ≡ slice_index root.now.slots at }
        ensures cached { IsRunOf self.new root.now.slots }
    {
        if at < self.start || (at - self.start) as usize >= self.slots.len() {
            self.read_before(root, at);
        }
        self.slot_at(root, at)
    }

    // Reads the slots from the position on, and returns the first.
    #[inline(never)]
    fn read(&mut self, root: &Node, at: u32) -> u32
        requires in_list { at < length root.now.slots }
        ensures slot { result ≡ slice_index root.now.slots at }
        ensures cached { IsRunOf self.new root.now.slots }
    {
        self.start = at;
        self.slots.clear();
        append(&mut self.slots, root, at)
    }

    // Reads the slots that end at the position, as far as there is room.
    #[inline(never)]
    fn read_before(&mut self, root: &Node, at: u32)
        requires in_list { at < length root.now.slots }
        ensures cached { IsRunOf self.new root.now.slots }
        ensures there { at < self.new.start + length self.new.slots }
    {
        self.start = at.saturating_sub(RUN as u32 - 1);
        self.slots.clear();
        append_through(&mut self.slots, root, self.start, at);
    }
}

// Appends the slots of the tree from one position through another.
fn append_through(slots: &mut ArrayVec<u32, RUN>, root: &Node, start: u32, at: u32)
    requires in_list { at < length root.now.slots }
    requires forward { start ≤ at }
    requires room { at < start + RUN }
    requires none { slots.old.items ≡ [] }

    // afterwards
    ensures read { BeginsWith slots.new.items (drop start root.now.slots) }
    ensures there { at < start + length slots.new.items }
{
    'read: while slots.len() <= (at - start) as usize {
        let next = start + slots.len() as u32;
        append(slots, root, next);
    }
}

// Goes down the tree once, and appends the slots from the position on that there is room for. Returns the first of them.
pub(super) fn append(slots: &mut ArrayVec<u32, RUN>, root: &Node, at: u32) -> u32
    requires in_list { at < length root.now.slots }
    requires room { length slots.old.items < RUN }
    ensures slot { result ≡ slice_index root.now.slots at }
    ensures appended { BeginsWith slots.new.items (slots.old.items ++ drop at root.now.slots) }
    ensures more { length slots.old.items < length slots.new.items }
{
    let mut walk = root.leaves_at(at);
    let slot = walk.next().unwrap();
    slots.push(slot);
    fill(slots, walk);
    slot
}

// Appends the slots of the walk, as far as there is room.
fn fill(slots: &mut ArrayVec<u32, RUN>, mut walk: LeafWalk<'_>)
    ensures appended { BeginsWith slots.new.items (slots.old.items ++ walk.entry) }
    ensures more { length slots.old.items ≤ length slots.new.items }
{
    'fill: while slots.len() < RUN {
        let run = walk.take_run(RUN - slots.len());
        let Ok(()) = slots.try_extend_from_slice(run) else {
            unreachable!()
        };
        if slots.len() == RUN {
            return;
        }
        match walk.next() {
            Some(slot) => slots.push(slot),
            None => return,
        }
    }
}
