//! A walk over the slots of an ordered index, from either end. Contracts see the slots that are still to come.
ghost use Rattle.std.specs.Prelude.{◌≡◌, ◌+◌, ◌<◌, ◌≤◌, drop, length, slice_index, take, ⊤, IfSome};
ghost use Rattle.iddqd_ord_index.specs.Runs.{BeginsWith, EndsWith};
ghost use Rattle.std.specs.Iterator.{UpTo, YieldsFirst, YieldsLast, at_most, item_count};
ghost use Rattle.std.specs.Iterator.SizeHint.{IsWithinCount};

use crate::tree::node::{LeafWalk, LeafWalkBack, Node};
use std::alloc::AllocError;
use std::iter::FusedIterator;
use std::marker::Model;

/// Slots of an index that stand side by side in its list, each once. `next` returns the first of those that are left,
/// `next_back` the last.
#[derive(Drop)]
pub struct Walk<'a> {
    root: &'a Node,
    // The slots from the next one on that lie below one node. They may go on past the end.
    leaves: LeafWalk<'a>,
    // The slots up to the last one that lie below one node. They may begin before the next one.
    back: LeafWalkBack<'a>,
    next: u32,
    end: u32,
}

impl<'a> Model for Walk<'a> {
    ghost use Rattle.std.specs.Prelude.{List, ℕ, drop, take};
    ghost use Rattle.iddqd_ord_index.specs.Runs.{IsWalkOver};

    ghost Value = { List ℕ };

    ghost view = { λ w. drop w.next (take w.end w.root.now.slots) };

    ghost invariant = { λ w. IsWalkOver w.root.now.slots w.next w.end w.leaves w.back };
}

impl<'a> Walk<'a> {
    // The slots from one position on up to another.
    pub(crate) fn new(root: &'a Node, from: u32, to: u32) -> Self
        requires forward { from ≤ to }
        requires in_list { to ≤ length root.now.slots }
        ensures { result ≡ drop from (take to root.now.slots) }
    {
        Walk::with_leaves(root, LeafWalk::along(&[]), from, to)
    }

    // The same, where a search has gone down to the first of them.
    pub(crate) fn with_leaves(root: &'a Node, leaves: LeafWalk<'a>, from: u32, to: u32) -> Self
        requires forward { from ≤ to }
        requires in_list { to ≤ length root.now.slots }
        requires here { BeginsWith leaves (drop from root.now.slots) }
        ensures { result ≡ drop from (take to root.now.slots) }
    {
        Walk {
            root,
            leaves,
            back: LeafWalkBack::along(&[]),
            next: from,
            end: to,
        }
    }

    /// Keeps the first `len` slots of those that are left. It changes nothing if no more are left.
    #[inline]
    pub fn truncate(&mut self, len: usize)
        ensures { self.new ≡ take len self.old }
    {
        let left = self.end - self.next;
        if len < left as usize {
            self.back = LeafWalkBack::along(&[]);
            self.end = self.next + len as u32;
        }
    }
}

impl Clone for Walk<'_> {
    ghost is_clone = { λ walk clone. clone ≡ walk };

    ghost is_infallible = { λ _. ⊤ };

    fn clone(&self) -> Result<Self, AllocError> {
        Ok(Walk::new(self.root, self.next, self.end))
    }
}

// Returns the slot at the position, at which the leaves go on. It goes down from the root if they are at their end.
#[inline]
fn step<'a>(root: &'a Node, leaves: &mut LeafWalk<'a>, at: u32) -> u32
    requires in_list { at < length root.now.slots }
    requires here { BeginsWith leaves.old (drop at root.now.slots) }
    ensures slot { result ≡ slice_index root.now.slots at }
    ensures there { BeginsWith leaves.new (drop (at + 1) root.now.slots) }
{
    match leaves.next() {
        Some(slot) => slot,
        None => step_down(root, leaves, at),
    }
}

// Goes down to the position: returns its slot, and lets the leaves go on behind it. A function of its own, since the
// compiler clears the room for what a descent returns at the head of the function that it stands in.
#[inline]
fn step_down<'a>(root: &'a Node, leaves: &mut LeafWalk<'a>, at: u32) -> u32
    requires in_list { at < length root.now.slots }
    ensures slot { result ≡ slice_index root.now.slots at }
    ensures there { BeginsWith leaves.new (drop (at + 1) root.now.slots) }
{
    let (slot, behind) = descend(root, at);
    *leaves = behind;
    slot
}

// Returns the slot at the position, and a walk that goes on behind it. By value, so that the caller's walk can stay in registers.
#[inline(never)]
fn descend(root: &Node, at: u32) -> (u32, LeafWalk<'_>)
    requires in_list { at < length root.now.slots }
    ensures slot { result.0 ≡ slice_index root.now.slots at }
    ensures there { BeginsWith result.1 (drop (at + 1) root.now.slots) }
{
    let mut leaves = root.leaves_at(at);
    let slot = leaves.next().unwrap();
    (slot, leaves)
}

// Returns the slot at the position, at which the leaves end. It goes down from the root if they are at their front.
#[inline]
fn step_back<'a>(root: &'a Node, leaves: &mut LeafWalkBack<'a>, at: u32) -> u32
    requires in_list { at < length root.now.slots }
    requires here { EndsWith leaves.old (take (at + 1) root.now.slots) }
    ensures slot { result ≡ slice_index root.now.slots at }
    ensures there { EndsWith leaves.new (take at root.now.slots) }
{
    match leaves.next() {
        Some(slot) => slot,
        None => step_down_back(root, leaves, at),
    }
}

// Goes down to the position: returns its slot, and lets the leaves end before it. Apart for the same reason.
#[inline]
fn step_down_back<'a>(root: &'a Node, leaves: &mut LeafWalkBack<'a>, at: u32) -> u32
    requires in_list { at < length root.now.slots }
    ensures slot { result ≡ slice_index root.now.slots at }
    ensures there { EndsWith leaves.new (take at root.now.slots) }
{
    let (slot, before) = descend_back(root, at);
    *leaves = before;
    slot
}

// Returns the slot at the position, and a walk that goes on before it.
#[inline(never)]
fn descend_back(root: &Node, at: u32) -> (u32, LeafWalkBack<'_>)
    requires in_list { at < length root.now.slots }
    ensures slot { result.0 ≡ slice_index root.now.slots at }
    ensures there { EndsWith result.1 (take at root.now.slots) }
{
    let mut leaves = root.leaves_before(at);
    let slot = leaves.next().unwrap();
    (slot, leaves)
}

impl Iterator for Walk<'_> {
    type Item = u32;

    ghost next_gives = { YieldsFirst (λ w. w) };

    ghost remaining = { item_count (λ w. w) };

    #[inline]
    fn next(&mut self) -> Option<u32> {
        if self.next == self.end {
            return None;
        }
        let slot = step(self.root, &mut self.leaves, self.next);
        self.next += 1;
        Some(slot)
    }

    fn size_hint(&self) -> (usize, Option<usize>)
        ensures exact { result ≡ (length self.now, Some (length self.now)) }
        ensures lower { IsWithinCount result.0 (at_most (length self.now)) }
        ensures upper { IfSome result.1 (UpTo (at_most (length self.now))) }
    {
        let len = self.len();
        (len, Some(len))
    }
}

impl DoubleEndedIterator for Walk<'_> {
    ghost next_back_gives = { YieldsLast (λ w. w) };

    #[inline]
    fn next_back(&mut self) -> Option<u32> {
        if self.end == self.next {
            return None;
        }
        let last = self.end - 1;
        let slot = step_back(self.root, &mut self.back, last);
        self.end = last;
        Some(slot)
    }
}

impl ExactSizeIterator for Walk<'_> {
    fn len(&self) -> usize {
        (self.end - self.next) as usize
    }
}

impl FusedIterator for Walk<'_> {}
