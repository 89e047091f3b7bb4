//! A walk over the slots of an ordered index that is gone, from either end. Contracts see the slots that are still to
//! come.
ghost use Rattle.std.specs.Prelude.{◌≡◌, length, IfSome};
ghost use Rattle.std.specs.Iterator.{UpTo, YieldsFirst, YieldsLast, at_most, item_count};
ghost use Rattle.std.specs.Iterator.SizeHint.{IsWithinCount};

use super::run_cache::RunCache;
use crate::tree::node::Node;
use std::iter::FusedIterator;
use std::marker::Model;

/// The slots of an index that is gone, each once. `next` returns the first of those that are left, `next_back` the
/// last.
#[derive(Drop)]
pub struct IntoWalk {
    root: Node,
    // The slots that `next` and `next_back` have read last.
    front: RunCache,
    back: RunCache,
    next: u32,
    end: u32,
}

impl Model for IntoWalk {
    ghost use Rattle.std.specs.Prelude.{◌≤◌, List, ℕ, drop, length, take};
    ghost use Rattle.iddqd_ord_index.specs.Runs.{IsRunOf};

    ghost Value = { List ℕ };

    ghost view = { λ w. drop w.next (take w.end w.root.slots) };

    ghost invariant = { λ w. (w.next ≤ w.end) × (w.end ≤ length w.root.slots) × IsRunOf w.front w.root.slots × IsRunOf w.back w.root.slots };
}

impl IntoWalk {
    pub(crate) fn new(root: Node, len: u32) -> Self
        requires { len ≡ length root.slots }
        ensures { result ≡ root.slots }
    {
        IntoWalk {
            root,
            front: RunCache::new(),
            back: RunCache::new(),
            next: 0,
            end: len,
        }
    }
}

impl Iterator for IntoWalk {
    type Item = u32;

    ghost next_gives = { YieldsFirst (λ w. w) };

    ghost remaining = { item_count (λ w. w) };

    fn next(&mut self) -> Option<u32> {
        if self.next == self.end {
            return None;
        }
        let slot = self.front.slot_at(&self.root, self.next);
        self.next += 1;
        Some(slot)
    }

    fn size_hint(&self) -> (usize, Option<usize>)
        ensures exact { result ≡ (length self.now, Some (length self.now)) }
        ensures lower { IsWithinCount result.0 (at_most (length self.now)) }
        ensures upper { IfSome result.1 (UpTo (at_most (length self.now))) }
    {
        let len = self.len();
        (len, Some(len))
    }
}

impl DoubleEndedIterator for IntoWalk {
    ghost next_back_gives = { YieldsLast (λ w. w) };

    fn next_back(&mut self) -> Option<u32> {
        if self.end == self.next {
            return None;
        }
        let last = self.end - 1;
        let slot = self.back.slot_before(&self.root, last);
        self.end = last;
        Some(slot)
    }
}

impl ExactSizeIterator for IntoWalk {
    fn len(&self) -> usize {
        (self.end - self.next) as usize
    }
}

impl FusedIterator for IntoWalk {}
