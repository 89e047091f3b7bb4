//! The difference of two ordered maps, in the order of the keys.
ghost use Rattle.std.specs.Prelude.{◌≡◌, IfNone, IfSome, length};
ghost use Rattle.std.specs.List.Sorted.{IsStrictlySortedBy};
ghost use Rattle.std.specs.Iterator.{UpTo, YieldsFirstBy, at_most, item_count};
ghost use Rattle.std.specs.Iterator.SizeHint.{IsWithinCount};
ghost use Rattle.iddqd.specs.Contents.{Ascends};
ghost use Rattle.iddqd.specs.Counting.{CountsAtMost};
ghost use Rattle.iddqd_diff.specs.Difference.{shown};

use super::peeked::Peeked;
use crate::diffable::Diffable;
use crate::difference::Difference;
use iddqd::{IdOrdItem, IdOrdMap, Steps};
use std::cmp::Ordering;
use std::iter::FusedIterator;
use std::marker::Model;

/// The differences of two ordered maps, in ascending order of the keys. A step makes at most one comparison, so the
/// whole walk makes at most one for each item of either map. Does not allocate. Contracts see the differences to come.
#[derive(Drop)]
pub struct Diff<'o, 'n, T: IdOrdItem> {
    before: Peeked<'o, T>,
    after: Peeked<'n, T>,
}

impl<'o, 'n, T: IdOrdItem> Model for Diff<'o, 'n, T> {
    ghost use Rattle.std.specs.Prelude.{List};
    ghost use Rattle.iddqd_diff.specs.declared.difference.Difference.{Difference};
    ghost use Rattle.iddqd_diff.specs.Walks.{merged};

    ghost Value = { List (Difference T T) };

    ghost view = { λ d. merged T.key T.Key.cmp d.before d.after };
}

impl<'o, 'n, T: IdOrdItem> Diffable<&'n IdOrdMap<T>> for &'o IdOrdMap<T> {
    type Item = T;

    type Key = T::Key;

    type Diff = Diff<'o, 'n, T>;

    ghost key = { T.key };

    ghost old_items = { λ map. map.now.items };

    ghost new_items = { λ map. map.now.items };

    ghost are_keyed = { λ before after. Ascends T.key T.Key.cmp before.now.items
        × Ascends T.key T.Key.cmp after.now.items };

    ghost to_come = { λ rest. rest };

    ghost same_items = { λ xs ys. xs ≡ ys };

    ghost in_order = { IsStrictlySortedBy T.Key.cmp };

    fn diff(self, after: &'n IdOrdMap<T>) -> Diff<'o, 'n, T> {
        Diff {
            before: Peeked::over(self.iter()),
            after: Peeked::over(after.iter()),
        }
    }
}

impl<'o, 'n, T: IdOrdItem> Diff<'o, 'n, T> {
    /// As `next`, with the comparisons counted: at most one, and none at the end.
    pub fn next_counted(&mut self, steps: &mut Steps) -> Option<Difference<&'o T, &'n T>>
        ensures gives { YieldsFirstBy shown (λ rest. rest) self.old result self.new }

        // what it costs
        ensures steps { CountsAtMost steps.old steps.new 1 }
        ensures none { IfNone result (steps.new ≡ steps.old) }
    {
        let Some(old) = self.before.peek() else {
            let new = self.after.peek()?;
            self.after.advance();
            return Some(Difference::Added(new));
        };
        let Some(new) = self.after.peek() else {
            self.before.advance();
            return Some(Difference::Removed(old));
        };
        match steps.compare(old.key(), new.key()) {
            Ordering::Less => {
                self.before.advance();
                Some(Difference::Removed(old))
            }
            Ordering::Greater => {
                self.after.advance();
                Some(Difference::Added(new))
            }
            Ordering::Equal => {
                self.before.advance();
                self.after.advance();
                Some(Difference::Kept(old, new))
            }
        }
    }
}

impl<'o, 'n, T: IdOrdItem> Iterator for Diff<'o, 'n, T> {
    type Item = Difference<&'o T, &'n T>;

    ghost next_gives = { YieldsFirstBy shown (λ rest. rest) };

    ghost remaining = { item_count (λ rest. rest) };

    fn next(&mut self) -> Option<Difference<&'o T, &'n T>> {
        self.next_counted(&mut Steps::new())
    }

    fn size_hint(&self) -> (usize, Option<usize>)
        ensures lower { IsWithinCount result.0 (at_most (length self.now)) }
        ensures upper { IfSome result.1 (UpTo (at_most (length self.now))) }
    {
        let old = self.before.len();
        let new = self.after.len();
        (old.max(new), Some(old + new))
    }
}

impl<'o, 'n, T: IdOrdItem> FusedIterator for Diff<'o, 'n, T> {}
