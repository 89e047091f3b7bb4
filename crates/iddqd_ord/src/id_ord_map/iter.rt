//! Reading walks, in ascending order of the keys. Contracts see the items that are still to come.
ghost use Rattle.std.specs.Prelude.{◌≡◌, ◌≤◌, drop, length, take, ⊤, IfSome};
ghost use Rattle.std.specs.Iterator.{UpTo, YieldsFirstRef, YieldsLastRef, at_most, item_count};
ghost use Rattle.std.specs.Iterator.SizeHint.{IsWithinCount};
ghost use Rattle.iddqd_ord.specs.Ranges.{WalksPart};

use super::IdOrdMap;
use iddqd_ord_index::Walk;
use iddqd_store::ItemStore;
use std::alloc::AllocError;
use std::iter::FusedIterator;
use std::marker::Model;

/// Items of a map that stand side by side in the order of their keys. `next` lends the first of those that are left,
/// `next_back` the last. Both read several slots of the index at a time, and compare no keys.
#[derive(Drop)]
pub struct Iter<'a, T> {
    pub(super) store: &'a ItemStore<T>,
    pub(super) walk: Walk<'a>,
}

impl<'a, T> Model for Iter<'a, T> {
    ghost use Rattle.std.specs.Prelude.{List};
    ghost use Rattle.iddqd_ord_index.specs.Listed.{listed_items, AreOccupied};

    ghost Value = { List T };

    ghost view = { λ it. listed_items it.store.now it.walk };

    ghost invariant = { λ it. AreOccupied it.store.now it.walk };
}

impl<'a, T> Clone for Iter<'a, T> {
    ghost is_clone = { λ iter clone. clone ≡ iter };

    ghost is_infallible = { λ _. ⊤ };

    fn clone(&self) -> Result<Self, AllocError> {
        Ok(Iter {
            store: self.store,
            walk: self.walk.clone()?,
        })
    }
}

impl<'a, T> Iterator for Iter<'a, T> {
    type Item = &'a T;

    ghost next_gives = { YieldsFirstRef (λ rest. rest) };

    ghost remaining = { item_count (λ rest. rest) };

    #[inline]
    fn next(&mut self) -> Option<&'a T> {
        let slot = self.walk.next()?;
        self.store.get(slot)
    }

    fn size_hint(&self) -> (usize, Option<usize>)
        ensures exact { result ≡ (length self.now, Some (length self.now)) }
        ensures lower { IsWithinCount result.0 (at_most (length self.now)) }
        ensures upper { IfSome result.1 (UpTo (at_most (length self.now))) }
    {
        let len = self.len();
        (len, Some(len))
    }
}

impl<'a, T> DoubleEndedIterator for Iter<'a, T> {
    ghost next_back_gives = { YieldsLastRef (λ rest. rest) };

    fn next_back(&mut self) -> Option<&'a T> {
        let last = self.walk.next_back()?;
        self.store.get(last)
    }
}

impl<'a, T> ExactSizeIterator for Iter<'a, T> {
    fn len(&self) -> usize {
        self.walk.len()
    }
}

impl<'a, T> FusedIterator for Iter<'a, T> {}

impl<T> IdOrdMap<T> {
    /// Returns the items in ascending order of their keys. Does not allocate, and the whole walk looks at each slot of
    /// the index once.
    pub fn iter(&self) -> Iter<'_, T>
        ensures items { result ≡ self.now.items }
        ensures fits { length result ≤ u32.MAX }
    {
        Iter {
            store: &self.store,
            walk: self.index.walk(),
        }
    }

    // Returns the items from one position on up to another. There are none if the second is not behind the first.
    pub(super) fn iter_between(&self, low: usize, high: usize) -> Iter<'_, T>
        requires low_in_list { low ≤ length self.now.items }
        requires high_in_list { high ≤ length self.now.items }
        ensures items { result ≡ drop low (take high self.now.items) }
        ensures part { WalksPart result self.now.items }
    {
        let from = self.index.place(low);
        let to = self.index.place(high.max(low));
        Iter {
            store: &self.store,
            walk: self.index.walk_between(from, to),
        }
    }
}

impl<'a, T> IntoIterator for &'a IdOrdMap<T> {
    type Item = &'a T;

    type IntoIter = Iter<'a, T>;

    ghost into_iter_gives = { λ map it. it ≡ map.now.items };

    fn into_iter(self) -> Iter<'a, T> {
        self.iter()
    }
}
