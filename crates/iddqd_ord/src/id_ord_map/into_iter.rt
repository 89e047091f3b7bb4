//! The items of a map that was consumed, in ascending order of the keys. Contracts see the items that are still to
//! come.
ghost use Rattle.std.specs.Prelude.{◌≡◌, length, IfSome};
ghost use Rattle.std.specs.Iterator.{UpTo, YieldsFirst, YieldsLast, at_most, item_count};
ghost use Rattle.std.specs.Iterator.SizeHint.{IsWithinCount};

use super::IdOrdMap;
use iddqd_ord_index::IntoWalk;
use iddqd_store::ItemStore;
use std::iter::FusedIterator;
use std::marker::Model;

/// The items of a map that was consumed, in ascending order of their keys. A walk goes down the index once for several
/// items, from either end. It compares no keys. Items that were not returned are dropped with it.
#[derive(Drop)]
pub struct IntoIter<T> {
    store: ItemStore<T>,
    walk: IntoWalk,
}

impl<T> Model for IntoIter<T> {
    ghost use Rattle.std.specs.Prelude.{List, nat_eq};
    ghost use Rattle.std.specs.List.{IsDistinct};
    ghost use Rattle.iddqd_ord_index.specs.Listed.{listed_items, AreOccupied};

    ghost Value = { List T };

    ghost view = { λ it. listed_items it.store it.walk };

    ghost invariant = { λ it. AreOccupied it.store it.walk × IsDistinct nat_eq it.walk };
}

impl<T: Drop> Iterator for IntoIter<T> {
    type Item = T;

    ghost next_gives = { YieldsFirst (λ rest. rest) };

    ghost remaining = { item_count (λ rest. rest) };

    #[inline]
    fn next(&mut self) -> Option<T> {
        let slot = self.walk.next()?;
        Some(self.store.remove(slot))
    }

    fn size_hint(&self) -> (usize, Option<usize>)
        ensures exact { result ≡ (length self.now, Some (length self.now)) }
        ensures lower { IsWithinCount result.0 (at_most (length self.now)) }
        ensures upper { IfSome result.1 (UpTo (at_most (length self.now))) }
    {
        let len = self.len();
        (len, Some(len))
    }
}

impl<T: Drop> DoubleEndedIterator for IntoIter<T> {
    ghost next_back_gives = { YieldsLast (λ rest. rest) };

    fn next_back(&mut self) -> Option<T> {
        let last = self.walk.next_back()?;
        Some(self.store.remove(last))
    }
}

impl<T: Drop> ExactSizeIterator for IntoIter<T> {
    fn len(&self) -> usize {
        self.walk.len()
    }
}

impl<T: Drop> FusedIterator for IntoIter<T> {}

impl<T: Drop> IntoIterator for IdOrdMap<T> {
    type Item = T;

    type IntoIter = IntoIter<T>;

    ghost into_iter_gives = { λ map it. it ≡ map.items };

    fn into_iter(self) -> IntoIter<T> {
        let IdOrdMap {
            store,
            index,
            done: _,
        } = self;
        IntoIter {
            store,
            walk: index.into_walk(),
        }
    }
}
