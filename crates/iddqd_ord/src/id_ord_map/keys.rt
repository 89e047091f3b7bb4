//! Walks over the keys.
ghost use Rattle.std.specs.Prelude.{◌≡◌, length, map, IfSome};
ghost use Rattle.std.specs.Iterator.{UpTo, YieldsFirstRef, at_most, item_count};
ghost use Rattle.std.specs.Iterator.SizeHint.{IsWithinCount};

use super::{IdOrdMap, Iter};
use iddqd_store::IdOrdItem;
use std::iter::FusedIterator;
use std::marker::Model;

/// References to the keys of a map's items, ascending. A step goes along the index, and compares no keys. Contracts see
/// the keys to come.
#[derive(Drop)]
pub struct Keys<'a, K: Ord + 'a, T: IdOrdItem<Key = K>> {
    items: Iter<'a, T>,
}

impl<'a, K: Ord + 'a, T: IdOrdItem<Key = K>> Model for Keys<'a, K, T> {
    ghost use Rattle.std.specs.Prelude.{List, map};

    ghost Value = { List K };

    ghost view = { λ it. map T.key it.items };
}

impl<'a, K: Ord + 'a, T: IdOrdItem<Key = K>> Iterator for Keys<'a, K, T> {
    type Item = &'a K;

    ghost next_gives = { YieldsFirstRef (λ rest. rest) };

    ghost remaining = { item_count (λ rest. rest) };

    fn next(&mut self) -> Option<&'a K> {
        Some(self.items.next()?.key())
    }

    fn size_hint(&self) -> (usize, Option<usize>)
        ensures exact { result ≡ (length self.now, Some (length self.now)) }
        ensures lower { IsWithinCount result.0 (at_most (length self.now)) }
        ensures upper { IfSome result.1 (UpTo (at_most (length self.now))) }
    {
        let len = self.len();
        (len, Some(len))
    }
}

impl<'a, K: Ord + 'a, T: IdOrdItem<Key = K>> ExactSizeIterator for Keys<'a, K, T> {
    fn len(&self) -> usize {
        self.items.len()
    }
}

impl<'a, K: Ord + 'a, T: IdOrdItem<Key = K>> FusedIterator for Keys<'a, K, T> {}

impl<T: IdOrdItem> IdOrdMap<T> {
    /// Returns a walk over the items' keys, in the order of `iter`. Compares no keys. Does not allocate.
    pub fn keys(&self) -> Keys<'_, T::Key, T>
        ensures { result ≡ map T.key self.now.items }
    {
        Keys { items: self.iter() }
    }
}
