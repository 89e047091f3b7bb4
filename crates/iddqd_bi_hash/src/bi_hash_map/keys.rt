//! Walks over the first keys, or over the second.
ghost use Rattle.std.specs.Prelude.{◌≡◌, length, map, IfSome};
ghost use Rattle.std.specs.Iterator.{UpTo, YieldsFirstRef, at_most, item_count};
ghost use Rattle.std.specs.Iterator.SizeHint.{IsWithinCount};

use super::by_key::{First, Second};
use super::{BiHashMap, Iter};
use crate::items::BiHashItem;
use iddqd_store::KeyOf;
use std::iter::FusedIterator;
use std::marker::{Model, PhantomData};

/// References to one key of each of a map's items, in the order of `iter`: the key that `By` names. The whole walk looks
/// at each slot once, and compares no keys. Contracts see the keys to come.
#[derive(Drop)]
pub struct Keys<'a, K: Eq + 'a, T, By: KeyOf<T, Key = K>> {
    items: Iter<'a, T>,
    by: PhantomData<By>,
}

impl<'a, K: Eq + 'a, T, By: KeyOf<T, Key = K>> Model for Keys<'a, K, T, By> {
    ghost use Rattle.std.specs.Prelude.{List, map};

    ghost Value = { List K };

    ghost view = { λ it. map By.key it.items };
}

impl<'a, K: Eq + 'a, T, By: KeyOf<T, Key = K>> Iterator for Keys<'a, K, T, By> {
    type Item = &'a K;

    ghost next_gives = { YieldsFirstRef (λ rest. rest) };

    ghost remaining = { item_count (λ rest. rest) };

    fn next(&mut self) -> Option<&'a K> {
        Some(By::key_of(self.items.next()?))
    }

    fn size_hint(&self) -> (usize, Option<usize>)
        ensures exact { result ≡ (length self.now, Some (length self.now)) }
        ensures lower { IsWithinCount result.0 (at_most (length self.now)) }
        ensures upper { IfSome result.1 (UpTo (at_most (length self.now))) }
    {
        let len = self.len();
        (len, Some(len))
    }
}

impl<'a, K: Eq + 'a, T, By: KeyOf<T, Key = K>> ExactSizeIterator for Keys<'a, K, T, By> {
    fn len(&self) -> usize {
        self.items.len()
    }
}

impl<'a, K: Eq + 'a, T, By: KeyOf<T, Key = K>> FusedIterator for Keys<'a, K, T, By> {}

impl<T: BiHashItem, S> BiHashMap<T, S> {
    /// Returns a walk over the items' first keys, in the order of `iter`. Compares no keys. Does not allocate.
    pub fn keys1(&self) -> Keys<'_, T::K1, T, First>
        ensures { result ≡ map T.key1 self.now.items }
    {
        self.keys_by::<First>()
    }

    /// Returns a walk over the items' second keys, in the order of `iter`. Compares no keys. Does not allocate.
    pub fn keys2(&self) -> Keys<'_, T::K2, T, Second>
        ensures { result ≡ map T.key2 self.now.items }
    {
        self.keys_by::<Second>()
    }

    // Returns a walk over the keys that `By` names.
    fn keys_by<By: KeyOf<T>>(&self) -> Keys<'_, By::Key, T, By>
        ensures { result ≡ map By.key self.now.items }
    {
        Keys {
            items: self.iter(),
            by: PhantomData,
        }
    }
}
