//! A reading walk over the slots of a store. Contracts see the items to come.
ghost use Rattle.std.specs.Prelude.{◌≡◌, ◌≤◌, length, IfSome, None};
ghost use Rattle.std.specs.Iterator.{UpTo, YieldsFirstRef, at_most, item_count};
ghost use Rattle.std.specs.Iterator.SizeHint.{IsWithinCount};

use iddqd_store::{ItemStore, Items};
use std::iter::FusedIterator;
use std::marker::Model;

/// References to the items of a map, in no particular order. The whole walk looks at each slot once, and compares no
/// keys.
#[derive(Drop)]
pub struct Iter<'a, T> {
    items: Items<'a, T>,
    // The number of items to come.
    left: usize,
}

impl<'a, T> Model for Iter<'a, T> {
    ghost use Rattle.std.specs.Prelude.{◌≡◌, List, length};

    ghost Value = { List T };

    ghost view = { λ it. it.items };

    ghost invariant = { λ it. it.left ≡ length it.items };
}

impl<'a, T> Iter<'a, T> {
    ghost use Rattle.iddqd_hash_parts.specs.StoreAndIndex.{items_in};

    /// Returns a walk over the items of the store. It looks at vacant slots too. Does not allocate.
    #[inline]
    pub fn over(store: &'a ItemStore<T>) -> Self
        ensures items { result ≡ items_in store.now }
        ensures fits { length result ≤ u32.MAX }
    {
        Iter {
            items: store.items(),
            left: store.len(),
        }
    }
}

impl<'a, T> Iterator for Iter<'a, T> {
    type Item = &'a T;

    ghost next_gives = { YieldsFirstRef (λ rest. rest) };

    ghost remaining = { item_count (λ rest. rest) };

    #[inline]
    fn next(&mut self) -> Option<&'a T> {
        let item = self.items.next()?;
        self.left -= 1;
        Some(item)
    }

    fn size_hint(&self) -> (usize, Option<usize>)
        ensures exact { result ≡ (length self.now, Some (length self.now)) }
        ensures lower { IsWithinCount result.0 (at_most (length self.now)) }
        ensures upper { IfSome result.1 (UpTo (at_most (length self.now))) }
    {
        (self.left, Some(self.left))
    }
}

impl<'a, T> ExactSizeIterator for Iter<'a, T> {
    fn len(&self) -> usize {
        self.left
    }
}

impl<'a, T> FusedIterator for Iter<'a, T> {}
