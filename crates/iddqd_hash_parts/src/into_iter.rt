//! The items of a consumed store. Contracts see the items to come.
ghost use Rattle.std.specs.Prelude.{◌≡◌, length, IfSome};
ghost use Rattle.std.specs.Iterator.{UpTo, YieldsFirst, at_most, item_count};
ghost use Rattle.std.specs.Iterator.SizeHint.{IsWithinCount};

use iddqd_store::{IntoItems, ItemStore};
use std::iter::FusedIterator;
use std::marker::Model;

/// The items of a consumed map, in no particular order. All steps together look at every slot once. It drops the items
/// that it has not returned.
#[derive(Drop)]
pub struct IntoIter<T> {
    items: IntoItems<T>,
    // The number of items to come.
    left: usize,
}

impl<T> Model for IntoIter<T> {
    ghost use Rattle.std.specs.Prelude.{◌≡◌, List, length};

    ghost Value = { List T };

    ghost view = { λ it. it.items };

    ghost invariant = { λ it. it.left ≡ length it.items };
}

impl<T> IntoIter<T> {
    ghost use Rattle.iddqd_hash_parts.specs.StoreAndIndex.{items_in};

    /// Returns the items of the store, one after the other. Does not allocate.
    #[inline]
    pub fn over(store: ItemStore<T>) -> Self
        ensures { result ≡ items_in store }
    {
        IntoIter {
            left: store.len(),
            items: store.into_items(),
        }
    }
}

impl<T: Drop> Iterator for IntoIter<T> {
    type Item = T;

    ghost next_gives = { YieldsFirst (λ rest. rest) };

    ghost remaining = { item_count (λ rest. rest) };

    #[inline]
    fn next(&mut self) -> Option<T> {
        let item = self.items.next()?;
        self.left -= 1;
        Some(item)
    }

    fn size_hint(&self) -> (usize, Option<usize>)
        ensures exact { result ≡ (length self.now, Some (length self.now)) }
        ensures lower { IsWithinCount result.0 (at_most (length self.now)) }
        ensures upper { IfSome result.1 (UpTo (at_most (length self.now))) }
    {
        (self.left, Some(self.left))
    }
}

impl<T: Drop> ExactSizeIterator for IntoIter<T> {
    fn len(&self) -> usize {
        self.left
    }
}

impl<T: Drop> FusedIterator for IntoIter<T> {}
