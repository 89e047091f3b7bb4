//! Many items at once, from an iterator.
ghost use Rattle.std.specs.Prelude.{IfOk, IfErr, OnOk};
ghost use Rattle.std.specs.Iterator.{IsFiniteIterable as IsFinite};
ghost use Rattle.iddqd_bi_hash.specs.Collecting.{Collects, CollectsUnique, Extends, IsCollected, IsNewMap, ShowsFirstRepeat, ShowsMet, Stops};

use super::{BiHashMap, Keyed};
use crate::both::Both;
use crate::items::BiHashItem;
use iddqd_store::{
    DuplicateItem, ExtendError, FromIterError, Gives, TryReserveError, room_to_reserve,
};
use std::alloc::Global;
use std::hash::BuildHasher;

impl<T: BiHashItem, S: BuildHasher> BiHashMap<T, S> {
    ghost use Rattle.iddqd_bi_hash.specs.BiHashMap.{BiInserts, BiRefills, KeepsIfNoItem, SpareFirst};

    /// Inserts the items one after the other. Each replaces the one or two that have one of its keys, and these are
    /// dropped. This is no `Extend`, which cannot refuse. Room is reserved before an item is asked for. An empty map
    /// reserves for the lower bound of the iterator's `size_hint`, and a map with items for half of that, rounded up. If
    /// that is refused, the error has no item, and the items are as they were. Else the first item that is refused is
    /// returned, those before it stay, and the rest of the iterator is dropped. As many items with new keys as were
    /// spare are accepted before that. A wrong `size_hint` costs at most a refusal or memory. Hashes each key once, and
    /// searches once by each. Hashes the other key of each replaced item once.
    pub fn extend<U: IntoIterator<Item = T>>(&mut self, iter: U) -> Result<(), ExtendError<T>>
    where
        T: Drop,
        requires keyed { ⟦<Self as Keyed>⟧.keyed self.old }
        requires ends { IsFinite U.into_iter_gives U.IntoIter.can_next U.IntoIter.remaining iter }

        // on success
        ensures taken { OnOk result (Extends ⟦<T as Both>⟧ ⟦<U as Gives>⟧ iter self.old self.new) }

        // on refusal
        ensures stops { IfErr result (Stops ⟦<T as Both>⟧ ⟦<U as Gives>⟧ iter self.old self.new) }
        ensures spare_first { IfErr result (SpareFirst self.old self.new) }
        ensures not_begun { IfErr result (KeepsIfNoItem ⟦<Self as Keyed>⟧.keyed self.old self.new) }

        // either way
        ensures fills { BiRefills ⟦<Self as Keyed>⟧.keyed self.old self.new }
    {
        let items = iter.into_iter();
        let room = room_to_reserve(self.len(), items.size_hint().0);
        if let Err(error) = self.reserve(room) {
            return Err(ExtendError { item: None, error });
        }
        for item in items {
            match self.insert_overwrite(item) {
                Ok(replaced) => drop(replaced),
                Err(refused) => {
                    return Err(ExtendError {
                        item: Some(refused.item),
                        error: refused.error,
                    });
                }
            }
        }
        Ok(())
    }

    /// Returns a map of the iterator's items, as `extend` inserts them into an empty one. Its hasher is that of
    /// `S::default`. Of items that have a key in common the last stays. If room is refused, what was collected is
    /// dropped. This is no `FromIterator`, which cannot refuse.
    pub fn from_iter<U: IntoIterator<Item = T>>(
        alloc: Global,
        iter: U,
    ) -> Result<Self, TryReserveError>
    where
        T: Drop,
        S: Default + Drop,
        requires ends { IsFinite U.into_iter_gives U.IntoIter.can_next U.IntoIter.remaining iter }
        ensures items { IfOk result (Collects ⟦<T as Both>⟧ ⟦<U as Gives>⟧ iter) }
        ensures collected { IfOk result (IsNewMap ⟦<Self as Keyed>⟧.keyed S.is_default) }
    {
        let mut map = BiHashMap::with_hasher(alloc, S::default());
        match map.extend(iter) {
            Ok(()) => Ok(map),
            Err(stopped) => Err(stopped.error),
        }
    }

    /// Returns a map of the iterator's items, if no two have equal first keys or equal second keys. Its hasher is that
    /// of `S::default`. It stops at the first item that has a key of an earlier one. Its error has that item and the
    /// one or two earlier ones, that of the first key first. Room for the lower bound of the iterator's `size_hint` is
    /// reserved before an item is asked for. After an error all else that was collected is dropped, and so is the rest
    /// of the iterator. Hashes each key once, and searches once by each. At a repeat it hashes the other key of each
    /// earlier item too.
    pub fn from_iter_unique<U: IntoIterator<Item = T>>(
        alloc: Global,
        iter: U,
    ) -> Result<Self, FromIterError<T>>
    where
        T: Drop,
        S: Default + Drop,
        requires ends { IsFinite U.into_iter_gives U.IntoIter.can_next U.IntoIter.remaining iter }
        ensures items { IfOk result (CollectsUnique ⟦<T as Both>⟧ ⟦<U as Gives>⟧ iter) }
        ensures repeat { IfErr result (ShowsFirstRepeat ⟦<T as Both>⟧ ⟦<U as Gives>⟧ iter) }
        ensures collected { IfOk result (IsCollected ⟦<Self as Keyed>⟧.keyed S.is_default) }
    {
        let items = iter.into_iter();
        let announced = items.size_hint().0;
        let mut map = match BiHashMap::with_capacity_and_hasher(alloc, announced, S::default()) {
            Ok(map) => map,
            Err(error) => return Err(FromIterError::Refused(error)),
        };
        for item in items {
            map.insert_or_remove(item)?;
        }
        Ok(map)
    }

    // Inserts the item if no item has one of its keys. Else it removes those and returns all.
    fn insert_or_remove(&mut self, item: T) -> Result<(), FromIterError<T>>
    where
        T: Drop,
        requires keyed { ⟦<Self as Keyed>⟧.keyed self.old }
        ensures inserted { OnOk result (BiInserts ⟦<Self as Keyed>⟧.keyed item self.old self.new) }
        ensures met { IfErr result (ShowsMet ⟦<T as Both>⟧ self.old.items item) }
    {
        let hash1 = self.hasher.hash_one(item.key1());
        let hash2 = self.hasher.hash_one(item.key2());
        match self.remove_met(hash1, hash2, &item) {
            Some(earlier) => Err(FromIterError::Duplicate(DuplicateItem::internal_new(
                item, earlier,
            ))),
            None => match self.insert_hashed(hash1, hash2, item) {
                Ok(_) => Ok(()),
                Err(refused) => Err(FromIterError::Refused(refused.error)),
            },
        }
    }
}
