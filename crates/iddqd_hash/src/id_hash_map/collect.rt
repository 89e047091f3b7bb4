//! Many items at once, from an iterator.
ghost use Rattle.std.specs.Prelude.{IfOk, IfErr, OnOk};
ghost use Rattle.std.specs.Iterator.{IsFiniteIterable as IsFinite};
ghost use Rattle.iddqd_store.specs.Collecting.{ShowsAkin, ShowsFirstRepeat};
ghost use Rattle.iddqd_store.specs.Contents.{IsAbsent};

use super::{IdHashMap, Keyed};
use iddqd_store::{
    DuplicateItem, ExtendError, Few, FromIterError, Gives, IdHashItem, TryReserveError,
    room_to_reserve,
};
use std::alloc::Global;
use std::hash::BuildHasher;

impl<T: IdHashItem, S: BuildHasher> IdHashMap<T, S> {
    ghost use Rattle.iddqd_hash.specs.HashMap.{Collects, CollectsUnique, Extends, HashFills, HashInserts, IsCollected, KeepsIfNoItem, SpareFirst, Stops};

    /// Inserts the items one after the other. Each replaces the one of an equal key. This is no `Extend`, which cannot
    /// refuse. Room is reserved before an item is asked for. An empty map reserves for the lower bound of the
    /// iterator's `size_hint`, and a map with items for half of that, rounded up. If that is refused, the error has no
    /// item, and the items are as they were. Else the first item that is refused is returned, those before it stay, and
    /// the rest of the iterator is dropped. As many new keys as were spare are accepted before that. A wrong
    /// `size_hint` costs at most a refusal or memory. Hashes each item's key once and searches once for it.
    pub fn extend<U: IntoIterator<Item = T>>(&mut self, iter: U) -> Result<(), ExtendError<T>>
    where
        T: Drop,
        requires keyed { ⟦<Self as Keyed>⟧.keyed self.old }
        requires ends { IsFinite U.into_iter_gives U.IntoIter.can_next U.IntoIter.remaining iter }

        // on success
        ensures taken { OnOk result (Extends T.key T.Key.eq ⟦<U as Gives>⟧ iter self.old self.new) }

        // on refusal
        ensures stops { IfErr result (Stops T.key T.Key.eq ⟦<U as Gives>⟧ iter self.old self.new) }
        ensures spare_first { IfErr result (SpareFirst self.old self.new) }
        ensures not_begun { IfErr result (KeepsIfNoItem ⟦<Self as Keyed>⟧.keyed self.old self.new) }

        // either way
        ensures fills { HashFills ⟦<Self as Keyed>⟧.keyed self.old self.new }
    {
        let items = iter.into_iter();
        let room = room_to_reserve(self.len(), items.size_hint().0);
        if let Err(error) = self.reserve(room) {
            return Err(ExtendError { item: None, error });
        }
        for item in items {
            match self.insert_overwrite(item) {
                Ok(replaced) => drop(replaced),
                Err(refused) => {
                    return Err(ExtendError {
                        item: Some(refused.item),
                        error: refused.error,
                    });
                }
            }
        }
        Ok(())
    }

    /// Returns a map of the iterator's items, as `extend` inserts them into an empty one. Its hasher is that of
    /// `S::default`. Of equal keys the last item stays. If room is refused, what was collected is dropped. This is no
    /// `FromIterator`, which cannot refuse.
    pub fn from_iter<U: IntoIterator<Item = T>>(
        alloc: Global,
        iter: U,
    ) -> Result<Self, TryReserveError>
    where
        T: Drop,
        S: Default + Drop,
        requires ends { IsFinite U.into_iter_gives U.IntoIter.can_next U.IntoIter.remaining iter }
        ensures items { IfOk result (Collects T.key T.Key.eq ⟦<U as Gives>⟧ iter) }
        ensures collected { IfOk result (IsCollected ⟦<Self as Keyed>⟧.keyed S.is_default) }
    {
        let mut map = IdHashMap::with_hasher(alloc, S::default());
        match map.extend(iter) {
            Ok(()) => Ok(map),
            Err(stopped) => Err(stopped.error),
        }
    }

    /// Returns a map of the iterator's items, if no two have equal keys. Its hasher is that of `S::default`. It stops
    /// at the first item whose key came before, and returns it as the new one beside the earlier one, which is removed.
    /// Room for the lower bound of the iterator's `size_hint` is reserved before an item is asked for. After an error
    /// all else that was collected is dropped, and so is the rest of the iterator. Hashes each item's key once and
    /// searches once for it.
    pub fn from_iter_unique<U: IntoIterator<Item = T>>(
        alloc: Global,
        iter: U,
    ) -> Result<Self, FromIterError<T>>
    where
        T: Drop,
        S: Default + Drop,
        requires ends { IsFinite U.into_iter_gives U.IntoIter.can_next U.IntoIter.remaining iter }
        ensures items { IfOk result (CollectsUnique T.key T.Key.eq ⟦<U as Gives>⟧ iter) }
        ensures repeat { IfErr result (ShowsFirstRepeat T.key T.Key.eq ⟦<U as Gives>⟧ iter) }
        ensures collected { IfOk result (IsCollected ⟦<Self as Keyed>⟧.keyed S.is_default) }
    {
        let items = iter.into_iter();
        let announced = items.size_hint().0;
        let mut map = match IdHashMap::with_capacity_and_hasher(alloc, announced, S::default()) {
            Ok(map) => map,
            Err(error) => return Err(FromIterError::Refused(error)),
        };
        for item in items {
            map.insert_or_remove(item)?;
        }
        Ok(map)
    }

    // Inserts the item if no item has an equal key. Else it removes that one and returns both.
    fn insert_or_remove(&mut self, item: T) -> Result<(), FromIterError<T>>
    where
        T: Drop,
        requires keyed { ⟦<Self as Keyed>⟧.keyed self.old }
        ensures inserted { OnOk result (HashInserts ⟦<Self as Keyed>⟧.keyed item self.old self.new) }
        ensures absent { OnOk result (IsAbsent T.key (T.Key.eq (T.key item)) self.old.items) }
        ensures akin { IfErr result (ShowsAkin T.key T.Key.eq self.old.items item) }
    {
        let hash = self.hasher.hash_one(item.key());
        match self.slot_of_equal(hash, &item) {
            Some(slot) => {
                let earlier = Few::One(self.take_hashed(hash, slot));
                Err(FromIterError::Duplicate(DuplicateItem::internal_new(item, earlier)))
            }
            None => match self.insert_hashed(hash, item) {
                Ok(_) => Ok(()),
                Err(refused) => Err(FromIterError::Refused(refused.error)),
            },
        }
    }
}
