//! Many items at once, from an iterator.
ghost use Rattle.std.specs.Prelude.{◌≡◌, IfOk, IfErr, OnOk};
ghost use Rattle.std.specs.Iterator.{IsFiniteIterable as IsFinite};
ghost use Rattle.iddqd_store.specs.Collecting.{Collects, CollectsUnique, Extends, ShowsAkin, ShowsFirstRepeat};
ghost use Rattle.iddqd_store.specs.Contents.{Ascends, IsAbsent};
ghost use Rattle.iddqd_store.specs.Holding.{FillsSlots};

use super::IdOrdMap;
use iddqd_store::{
    DuplicateItem, ExtendError, Few, FromIterError, Gives, IdOrdItem, MAX_ITEMS, NotInserted,
    Steps, TryReserveError, room_to_reserve,
};
use std::alloc::Global;

impl<T: IdOrdItem> IdOrdMap<T> {
    ghost use Rattle.iddqd_ord.specs.OrdMap.{OrdInserts, StopsInserting as Stops};

    /// Inserts the items one after the other. Each replaces the one of an equal key. This is no `Extend`, which cannot
    /// refuse. Room in the store is reserved before an item is asked for. An empty map reserves for the lower bound of
    /// the iterator's `size_hint`, and a map with items for half of that, rounded up. If that is refused, the error has
    /// no item, and the items are as they were. Else the first item that is refused is returned, those before it stay,
    /// and the rest of the iterator is dropped. A wrong `size_hint` costs at most a refusal or memory. It makes as many
    /// comparisons as that many calls of `insert_overwrite`.
    pub fn extend<U: IntoIterator<Item = T>>(&mut self, iter: U) -> Result<(), ExtendError<T>>
    where
        T: Drop,
        requires keyed { Ascends T.key T.Key.cmp self.old.items }
        requires ends { IsFinite U.into_iter_gives U.IntoIter.can_next U.IntoIter.remaining iter }

        // on success
        ensures taken { OnOk result (Extends T.key T.Key.eq ⟦<U as Gives>⟧ iter self.old self.new) }

        // on refusal
        ensures stops { IfErr result (Stops T.key T.Key.eq ⟦<U as Gives>⟧ iter self.old self.new) }

        // either way
        ensures fills { FillsSlots self.old self.new }
        ensures keyed { Ascends T.key T.Key.cmp self.new.items }
    {
        let items = iter.into_iter();
        let room = room_to_reserve(self.len(), items.size_hint().0);
        if let Err(error) = self.reserve(room) {
            return Err(ExtendError { item: None, error });
        }
        for item in items {
            match self.insert_overwrite(item) {
                Ok(replaced) => drop(replaced),
                Err(refused) => {
                    return Err(ExtendError {
                        item: Some(refused.item),
                        error: refused.error,
                    });
                }
            }
        }
        Ok(())
    }

    /// Returns a map of the iterator's items, as `extend` inserts them into an empty one. Of equal keys the last item
    /// stays. If room is refused, what was collected is dropped. This is no `FromIterator`, which cannot refuse.
    pub fn from_iter<U: IntoIterator<Item = T>>(
        alloc: Global,
        iter: U,
    ) -> Result<Self, TryReserveError>
    where
        T: Drop,
        requires ends { IsFinite U.into_iter_gives U.IntoIter.can_next U.IntoIter.remaining iter }
        ensures items { IfOk result (Collects T.key T.Key.eq ⟦<U as Gives>⟧ iter) }
        ensures vacant { IfOk result (λ m. m.vacant ≡ 0) }
        ensures limit { IfOk result (λ m. m.limit ≡ MAX_ITEMS) }
        ensures keyed { IfOk result (λ m. Ascends T.key T.Key.cmp m.items) }
    {
        let mut map = IdOrdMap::new(alloc);
        match map.extend(iter) {
            Ok(()) => Ok(map),
            Err(stopped) => Err(stopped.error),
        }
    }

    /// Returns a map of the iterator's items, if no two have equal keys. It stops at the first item whose key came
    /// before, and returns it as the new one beside the earlier one, which is removed. Room for the lower bound of the
    /// iterator's `size_hint` is reserved before an item is asked for. After an error all else that was collected is
    /// dropped, and so is the rest of the iterator. It makes as many comparisons as that many calls of `insert_unique`,
    /// and searches once more for the earlier item of a repeat.
    pub fn from_iter_unique<U: IntoIterator<Item = T>>(
        alloc: Global,
        iter: U,
    ) -> Result<Self, FromIterError<T>>
    where
        T: Drop,
        requires ends { IsFinite U.into_iter_gives U.IntoIter.can_next U.IntoIter.remaining iter }

        // on success
        ensures items { IfOk result (CollectsUnique T.key T.Key.eq ⟦<U as Gives>⟧ iter) }
        ensures vacant { IfOk result (λ m. m.vacant ≡ 0) }
        ensures limit { IfOk result (λ m. m.limit ≡ MAX_ITEMS) }
        ensures keyed { IfOk result (λ m. Ascends T.key T.Key.cmp m.items) }

        // on refusal
        ensures repeat { IfErr result (ShowsFirstRepeat T.key T.Key.eq ⟦<U as Gives>⟧ iter) }
    {
        let items = iter.into_iter();
        let mut map = match IdOrdMap::with_capacity(alloc, items.size_hint().0) {
            Ok(map) => map,
            Err(error) => return Err(FromIterError::Refused(error)),
        };
        for item in items {
            map.insert_or_remove(item)?;
        }
        Ok(map)
    }

    // Inserts the item if no item has an equal key. Else it removes that one and returns both.
    fn insert_or_remove(&mut self, item: T) -> Result<(), FromIterError<T>>
    where
        T: Drop,
        requires keyed { Ascends T.key T.Key.cmp self.old.items }
        ensures inserted { OnOk result (OrdInserts T.key T.Key.cmp item self.old self.new) }
        ensures absent { OnOk result (IsAbsent T.key (T.Key.eq (T.key item)) self.old.items) }
        ensures akin { IfErr result (ShowsAkin T.key T.Key.eq self.old.items item) }
    {
        match self.insert_or_find(item, &mut Steps::new()) {
            Ok(_) => Ok(()),
            Err(NotInserted::Akin(item, _)) => {
                let earlier = Few::One(self.remove(item.key()).unwrap());
                Err(FromIterError::Duplicate(DuplicateItem::internal_new(item, earlier)))
            }
            Err(NotInserted::NoRoom(refused)) => Err(FromIterError::Refused(refused.error)),
        }
    }
}
