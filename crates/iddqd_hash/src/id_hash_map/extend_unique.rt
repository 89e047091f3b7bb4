//! Many items at once, of which none replaces another.
ghost use Rattle.std.specs.Prelude.{◌≡◌, IfErr, OnErr, OnOk};
ghost use Rattle.std.specs.Borrow.{sem};
ghost use Rattle.std.specs.Iterator.{IsFiniteIterable as IsFinite};
ghost use Rattle.iddqd_store.specs.Adding.{HaltsAt, OnItemBack};
ghost use Rattle.iddqd_store.specs.Contents.{IsAbsent};

use super::{IdHashMap, Keyed};
use iddqd_store::{
    DuplicateItem, ExtendError, ExtendUniqueError, Few, Gives, IdHashItem, NotInserted,
    room_to_reserve,
};
use std::hash::BuildHasher;

impl<T: IdHashItem, S: BuildHasher> IdHashMap<T, S> {
    ghost use Rattle.iddqd_hash_parts.specs.HashItems.{holding_of};
    ghost use Rattle.iddqd_hash.specs.HashMap.{Adds, Halts, HasSpareFirst, HashFills, HashInserts, HashKeeps, ShowsConflict, map_after_extension};

    /// Inserts the items one after the other, up to the first whose key an item has, from before or from the iterator.
    /// That one is returned as the new item beside a reference to the existing one. A duplicate does not allocate, and
    /// is reported before a full map. Room is reserved before an item is asked for, as `extend` does. If that is
    /// refused, the error has no item, and the items are as they were. Else the first item that is refused is returned.
    /// As many new keys as were spare are accepted before that. After an error the items before it stay, and the rest
    /// of the iterator is dropped. Hashes each item's key once and searches once for it.
    /// In a caller's proof, match the error by a name, as in `Err(_error)`. `Err(_)` in the last `match` of a function
    /// leaves nothing known of the map, if the items own memory.
    pub fn extend_unique<U: IntoIterator<Item = T>>(
        &mut self,
        iter: U,
    ) -> Result<&mut (), ExtendUniqueError<'_, T>>
    where
        T: Drop,
        requires keyed { ⟦<Self as Keyed>⟧.keyed self.old }
        requires ends { IsFinite U.into_iter_gives U.IntoIter.can_next U.IntoIter.remaining iter }
        ensures* after { sem 𝓛 (map_after_extension S.row T.row T.key T.Key.eq ⟦<Self as Keyed>⟧ ⟦<U as Gives>⟧ iter self.entry result) }
        ensures shown { IfErr result (ShowsConflict T.key T.Key.eq ⟦<U as Gives>⟧ iter self.old) }
    {
        match self.insert_each(iter) {
            Ok(()) => Ok(&mut self.done),
            Err(NotInserted::Akin(item, slot)) => {
                let there = Few::One(self.item_in_slot(slot));
                Err(ExtendUniqueError::Duplicate(DuplicateItem::internal_new(item, there)))
            }
            Err(NotInserted::NoRoom(refused)) => Err(ExtendUniqueError::Refused(refused)),
        }
    }

    // The same, with the slot of the existing item in place of a reference: a loan cannot leave a loop.
    fn insert_each<U: IntoIterator<Item = T>>(
        &mut self,
        iter: U,
    ) -> Result<(), NotInserted<T, ExtendError<T>>>
    where
        T: Drop,
        requires keyed { ⟦<Self as Keyed>⟧.keyed self.old }
        requires ends { IsFinite U.into_iter_gives U.IntoIter.can_next U.IntoIter.remaining iter }

        // on success
        ensures added { OnOk result (Adds T.key T.Key.eq ⟦<U as Gives>⟧ iter self.old self.new) }

        // on a halt
        ensures halted { IfErr result (Halts T.key T.Key.eq ⟦<U as Gives>⟧ iter self.old self.new) }
        ensures spare_first { IfErr result (OnItemBack (HasSpareFirst self.old self.new)) }

        // either way
        ensures fills { HashFills ⟦<Self as Keyed>⟧.keyed self.old self.new }
    {
        let items = iter.into_iter();
        let room = room_to_reserve(self.len(), items.size_hint().0);
        if let Err(error) = self.reserve(room) {
            return Err(NotInserted::NoRoom(ExtendError { item: None, error }));
        }
        for item in items {
            self.insert_or_halt(item)?;
        }
        Ok(())
    }

    // Inserts the item if no item has an equal key, and else returns that one's slot.
    fn insert_or_halt(&mut self, item: T) -> Result<(), NotInserted<T, ExtendError<T>>>
        requires keyed { ⟦<Self as Keyed>⟧.keyed self.old }

        // on success
        ensures inserted { OnOk result (HashInserts ⟦<Self as Keyed>⟧.keyed item self.old self.new) }
        ensures absent { OnOk result (IsAbsent T.key (T.Key.eq (T.key item)) self.old.items) }

        // on refusal
        ensures halted { IfErr result (HaltsAt T.key T.Key.eq item (holding_of self.old)) }
        ensures no_spare { IfErr result (OnItemBack (self.old.spare ≡ 0)) }
        ensures kept { OnErr result (HashKeeps ⟦<Self as Keyed>⟧.keyed self.old self.new) }
    {
        let hash = self.hasher.hash_one(item.key());
        match self.slot_of_equal(hash, &item) {
            Some(slot) => Err(NotInserted::Akin(item, slot)),
            None => match self.insert_hashed(hash, item) {
                Ok(_) => Ok(()),
                Err(refused) => Err(NotInserted::NoRoom(ExtendError {
                    item: Some(refused.item),
                    error: refused.error,
                })),
            },
        }
    }
}
