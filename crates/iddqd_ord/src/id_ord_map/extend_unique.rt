//! Many items at once, none in place of another.
ghost use Rattle.std.specs.Prelude.{IfErr, OnErr, OnOk};
ghost use Rattle.std.specs.Borrow.{sem};
ghost use Rattle.std.specs.Iterator.{IsFiniteIterable as IsFinite};
ghost use Rattle.iddqd_store.specs.Adding.{Adds, Halts, HaltsAt, ShowsConflict};
ghost use Rattle.iddqd_store.specs.Contents.{Ascends, IsAbsent};

use super::IdOrdMap;
use iddqd_store::{
    DuplicateItem, ExtendError, ExtendUniqueError, Few, Gives, IdOrdItem, NotInserted, Steps,
    room_to_reserve,
};

impl<T: IdOrdItem> IdOrdMap<T> {
    ghost use Rattle.iddqd_ord.specs.OrdMap.{OrdFills, OrdInserts, OrdKeeps, map_after_extension};

    /// Inserts the items one after the other, up to the first whose key an item has, from before or from the iterator.
    /// That one is returned as the new item beside a reference to the existing one. A duplicate does not allocate, and
    /// is reported before a full map. Room is reserved before an item is asked for, as `extend` does. If that is
    /// refused, the error has no item, and the items are as they were. Else the first item that is refused is returned.
    /// After an error the items before it stay, and the rest of the iterator is dropped. It makes as many comparisons
    /// as that many calls of `insert_unique`. In a caller's proof, match the error by a name, as in `Err(_error)`.
    /// `Err(_)` in the last `match` of a function leaves nothing known of the map, if the items own memory.
    pub fn extend_unique<U: IntoIterator<Item = T>>(
        &mut self,
        iter: U,
    ) -> Result<&mut (), ExtendUniqueError<'_, T>>
    where
        T: Drop,
        requires keyed { Ascends T.key T.Key.cmp self.old.items }
        requires ends { IsFinite U.into_iter_gives U.IntoIter.can_next U.IntoIter.remaining iter }
        ensures* after { sem 𝓛 (map_after_extension T.row T.key T.Key.eq T.Key.cmp ⟦<U as Gives>⟧ iter self.entry result) }
        ensures shown { IfErr result (ShowsConflict T.key T.Key.eq ⟦<U as Gives>⟧ iter self.old) }
    {
        match self.insert_each(iter) {
            Ok(()) => Ok(&mut self.done),
            Err(NotInserted::Akin(item, slot)) => {
                let there = Few::One(self.item_in_slot(slot));
                Err(ExtendUniqueError::Duplicate(DuplicateItem::internal_new(item, there)))
            }
            Err(NotInserted::NoRoom(refused)) => Err(ExtendUniqueError::Refused(refused)),
        }
    }

    // As `extend_unique`, but returns the slot of the existing item in place of the item: a loan cannot leave a loop.
    fn insert_each<U: IntoIterator<Item = T>>(
        &mut self,
        iter: U,
    ) -> Result<(), NotInserted<T, ExtendError<T>>>
    where
        T: Drop,
        requires keyed { Ascends T.key T.Key.cmp self.old.items }
        requires ends { IsFinite U.into_iter_gives U.IntoIter.can_next U.IntoIter.remaining iter }
        ensures added { OnOk result (Adds T.key T.Key.eq ⟦<U as Gives>⟧ iter self.old self.new) }
        ensures halted { IfErr result (Halts T.key T.Key.eq ⟦<U as Gives>⟧ iter self.old self.new) }
        ensures fills { OrdFills T.key T.Key.cmp self.old self.new }
    {
        let items = iter.into_iter();
        let room = room_to_reserve(self.len(), items.size_hint().0);
        if let Err(error) = self.reserve(room) {
            return Err(NotInserted::NoRoom(ExtendError { item: None, error }));
        }
        for item in items {
            self.insert_or_halt(item)?;
        }
        Ok(())
    }

    // Inserts the item if no item has an equal key, and else returns that one's slot.
    fn insert_or_halt(&mut self, item: T) -> Result<(), NotInserted<T, ExtendError<T>>>
        requires keyed { Ascends T.key T.Key.cmp self.old.items }
        ensures inserted { OnOk result (OrdInserts T.key T.Key.cmp item self.old self.new) }
        ensures absent { OnOk result (IsAbsent T.key (T.Key.eq (T.key item)) self.old.items) }
        ensures halted { IfErr result (HaltsAt T.key T.Key.eq item self.old) }
        ensures kept { OnErr result (OrdKeeps T.key T.Key.cmp self.old self.new) }
    {
        match self.insert_or_find(item, &mut Steps::new()) {
            Ok(_) => Ok(()),
            Err(NotInserted::Akin(item, slot)) => Err(NotInserted::Akin(item, slot)),
            Err(NotInserted::NoRoom(refused)) => Err(NotInserted::NoRoom(ExtendError {
                item: Some(refused.item),
                error: refused.error,
            })),
        }
    }
}
