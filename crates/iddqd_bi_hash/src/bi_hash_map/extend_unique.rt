//! Many items at once, of which none replaces another.
ghost use Rattle.std.specs.Prelude.{◌≡◌, IfErr, OnErr, OnOk};
ghost use Rattle.std.specs.Borrow.{sem};
ghost use Rattle.std.specs.Iterator.{IsFiniteIterable as IsFinite};
ghost use Rattle.iddqd_bi_hash.specs.Extending.{Adds, Halts, HaltsAt, OnItemBack, ShowsConflict, map_after_extension};
ghost use Rattle.iddqd_bi_hash.specs.Collecting.{MeetsNone};

use super::{BiHashMap, Keyed};
use crate::both::Both;
use crate::items::BiHashItem;
use iddqd_store::{DuplicateItem, ExtendError, ExtendUniqueError, Few, Gives, room_to_reserve};
use std::hash::BuildHasher;

// Why an item was not inserted, before the existing items are lent.
#[derive(Drop)]
pub(super) enum Halted<T> {
    // Items have a key of it: the new item, and their slots.
    Met(T, Few<u32>),
    // There was no room.
    NoRoom(ExtendError<T>),
}

impl<T: BiHashItem, S: BuildHasher> BiHashMap<T, S> {
    ghost use Rattle.iddqd_bi_hash.specs.BiHashMap.{BiFills, BiInserts, BiKeeps, HasSpareFirst};

    /// Inserts the items one after the other, up to the first whose key an item has, from before or from the iterator.
    /// Either key counts. That one is returned as the new item beside references to the one or two existing items, that
    /// of the first key first. A duplicate does not allocate, and is reported before a full map. Room is reserved before an
    /// item is asked for, as `extend` does. If that is refused, the error has no item, and the items are as they were.
    /// Else the first item that is refused is returned. As many items with new keys as were spare are accepted before
    /// that. After an error the items before it stay, and the rest of the iterator is dropped. Hashes each key once, and
    /// searches once by each.
    /// In a caller's proof, match the error by a name, as in `Err(_error)`. `Err(_)` in the last `match` of a function
    /// leaves nothing known of the map, if the items own memory.
    pub fn extend_unique<U: IntoIterator<Item = T>>(
        &mut self,
        iter: U,
    ) -> Result<&mut (), ExtendUniqueError<'_, T>>
    where
        T: Drop,
        requires keyed { ⟦<Self as Keyed>⟧.keyed self.old }
        requires ends { IsFinite U.into_iter_gives U.IntoIter.can_next U.IntoIter.remaining iter }
        ensures* after { sem 𝓛 (map_after_extension S.row T.row ⟦<T as Both>⟧ ⟦<Self as Keyed>⟧ ⟦<U as Gives>⟧ iter self.entry result) }
        ensures shown { IfErr result (ShowsConflict ⟦<T as Both>⟧ ⟦<U as Gives>⟧ iter self.old) }
    {
        match self.insert_each(iter) {
            Ok(()) => Ok(&mut self.done),
            Err(Halted::Met(item, slots)) => {
                let existing = self.items_in_slots(slots);
                Err(ExtendUniqueError::Duplicate(DuplicateItem::internal_new(item, existing)))
            }
            Err(Halted::NoRoom(refused)) => Err(ExtendUniqueError::Refused(refused)),
        }
    }

    // The same, with the slots of the existing items in place of references: a loan cannot leave a loop.
    fn insert_each<U: IntoIterator<Item = T>>(&mut self, iter: U) -> Result<(), Halted<T>>
    where
        T: Drop,
        requires keyed { ⟦<Self as Keyed>⟧.keyed self.old }
        requires ends { IsFinite U.into_iter_gives U.IntoIter.can_next U.IntoIter.remaining iter }

        // on success
        ensures added { OnOk result (Adds ⟦<T as Both>⟧ ⟦<U as Gives>⟧ iter self.old self.new) }

        // on a halt
        ensures halted { IfErr result (Halts ⟦<T as Both>⟧ ⟦<U as Gives>⟧ iter self.old self.new) }
        ensures spare_first { IfErr result (OnItemBack (HasSpareFirst self.old self.new)) }

        // either way
        ensures fills { BiFills ⟦<Self as Keyed>⟧.keyed self.old self.new }
    {
        let items = iter.into_iter();
        let room = room_to_reserve(self.len(), items.size_hint().0);
        if let Err(error) = self.reserve(room) {
            return Err(Halted::NoRoom(ExtendError { item: None, error }));
        }
        for item in items {
            self.insert_or_halt(item)?;
        }
        Ok(())
    }

    // Inserts the item if no item has one of its keys, and else returns the slots of those.
    fn insert_or_halt(&mut self, item: T) -> Result<(), Halted<T>>
        requires keyed { ⟦<Self as Keyed>⟧.keyed self.old }

        // on success
        ensures inserted { OnOk result (BiInserts ⟦<Self as Keyed>⟧.keyed item self.old self.new) }
        ensures absent { OnOk result (MeetsNone ⟦<T as Both>⟧ item self.old.items) }

        // on refusal
        ensures halted { IfErr result (HaltsAt ⟦<T as Both>⟧ item self.old) }
        ensures no_spare { IfErr result (OnItemBack (self.old.spare ≡ 0)) }
        ensures kept { OnErr result (BiKeeps ⟦<Self as Keyed>⟧.keyed self.old self.new) }
    {
        let hash1 = self.hasher.hash_one(item.key1());
        let hash2 = self.hasher.hash_one(item.key2());
        match self.slots_displaced(hash1, hash2, &item) {
            Some(slots) => Err(Halted::Met(item, slots)),
            None => match self.insert_hashed(hash1, hash2, item) {
                Ok(_) => Ok(()),
                Err(refused) => Err(Halted::NoRoom(ExtendError {
                    item: Some(refused.item),
                    error: refused.error,
                })),
            },
        }
    }
}
