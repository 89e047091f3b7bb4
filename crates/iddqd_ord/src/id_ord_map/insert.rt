//! Insertions. They report an equal key first, then a full map, then refused memory. After any of these no item has
//! changed.
ghost use Rattle.std.specs.Prelude.{◌≡◌, ◌+◌, ◌*◌, length, insert, IfOk, IfErr, OnOk, OnErr, Some, slice_get};
ghost use Rattle.std.specs.Borrow.{sem};
ghost use Rattle.iddqd_store.specs.Contents.{Ascends, IsAbsent};
ghost use Rattle.iddqd_store.specs.Counting.{CountsAtMost};
ghost use Rattle.iddqd_ord_index.specs.Digits.{digits};
ghost use Rattle.iddqd_store.specs.Refusal.{ReturnsItem, RefusesItem, refusal_kind};

use super::IdOrdMap;
use super::store_and_index::{insert_in_both, reserve_one};
use iddqd_ord_index::Place;
use iddqd_store::{DuplicateItem, Few, IdOrdItem, InsertError, NotInserted, Refused, Steps};
use std::mem;

impl<T: IdOrdItem> IdOrdMap<T> {
    ghost use Rattle.iddqd_ord.specs.OrdMap.{BelongsAt, OrdInserts, OrdKeeps, OrdOverwrites, map_after_insertion, lends_nothing};

    /// Inserts the item if no item has an equal key, by as many comparisons as `insert_unique_counted`. A duplicate is
    /// returned beside a reference to the existing item. That does not allocate, and the map is as it was. If the map
    /// is full or memory is refused, the item is returned, and the items are as they were. Allocates only if the store
    /// has no room, or if a full leaf has to be split.
    /// In a caller's proof, match the error by a name, as in `Err(_error)`. `Err(_)` in the last `match` of a function
    /// leaves nothing known of the map, if the items own memory.
    #[inline]
    pub fn insert_unique(&mut self, item: T) -> Result<&mut (), InsertError<'_, T>>
        requires keyed { Ascends T.key T.Key.cmp self.old.items }
        ensures* after { sem 𝓛 (map_after_insertion T.row T.key T.Key.cmp self.entry result item) }
        ensures absent { OnOk result (IsAbsent T.key (T.Key.eq (T.key item)) self.old.items) }
        ensures refused { IfErr result (RefusesItem T.key T.Key.eq self.old item) }
    {
        self.insert_unique_counted(item, &mut Steps::new())
    }

    /// As `insert_unique`, with the comparisons counted: at most 4 + 2 d, d the number of binary digits of `len` before
    /// the call.
    pub fn insert_unique_counted(
        &mut self,
        item: T,
        steps: &mut Steps,
    ) -> Result<&mut (), InsertError<'_, T>>
        requires keyed { Ascends T.key T.Key.cmp self.old.items }
        ensures* after { sem 𝓛 (map_after_insertion T.row T.key T.Key.cmp self.entry result item) }

        // on success
        ensures absent { OnOk result (IsAbsent T.key (T.Key.eq (T.key item)) self.old.items) }

        // on refusal
        ensures refused { IfErr result (RefusesItem T.key T.Key.eq self.old item) }

        // what it costs
        ensures steps { CountsAtMost steps.old steps.new (4 + 2 * digits (length self.old.items)) }
    {
        match self.insert_or_find(item, steps) {
            Ok(_) => Ok(&mut self.done),
            Err(NotInserted::Akin(item, slot)) => {
                let existing = Few::One(self.item_in_slot(slot));
                Err(InsertError::Duplicate(DuplicateItem::internal_new(item, existing)))
            }
            Err(NotInserted::NoRoom(refused)) => Err(InsertError::Refused(refused)),
        }
    }

    /// Inserts the item, or replaces the item of an equal key, which it returns. The whole item is replaced, its key's
    /// spelling too. That does not allocate and is never refused. If no item has an equal key, it inserts the item as
    /// `insert_unique` does and returns `None`. If the map is full or memory is refused, the item is returned, and the
    /// items are as they were. It compares as often as `insert_unique`.
    pub fn insert_overwrite(&mut self, item: T) -> Result<Option<T>, Refused<T>>
        requires keyed { Ascends T.key T.Key.cmp self.old.items }

        // on success
        ensures put { IfOk result (OrdOverwrites T.key T.Key.eq T.Key.cmp item self.old self.new) }

        // on refusal
        ensures refused { IfErr result (ReturnsItem T.key T.Key.eq self.old item) }
        ensures kept { OnErr result (OrdKeeps T.key T.Key.cmp self.old self.new) }

        // either way
        ensures keyed { Ascends T.key T.Key.cmp self.new.items }
    {
        match self.insert_or_find(item, &mut Steps::new()) {
            Ok(_) => Ok(None),
            Err(NotInserted::Akin(item, slot)) => {
                Ok(Some(mem::replace(self.item_in_slot_mut(slot), item)))
            }
            Err(NotInserted::NoRoom(refused)) => Err(refused),
        }
    }

    /// Lends nothing, for calls of crates above that lend an item if they refuse one, as `insert_unique` does.
    #[doc(hidden)]
    pub fn lend_nothing(&mut self) -> &mut ()
        ensures* lends { sem 𝓛 (lends_nothing T.row self.entry result) }
    {
        &mut self.done
    }

    // Inserts the item at the place where its key belongs, and returns its slot.
    pub(super) fn insert_at_place(&mut self, place: Place, item: T) -> Result<u32, Refused<T>>
        requires keyed { Ascends T.key T.Key.cmp self.old.items }
        requires place { BelongsAt T.key T.Key.cmp item self.old place }

        // on success
        ensures inserted { OnOk result (OrdInserts T.key T.Key.cmp item self.old self.new) }
        ensures put { OnOk result (self.new.items ≡ insert self.old.items place item) }
        ensures slot { IfOk result (λ slot. slice_get self.new.slots place ≡ Some slot) }

        // on refusal
        ensures kept { OnErr result (OrdKeeps T.key T.Key.cmp self.old self.new) }
        ensures item { IfErr result (λ e. e.item ≡ item) }
        ensures kind { IfErr result (λ e. e.error ≡ refusal_kind self.old.limit self.old.items) }
    {
        if let Err(error) = reserve_one(&mut self.store, &mut self.index) {
            return Err(Refused { item, error });
        }
        Ok(insert_in_both(&mut self.store, &mut self.index, place, item))
    }
}
