//! Insertion by an item's own key, which goes down the index once if the store has room and no block has to be
//! allocated.
ghost use Rattle.std.specs.Prelude.{◌≡◌, ◌+◌, ◌*◌, length, IfErr, IfOk, OnErr, OnOk};
ghost use Rattle.iddqd_store.specs.Contents.{Ascends, IsAbsent};
ghost use Rattle.iddqd_store.specs.Counting.{CountsAtMost};
ghost use Rattle.iddqd_ord_index.specs.Digits.{digits};

use super::IdOrdMap;
use iddqd_ord_index::Insertion;
use iddqd_store::{IdOrdItem, NotInserted, Refused, Steps};

impl<T: IdOrdItem> IdOrdMap<T> {
    ghost use Rattle.iddqd_ord.specs.Inserting.{IsInsertedIn, MissesItem};
    ghost use Rattle.iddqd_ord.specs.OrdMap.{OrdInserts, OrdKeeps};

    // Inserts the item if no item has an equal key, and returns its slot. Allocates only if the store has no room, or
    // if a full leaf has to be split and too few unused blocks are kept. It goes down the index twice then.
    pub(super) fn insert_or_find(
        &mut self,
        item: T,
        steps: &mut Steps,
    ) -> Result<u32, NotInserted<T, Refused<T>>>
        requires keyed { Ascends T.key T.Key.cmp self.old.items }

        // on success
        ensures inserted { OnOk result (OrdInserts T.key T.Key.cmp item self.old self.new) }
        ensures absent { OnOk result (IsAbsent T.key (T.Key.eq (T.key item)) self.old.items) }
        ensures there { IfOk result (IsInsertedIn item self.old self.new) }

        // on refusal
        ensures missed { IfErr result (MissesItem T.key T.Key.eq item self.old self.new) }
        ensures kept { OnErr result (OrdKeeps T.key T.Key.cmp self.old self.new) }

        // what it costs
        ensures steps { CountsAtMost steps.old steps.new (4 + 2 * digits (length self.old.items)) }
    {
        let Some(slot) = self.store.next_slot() else {
            return self.insert_without_room(item, steps);
        };
        match self
            .index
            .insert_by_key(&self.store, item.key(), slot, steps)
        {
            Insertion::Found(there) => Err(NotInserted::Akin(item, there)),
            Insertion::Inserted => {
                self.store.insert_into(slot, item);
                Ok(slot)
            }
            Insertion::Unprepared(place) => match self.insert_at_place(place, item) {
                Ok(slot) => Ok(slot),
                Err(refused) => Err(NotInserted::NoRoom(refused)),
            },
        }
    }

    // As `insert_or_find`, which calls it if the store has no room. It goes down the index twice.
    #[inline(never)]
    fn insert_without_room(
        &mut self,
        item: T,
        steps: &mut Steps,
    ) -> Result<u32, NotInserted<T, Refused<T>>>
        requires keyed { Ascends T.key T.Key.cmp self.old.items }

        // on success
        ensures inserted { OnOk result (OrdInserts T.key T.Key.cmp item self.old self.new) }
        ensures absent { OnOk result (IsAbsent T.key (T.Key.eq (T.key item)) self.old.items) }
        ensures there { IfOk result (IsInsertedIn item self.old self.new) }

        // on refusal
        ensures missed { IfErr result (MissesItem T.key T.Key.eq item self.old self.new) }
        ensures kept { OnErr result (OrdKeeps T.key T.Key.cmp self.old self.new) }

        // what it costs
        ensures steps { CountsAtMost steps.old steps.new (4 + 2 * digits (length self.old.items)) }
    {
        match self.index.find_slot(&self.store, item.key(), steps) {
            Ok((_, slot)) => Err(NotInserted::Akin(item, slot)),
            Err(place) => match self.insert_at_place(place, item) {
                Ok(slot) => Ok(slot),
                Err(refused) => Err(NotInserted::NoRoom(refused)),
            },
        }
    }
}
