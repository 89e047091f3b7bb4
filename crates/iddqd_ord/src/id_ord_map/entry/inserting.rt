//! What each insertion by an entry does to the map.
ghost use Rattle.std.specs.Prelude.{IfErr, IfOk, OnErr, OnOk};
ghost use Rattle.iddqd_store.specs.Refusal.{ReturnsItem};
ghost use Rattle.iddqd_store.specs.Contents.{Ascends, IsAbsent};

use crate::id_ord_map::IdOrdMap;
use iddqd_ord_index::Place;
use iddqd_store::{IdOrdItem, NotInserted, Refused, Steps};

impl<T: IdOrdItem> IdOrdMap<T> {
    ghost use Rattle.iddqd_ord.specs.Guard.{IsInsertedAt};
    ghost use Rattle.iddqd_ord.specs.Inserting.{IsInsertedIn};
    ghost use Rattle.iddqd_ord.specs.OrdMap.{OrdInserts, OrdKeeps};

    // Inserts an item whose key no other has, and returns its slot.
    pub(super) fn insert_absent(&mut self, item: T) -> Result<u32, Refused<T>>
        requires keyed { Ascends T.key T.Key.cmp self.old.items }
        requires absent { IsAbsent T.key (T.Key.eq (T.key item)) self.old.items }

        // on success
        ensures inserted { OnOk result (OrdInserts T.key T.Key.cmp item self.old self.new) }
        ensures there { IfOk result (IsInsertedIn item self.old self.new) }

        // on refusal
        ensures kept { OnErr result (OrdKeeps T.key T.Key.cmp self.old self.new) }
        ensures refused { IfErr result (ReturnsItem T.key T.Key.eq self.old item) }
    {
        match self.insert_or_find(item, &mut Steps::new()) {
            Ok(slot) => Ok(slot),
            Err(NotInserted::Akin(_, _)) => unreachable!(),
            Err(NotInserted::NoRoom(refused)) => Err(refused),
        }
    }

    // Inserts an item whose key no other has, and returns its slot and its place.
    pub(super) fn insert_absent_with_place(&mut self, item: T) -> Result<(u32, Place), Refused<T>>
        requires keyed { Ascends T.key T.Key.cmp self.old.items }
        requires absent { IsAbsent T.key (T.Key.eq (T.key item)) self.old.items }

        // on success
        ensures inserted { OnOk result (OrdInserts T.key T.Key.cmp item self.old self.new) }
        ensures there { IfOk result (IsInsertedAt item self.old self.new) }

        // on refusal
        ensures kept { OnErr result (OrdKeeps T.key T.Key.cmp self.old self.new) }
        ensures refused { IfErr result (ReturnsItem T.key T.Key.eq self.old item) }
    {
        match self.index.find(&self.store, item.key(), &mut Steps::new()) {
            Ok(_) => unreachable!(),
            Err(place) => {
                let slot = self.insert_at_place(place, item)?;
                Ok((slot, place))
            }
        }
    }
}
