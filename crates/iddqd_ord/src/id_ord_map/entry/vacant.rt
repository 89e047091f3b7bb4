//! Insertions by a vacant entry. They look at the limit first, then ask for memory, and only then change anything.
ghost use Rattle.std.specs.Prelude.{◌≡◌, IfErr, IfOk};
ghost use Rattle.std.specs.Borrow.{sem};
ghost use Rattle.iddqd_store.specs.Contents.{Ascends};
ghost use Rattle.iddqd_ord.specs.Entry.{EntersInserted, EntryReturnsItem, LacksKeyOf, LendsInserted, ShowsInserted, Vacant, entry_map, entry_lender, enters_or_keeps, lends_or_keeps, shows_or_keeps};
ghost use Rattle.iddqd_ord.specs.Guard.{GuardKeeps, GuardKeepsAkin, guard_lender, shown_lender};

use super::{OccupiedEntry, VacantEntry};
use crate::id_ord_map::{RefMut, Shown};
use iddqd_store::{IdOrdItem, Refused};

impl<'a, T: IdOrdItem> VacantEntry<'a, T> {
    /// Inserts the item at the place of its own key, and returns a guard for it. No item has that key, which need not
    /// be the one that was asked for. If the map is full or memory is refused, the item is returned, and the items are
    /// as they were. It makes as many comparisons as `get`. Allocates as `insert_unique` does. The guard has to be
    /// spent.
    /// Match the refusal by a name, as in `Err(_refused)`. Beside a guard that is moved out of `Ok`, `Err(_)` gets no
    /// proof, if the items are not `Copy`.
    pub fn insert(self, item: T) -> Result<RefMut<'a, T>, Refused<T>>
        requires keyed { Ascends T.key T.Key.cmp (entry_map (Vacant self)).items }
        requires absent { LacksKeyOf T.key T.Key.eq item (Vacant self) }
        ensures* kept { sem 𝓛 (lends_or_keeps T.row T.key T.Key.cmp (Vacant self.entry) result) }

        // on success
        ensures same_map { IfOk result (λ r. guard_lender r ≡ entry_lender (Vacant self.entry)) }
        ensures inserted { IfOk result (LendsInserted T.key T.Key.cmp item (Vacant self.entry)) }
        ensures keyed { IfOk result (GuardKeeps T.key T.Key.cmp) }
        ensures keyed_akin { IfOk result (GuardKeepsAkin T.key T.Key.cmp T.Key.eq) }

        // on refusal
        ensures refused { IfErr result (EntryReturnsItem T.key T.Key.eq item (Vacant self.entry)) }
    {
        let VacantEntry { map } = self;
        match map.insert_absent(item) {
            Ok(slot) => Ok(RefMut {
                map,
                slot,
                spent: false,
            }),
            Err(refused) => Err(refused),
        }
    }

    /// Inserts the item as `insert` does, and returns it for reading.
    pub fn insert_ref(self, item: T) -> Result<Shown<'a, T>, Refused<T>>
        requires keyed { Ascends T.key T.Key.cmp (entry_map (Vacant self)).items }
        requires absent { LacksKeyOf T.key T.Key.eq item (Vacant self) }
        ensures* kept { sem 𝓛 (shows_or_keeps T.row T.key T.Key.cmp (Vacant self.entry) result) }

        // on success
        ensures same_map { IfOk result (λ s. shown_lender s ≡ entry_lender (Vacant self.entry)) }
        ensures inserted { IfOk result (ShowsInserted T.key T.Key.cmp item (Vacant self.entry)) }

        // on refusal
        ensures refused { IfErr result (EntryReturnsItem T.key T.Key.eq item (Vacant self.entry)) }
    {
        let VacantEntry { map } = self;
        match map.insert_absent(item) {
            Ok(slot) => Ok(Shown { map, slot }),
            Err(refused) => Err(refused),
        }
    }

    /// Inserts the item as `insert` does, and returns its entry. It may allocate for the index even if no leaf is full.
    pub fn insert_entry(self, item: T) -> Result<OccupiedEntry<'a, T>, Refused<T>>
        requires keyed { Ascends T.key T.Key.cmp (entry_map (Vacant self)).items }
        requires absent { LacksKeyOf T.key T.Key.eq item (Vacant self) }
        ensures* kept { sem 𝓛 (enters_or_keeps T.row T.key T.Key.cmp (Vacant self.entry) result) }

        // on success
        ensures inserted { IfOk result (EntersInserted T.key T.Key.cmp item (Vacant self.entry)) }

        // on refusal
        ensures refused { IfErr result (EntryReturnsItem T.key T.Key.eq item (Vacant self.entry)) }
    {
        let VacantEntry { map } = self;
        match map.insert_absent_with_place(item) {
            Ok((slot, place)) => Ok(OccupiedEntry { map, slot, place }),
            Err(refused) => Err(refused),
        }
    }
}
