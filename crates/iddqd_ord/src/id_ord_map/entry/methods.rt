//! The calls of an entry that is occupied or vacant.
ghost use Rattle.std.specs.Prelude.{◌≡◌, IfErr, IfOk, OnErr, None};
ghost use Rattle.std.specs.Borrow.{sem};
ghost use Rattle.iddqd_store.specs.Contents.{Ascends};
ghost use Rattle.iddqd_ord.specs.Entry.{EntryReturnsItem, EntryRefuses, LacksKeyOf, LendsIfOccupied, LendsIfVacant, LendsMade, MakesAbsent, ShowsIfOccupied, ShowsIfVacant, ShowsMade, VisitKeepsKey, VisitsEntry, entry_item, entry_map, entry_lender, lends_or_keeps, shows_or_keeps};
ghost use Rattle.iddqd_ord.specs.Guard.{GuardKeeps, GuardKeepsAkin, guard_lender, shown_lender};

use super::{Entry, OccupiedEntry};
use crate::id_ord_map::{RefMut, Shown};
use iddqd_store::{IdOrdItem, Refused, Visit};

impl<'a, T: IdOrdItem> Entry<'a, T> {
    /// Inserts the item if the entry is vacant, or else drops it, and returns a guard for the entry's item. It inserts
    /// as `VacantEntry::insert` does. The guard has to be spent.
    /// Match the refusal by a name, as in `Err(_refused)`. Beside a guard that is moved out of `Ok`, `Err(_)` gets no
    /// proof, if the items are not `Copy`.
    pub fn or_insert(self, item: T) -> Result<RefMut<'a, T>, Refused<T>>
    where
        T: Drop,
        requires keyed { Ascends T.key T.Key.cmp (entry_map self).items }
        requires absent { entry_item self ≡ None → LacksKeyOf T.key T.Key.eq item self }
        ensures* kept { sem 𝓛 (lends_or_keeps T.row T.key T.Key.cmp self.entry result) }

        // on success
        ensures same_map { IfOk result (λ r. guard_lender r ≡ entry_lender self.entry) }
        ensures found { IfOk result (LendsIfOccupied self.entry) }
        ensures inserted { IfOk result (LendsIfVacant T.key T.Key.cmp item self.entry) }
        ensures keyed { IfOk result (GuardKeeps T.key T.Key.cmp) }
        ensures keyed_akin { IfOk result (GuardKeepsAkin T.key T.Key.cmp T.Key.eq) }

        // on refusal
        ensures vacant { OnErr result (entry_item self.entry ≡ None) }
        ensures refused { IfErr result (EntryReturnsItem T.key T.Key.eq item self.entry) }
    {
        self.or_insert_with(|| item)
    }

    /// As `or_insert`, with the item that the closure returns. It is called only if the entry is vacant.
    pub fn or_insert_with<F: FnOnce() -> T>(self, make: F) -> Result<RefMut<'a, T>, Refused<T>>
        requires keyed { Ascends T.key T.Key.cmp (entry_map self).items }
        requires callable { entry_item self ≡ None → F.pre make }
        requires absent { MakesAbsent T.key T.Key.eq (F.post make) self }
        ensures* kept { sem 𝓛 (lends_or_keeps T.row T.key T.Key.cmp self.entry result) }

        // on success
        ensures same_map { IfOk result (λ r. guard_lender r ≡ entry_lender self.entry) }
        ensures found { IfOk result (LendsIfOccupied self.entry) }
        ensures inserted { IfOk result (LendsMade T.key T.Key.cmp (F.post make) self.entry) }
        ensures keyed { IfOk result (GuardKeeps T.key T.Key.cmp) }
        ensures keyed_akin { IfOk result (GuardKeepsAkin T.key T.Key.cmp T.Key.eq) }

        // on refusal
        ensures vacant { OnErr result (entry_item self.entry ≡ None) }
        ensures item { IfErr result (λ refused. F.post make refused.item) }
        ensures refused { IfErr result (EntryRefuses T.key T.Key.eq self.entry) }
    {
        match self {
            Entry::Occupied(found) => {
                let OccupiedEntry {
                    map,
                    slot,
                    place: _,
                } = found;
                Ok(RefMut {
                    map,
                    slot,
                    spent: false,
                })
            }
            Entry::Vacant(entry) => entry.insert(make()),
        }
    }

    /// As `or_insert`, for reading.
    pub fn or_insert_ref(self, item: T) -> Result<Shown<'a, T>, Refused<T>>
    where
        T: Drop,
        requires keyed { Ascends T.key T.Key.cmp (entry_map self).items }
        requires absent { entry_item self ≡ None → LacksKeyOf T.key T.Key.eq item self }
        ensures* kept { sem 𝓛 (shows_or_keeps T.row T.key T.Key.cmp self.entry result) }

        // on success
        ensures same_map { IfOk result (λ s. shown_lender s ≡ entry_lender self.entry) }
        ensures found { IfOk result (ShowsIfOccupied self.entry) }
        ensures inserted { IfOk result (ShowsIfVacant T.key T.Key.cmp item self.entry) }

        // on refusal
        ensures vacant { OnErr result (entry_item self.entry ≡ None) }
        ensures refused { IfErr result (EntryReturnsItem T.key T.Key.eq item self.entry) }
    {
        self.or_insert_with_ref(|| item)
    }

    /// As `or_insert_with`, for reading.
    pub fn or_insert_with_ref<F: FnOnce() -> T>(self, make: F) -> Result<Shown<'a, T>, Refused<T>>
        requires keyed { Ascends T.key T.Key.cmp (entry_map self).items }
        requires callable { entry_item self ≡ None → F.pre make }
        requires absent { MakesAbsent T.key T.Key.eq (F.post make) self }
        ensures* kept { sem 𝓛 (shows_or_keeps T.row T.key T.Key.cmp self.entry result) }

        // on success
        ensures same_map { IfOk result (λ s. shown_lender s ≡ entry_lender self.entry) }
        ensures found { IfOk result (ShowsIfOccupied self.entry) }
        ensures inserted { IfOk result (ShowsMade T.key T.Key.cmp (F.post make) self.entry) }

        // on refusal
        ensures vacant { OnErr result (entry_item self.entry ≡ None) }
        ensures item { IfErr result (λ refused. F.post make refused.item) }
        ensures refused { IfErr result (EntryRefuses T.key T.Key.eq self.entry) }
    {
        match self {
            Entry::Occupied(entry) => {
                let OccupiedEntry {
                    map,
                    slot,
                    place: _,
                } = entry;
                Ok(Shown { map, slot })
            }
            Entry::Vacant(entry) => entry.insert_ref(make()),
        }
    }

    /// Visits the entry's item, once, and ignores what the visit returns. If the entry is vacant, nothing happens. The
    /// visit may not change the key. Compares no keys.
    pub fn and_modify<V: Visit<T>>(self, visitor: &mut V) -> Entry<'a, T>
        requires keyed { Ascends T.key T.Key.cmp (entry_map self).items }
        requires keeps_key { VisitKeepsKey T.key T.Key.eq V.visits visitor.old self }
        ensures same_map { entry_lender result ≡ entry_lender self.entry }
        ensures visited { VisitsEntry V.visits visitor.old self.entry result visitor.new }
        ensures keyed { Ascends T.key T.Key.cmp (entry_map result).items }
    {
        match self {
            Entry::Occupied(mut entry) => {
                visitor.visit(entry.get_mut());
                Entry::Occupied(entry)
            }
            Entry::Vacant(entry) => Entry::Vacant(entry),
        }
    }
}
