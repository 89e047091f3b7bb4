//! Insertions by a vacant entry. Each looks at the limit first, then asks for memory, and only then changes anything.
ghost use Rattle.std.specs.Prelude.{◌≡◌, IfErr, IfOk};
ghost use Rattle.std.specs.Borrow.{sem};
ghost use Rattle.iddqd_store.specs.Contents.{IsAbsent};
ghost use Rattle.iddqd_bi_hash.specs.Entry.{EntersInserted as Enters, EntryReturnsItem, LacksKeysOf, LendsIfOccupied, LendsIfVacant, LendsInserted as Lends, MutKeeps, MutKeepsAkin, Vacant, entry_map, entry_lender, entry_or_kept, entry_others, guard_or_kept, mut_lender, mut_or_kept};
ghost use Rattle.iddqd_bi_hash.specs.Guard.{GuardKeeps, GuardKeepsAkin, guard_lender};

use super::{OccupiedEntry, OccupiedEntryMut, VacantEntry};
use crate::bi_hash_map::{BiHashMap as Map, Keyed, RefMut};
use crate::both::Both;
use crate::items::BiHashItem;
use iddqd_store::Refused;
use std::hash::BuildHasher;

impl<'a, T: BiHashItem, S: BuildHasher> VacantEntry<'a, T, S> {
    /// Inserts the item, and returns a guard for it. No item has one of its keys, which need not be those that were
    /// asked for. If the map is full or memory is refused, the item is returned, and the items are as they were. If
    /// `spare` is above 0, it is never refused. Allocates only if `spare` is 0. Hashes each key once, and compares
    /// none. If an index grows, it reads each of its pairs. The guard has to be spent.
    /// Match the refusal by a name, as in `Err(_refused)`. Beside a guard that is moved out of `Ok`, `Err(_)` gets no
    /// proof, if the items are not `Copy`.
    pub fn insert(self, item: T) -> Result<RefMut<'a, T, S>, Refused<T>>
        requires keyed { ⟦<Map<T, S> as Keyed>⟧.keyed (entry_map (Vacant self)) }
        requires absent1 { IsAbsent T.key1 (T.K1.eq (T.key1 item)) (entry_others (Vacant self)) }
        requires absent2 { IsAbsent T.key2 (T.K2.eq (T.key2 item)) (entry_others (Vacant self)) }

        // on success
        ensures same_map { IfOk result (λ r. guard_lender r ≡ entry_lender (Vacant self.entry)) }
        ensures inserted { IfOk result (Lends ⟦<Map<T, S> as Keyed>⟧ item (Vacant self.entry)) }
        ensures keyed { IfOk result (GuardKeeps T.key1 T.key2 ⟦<Map<T, S> as Keyed>⟧.keyed) }
        ensures keyed_akin { IfOk result (GuardKeepsAkin ⟦<Map<T, S> as Keyed>⟧) }

        // on refusal
        ensures* kept { sem 𝓛 (guard_or_kept S.row T.row ⟦<Map<T, S> as Keyed>⟧ self.entry result) }
        ensures refused { IfErr result (EntryReturnsItem ⟦<T as Both>⟧ (Vacant self.entry) item) }
    {
        let VacantEntry { map } = self;
        match map.insert_absent(item) {
            Ok(slot) => Ok(RefMut {
                map,
                slot,
                spent: false,
            }),
            Err(refused) => Err(refused),
        }
    }

    // Inserts the item as `insert` does, and returns its guard as an entry does that may be occupied.
    pub(super) fn lend_inserted(self, item: T) -> Result<OccupiedEntryMut<'a, T, S>, Refused<T>>
        requires keyed { ⟦<Map<T, S> as Keyed>⟧.keyed (entry_map (Vacant self)) }
        requires absent { LacksKeysOf ⟦<T as Both>⟧ item (Vacant self) }

        // on success
        ensures same_map { IfOk result (λ r. mut_lender r ≡ entry_lender (Vacant self.entry)) }
        ensures inserted { IfOk result (LendsIfVacant ⟦<Map<T, S> as Keyed>⟧ item (Vacant self.entry)) }
        ensures found { IfOk result (LendsIfOccupied (Vacant self.entry)) }
        ensures keyed { IfOk result (MutKeeps ⟦<Map<T, S> as Keyed>⟧ T.key1 T.key2) }
        ensures keyed_akin { IfOk result (MutKeepsAkin ⟦<Map<T, S> as Keyed>⟧) }

        // on refusal
        ensures* kept { sem 𝓛 (mut_or_kept S.row T.row ⟦<Map<T, S> as Keyed>⟧ (Vacant self.entry) result) }
        ensures refused { IfErr result (EntryReturnsItem ⟦<T as Both>⟧ (Vacant self.entry) item) }
    {
        let VacantEntry { map } = self;
        match map.insert_absent(item) {
            Ok(slot) => Ok(OccupiedEntryMut::Unique(RefMut {
                map,
                slot,
                spent: false,
            })),
            Err(refused) => Err(refused),
        }
    }

    /// Inserts the item as `insert` does, and returns its entry.
    pub fn insert_entry(self, item: T) -> Result<OccupiedEntry<'a, T, S>, Refused<T>>
        requires keyed { ⟦<Map<T, S> as Keyed>⟧.keyed (entry_map (Vacant self)) }
        requires absent1 { IsAbsent T.key1 (T.K1.eq (T.key1 item)) (entry_others (Vacant self)) }
        requires absent2 { IsAbsent T.key2 (T.K2.eq (T.key2 item)) (entry_others (Vacant self)) }
        ensures inserted { IfOk result (Enters ⟦<Map<T, S> as Keyed>⟧ item (Vacant self.entry)) }
        ensures* kept { sem 𝓛 (entry_or_kept S.row T.row ⟦<Map<T, S> as Keyed>⟧ self.entry result) }
        ensures refused { IfErr result (EntryReturnsItem ⟦<T as Both>⟧ (Vacant self.entry) item) }
    {
        let VacantEntry { map } = self;
        match map.insert_absent(item) {
            Ok(slot) => Ok(OccupiedEntry {
                map,
                first: slot,
                second: slot,
                unique: true,
            }),
            Err(refused) => Err(refused),
        }
    }
}
