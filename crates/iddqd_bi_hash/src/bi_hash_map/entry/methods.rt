//! The calls of an entry that is occupied or vacant.
ghost use Rattle.std.specs.Prelude.{◌≡◌, [], IfErr, IfOk, OnErr};
ghost use Rattle.std.specs.Borrow.{sem};
ghost use Rattle.iddqd_bi_hash.specs.Entry.{EntryReturnsItem, LacksKeysOf, LacksKeysOfMade, LendsIfOccupied, LendsIfVacant, LendsMade, MutKeeps, MutKeepsAkin, entry_items, entry_lender, entry_map, mut_lender, mut_or_kept};

use super::{Entry, OccupiedEntry, OccupiedEntryMut};
use crate::bi_hash_map::{BiHashMap as Map, Keyed, RefMut};
use crate::both::Both;
use crate::items::BiHashItem;
use iddqd_store::Refused;
use std::hash::BuildHasher;

impl<'a, T: BiHashItem, S: BuildHasher> Entry<'a, T, S> {
    /// Inserts the item if the entry is vacant, or else drops it, and returns a guard for the entry's item. If the entry
    /// has items and none has both keys, it returns the entry. It inserts as `VacantEntry::insert` does. The guard has to
    /// be spent.
    /// Match the refusal by a name, as in `Err(_refused)`. Beside a guard that is moved out of `Ok`, `Err(_)` gets no
    /// proof, if the items are not `Copy`.
    pub fn or_insert(self, item: T) -> Result<OccupiedEntryMut<'a, T, S>, Refused<T>>
    where
        T: Drop,
        requires keyed { ⟦<Map<T, S> as Keyed>⟧.keyed (entry_map self) }
        requires absent { entry_items self ≡ [] → LacksKeysOf ⟦<T as Both>⟧ item self }

        // on success
        ensures same_map { IfOk result (λ r. mut_lender r ≡ entry_lender self.entry) }
        ensures found { IfOk result (LendsIfOccupied self.entry) }
        ensures inserted { IfOk result (LendsIfVacant ⟦<Map<T, S> as Keyed>⟧ item self.entry) }
        ensures keyed { IfOk result (MutKeeps ⟦<Map<T, S> as Keyed>⟧ T.key1 T.key2) }
        ensures keyed_akin { IfOk result (MutKeepsAkin ⟦<Map<T, S> as Keyed>⟧) }

        // on refusal
        ensures* kept { sem 𝓛 (mut_or_kept S.row T.row ⟦<Map<T, S> as Keyed>⟧ self.entry result) }
        ensures vacant { OnErr result (entry_items self.entry ≡ []) }
        ensures refused { IfErr result (EntryReturnsItem ⟦<T as Both>⟧ self.entry item) }
    {
        self.or_insert_with(|| item)
    }

    /// As `or_insert`, with the item that the closure returns. It is called only if the entry is vacant.
    pub fn or_insert_with<F: FnOnce() -> T>(
        self,
        make: F,
    ) -> Result<OccupiedEntryMut<'a, T, S>, Refused<T>>
        requires keyed { ⟦<Map<T, S> as Keyed>⟧.keyed (entry_map self) }
        requires callable { entry_items self ≡ [] → F.pre make }
        requires absent { entry_items self ≡ [] → LacksKeysOfMade ⟦<T as Both>⟧ (F.post make) self }

        // on success
        ensures same_map { IfOk result (λ r. mut_lender r ≡ entry_lender self.entry) }
        ensures found { IfOk result (LendsIfOccupied self.entry) }
        ensures inserted { IfOk result (LendsMade ⟦<Map<T, S> as Keyed>⟧ (F.post make) self.entry) }
        ensures keyed { IfOk result (MutKeeps ⟦<Map<T, S> as Keyed>⟧ T.key1 T.key2) }
        ensures keyed_akin { IfOk result (MutKeepsAkin ⟦<Map<T, S> as Keyed>⟧) }

        // on refusal
        ensures* kept { sem 𝓛 (mut_or_kept S.row T.row ⟦<Map<T, S> as Keyed>⟧ self.entry result) }
        ensures vacant { OnErr result (entry_items self.entry ≡ []) }
        ensures item { IfErr result (λ refused. F.post make refused.item) }
        ensures refused { IfErr result (λ e. EntryReturnsItem ⟦<T as Both>⟧ self.entry e.item e) }
    {
        match self {
            Entry::Occupied(entry) => {
                let OccupiedEntry {
                    map,
                    first,
                    second,
                    unique,
                } = entry;
                if unique {
                    Ok(OccupiedEntryMut::Unique(RefMut {
                        map,
                        slot: first,
                        spent: false,
                    }))
                } else {
                    Ok(OccupiedEntryMut::NonUnique(OccupiedEntry {
                        map,
                        first,
                        second,
                        unique,
                    }))
                }
            }
            Entry::Vacant(entry) => entry.lend_inserted(make()),
        }
    }
}
