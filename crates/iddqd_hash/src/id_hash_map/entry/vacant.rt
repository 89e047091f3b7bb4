//! Insertions by a vacant entry. Each looks at the limit first, then asks for memory, and only then changes anything.
ghost use Rattle.std.specs.Prelude.{◌≡◌, IfErr, IfOk};
ghost use Rattle.std.specs.Borrow.{sem};
ghost use Rattle.iddqd_hash.specs.Entry.{EntersInserted as Enters, EntryReturnsItem, LacksKeyOf, LendsInserted as Lends, Vacant, entry_map, entry_lender, entry_or_kept, guard_or_kept};
ghost use Rattle.iddqd_hash.specs.Guard.{GuardKeeps, GuardKeepsAkin, guard_lender};

use super::{OccupiedEntry, VacantEntry};
use crate::id_hash_map::{IdHashMap as Map, Keyed, RefMut};
use iddqd_store::{IdHashItem, Refused};
use std::hash::BuildHasher;

impl<'a, T: IdHashItem, S: BuildHasher> VacantEntry<'a, T, S> {
    /// Inserts the item, and returns a guard for it. No item has its key, which need not be the one that was asked for.
    /// If the map is full or memory is refused, the item is returned, and the items are as they were. If `spare` is
    /// above 0, it is never refused. Allocates only if `spare` is 0. Hashes the key once, and compares none. If the
    /// index grows, it reads each of its pairs. The guard has to be spent.
    /// Match the refusal by a name, as in `Err(_refused)`. Beside a guard that is moved out of `Ok`, `Err(_)` gets no
    /// proof, if the items are not `Copy`.
    pub fn insert(self, item: T) -> Result<RefMut<'a, T, S>, Refused<T>>
        requires keyed { ⟦<Map<T, S> as Keyed>⟧.keyed (entry_map (Vacant self)) }
        requires absent { LacksKeyOf T.key T.Key.eq item (Vacant self) }

        // on success
        ensures same_map { IfOk result (λ r. guard_lender r ≡ entry_lender (Vacant self.entry)) }
        ensures inserted { IfOk result (Lends ⟦<Map<T, S> as Keyed>⟧ item (Vacant self.entry)) }
        ensures keyed { IfOk result (GuardKeeps T.key ⟦<Map<T, S> as Keyed>⟧.keyed) }
        ensures keyed_akin { IfOk result (GuardKeepsAkin ⟦<Map<T, S> as Keyed>⟧) }

        // on refusal
        ensures* kept { sem 𝓛 (guard_or_kept S.row T.row ⟦<Map<T, S> as Keyed>⟧ self.entry result) }
        ensures refused { IfErr result (EntryReturnsItem T.key T.Key.eq (Vacant self.entry) item) }
    {
        let VacantEntry { map } = self;
        match map.insert_absent(item) {
            Ok((slot, _)) => Ok(RefMut {
                map,
                slot,
                spent: false,
            }),
            Err(refused) => Err(refused),
        }
    }

    /// Inserts the item as `insert` does, and returns its entry.
    pub fn insert_entry(self, item: T) -> Result<OccupiedEntry<'a, T, S>, Refused<T>>
        requires keyed { ⟦<Map<T, S> as Keyed>⟧.keyed (entry_map (Vacant self)) }
        requires absent { LacksKeyOf T.key T.Key.eq item (Vacant self) }
        ensures inserted { IfOk result (Enters ⟦<Map<T, S> as Keyed>⟧ item (Vacant self.entry)) }
        ensures* kept { sem 𝓛 (entry_or_kept S.row T.row ⟦<Map<T, S> as Keyed>⟧ self.entry result) }
        ensures refused { IfErr result (EntryReturnsItem T.key T.Key.eq (Vacant self.entry) item) }
    {
        let VacantEntry { map } = self;
        match map.insert_absent(item) {
            Ok((slot, hash)) => Ok(OccupiedEntry { map, slot, hash }),
            Err(refused) => Err(refused),
        }
    }
}
