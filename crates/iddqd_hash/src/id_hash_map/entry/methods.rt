//! The calls of an entry that is occupied or vacant.
ghost use Rattle.std.specs.Prelude.{◌≡◌, IfErr, IfOk, OnErr, None};
ghost use Rattle.std.specs.Borrow.{sem};
ghost use Rattle.iddqd_hash.specs.Entry.{EntryReturnsItem, LacksKeyOf, LacksKeysOf, LendsIfOccupied, LendsIfVacant, LendsMade, VisitsEntry, VisitKeepsKey, entry_item, entry_map, entry_lender, lent_or_kept};
ghost use Rattle.iddqd_hash.specs.Guard.{GuardKeeps, GuardKeepsAkin, guard_lender};

use super::{Entry, OccupiedEntry};
use crate::id_hash_map::{IdHashMap as Map, Keyed, RefMut};
use iddqd_store::{IdHashItem, Refused, Visit};
use std::hash::BuildHasher;

impl<'a, T: IdHashItem, S: BuildHasher> Entry<'a, T, S> {
    /// Inserts the item if the entry is vacant, or else drops it, and returns a guard for the entry's item. It inserts
    /// as `VacantEntry::insert` does. The guard has to be spent.
    /// Match the refusal by a name, as in `Err(_refused)`. Beside a guard that is moved out of `Ok`, `Err(_)` gets no
    /// proof, if the items are not `Copy`.
    pub fn or_insert(self, item: T) -> Result<RefMut<'a, T, S>, Refused<T>>
    where
        T: Drop,
        requires keyed { ⟦<Map<T, S> as Keyed>⟧.keyed (entry_map self) }
        requires absent { entry_item self ≡ None → LacksKeyOf T.key T.Key.eq item self }

        // on success
        ensures same_map { IfOk result (λ r. guard_lender r ≡ entry_lender self.entry) }
        ensures found { IfOk result (LendsIfOccupied self.entry) }
        ensures inserted { IfOk result (LendsIfVacant ⟦<Map<T, S> as Keyed>⟧ item self.entry) }
        ensures keyed { IfOk result (GuardKeeps T.key ⟦<Map<T, S> as Keyed>⟧.keyed) }
        ensures keyed_akin { IfOk result (GuardKeepsAkin ⟦<Map<T, S> as Keyed>⟧) }

        // on refusal
        ensures* kept { sem 𝓛 (lent_or_kept S.row T.row ⟦<Map<T, S> as Keyed>⟧ self.entry result) }
        ensures vacant { OnErr result (entry_item self.entry ≡ None) }
        ensures refused { IfErr result (EntryReturnsItem T.key T.Key.eq self.entry item) }
    {
        self.or_insert_with(|| item)
    }

    /// As `or_insert`, with the item that the closure returns. It is called only if the entry is vacant.
    pub fn or_insert_with<F: FnOnce() -> T>(self, make: F) -> Result<RefMut<'a, T, S>, Refused<T>>
        requires keyed { ⟦<Map<T, S> as Keyed>⟧.keyed (entry_map self) }
        requires callable { entry_item self ≡ None → F.pre make }
        requires absent { entry_item self ≡ None → LacksKeysOf T.key T.Key.eq (F.post make) self }

        // on success
        ensures same_map { IfOk result (λ r. guard_lender r ≡ entry_lender self.entry) }
        ensures found { IfOk result (LendsIfOccupied self.entry) }
        ensures inserted { IfOk result (LendsMade ⟦<Map<T, S> as Keyed>⟧ (F.post make) self.entry) }
        ensures keyed { IfOk result (GuardKeeps T.key ⟦<Map<T, S> as Keyed>⟧.keyed) }
        ensures keyed_akin { IfOk result (GuardKeepsAkin ⟦<Map<T, S> as Keyed>⟧) }

        // on refusal
        ensures* kept { sem 𝓛 (lent_or_kept S.row T.row ⟦<Map<T, S> as Keyed>⟧ self.entry result) }
        ensures vacant { OnErr result (entry_item self.entry ≡ None) }
        ensures item { IfErr result (λ refused. F.post make refused.item) }
        ensures refused { IfErr result (λ e. EntryReturnsItem T.key T.Key.eq self.entry e.item e) }
    {
        match self {
            Entry::Occupied(found) => {
                let OccupiedEntry { map, slot, hash: _ } = found;
                Ok(RefMut {
                    map,
                    slot,
                    spent: false,
                })
            }
            Entry::Vacant(entry) => entry.insert(make()),
        }
    }

    /// Visits the entry's item, once, and ignores what the visit returns. If the entry is vacant, nothing happens. The
    /// visit may not change the key. Hashes and compares no keys.
    pub fn and_modify<V: Visit<T>>(self, visitor: &mut V) -> Entry<'a, T, S>
        requires keyed { ⟦<Map<T, S> as Keyed>⟧.keyed (entry_map self) }
        requires keeps_key { VisitKeepsKey T.key T.Key.eq V.visits visitor.old self }
        ensures same_map { entry_lender result ≡ entry_lender self.entry }
        ensures visited { VisitsEntry V.visits visitor.old self.entry visitor.new result }
        ensures keyed { ⟦<Map<T, S> as Keyed>⟧.keyed (entry_map result) }
    {
        match self {
            Entry::Occupied(mut entry) => {
                visitor.visit(entry.get_mut());
                Entry::Occupied(entry)
            }
            Entry::Vacant(entry) => Entry::Vacant(entry),
        }
    }
}
