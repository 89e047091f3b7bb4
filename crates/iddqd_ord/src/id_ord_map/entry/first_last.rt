//! The entries of the item at a position, of the first and of the last.
ghost use Rattle.std.specs.Prelude.{◌≡◌, ◌≤◌, [], IfNone, IfSome, length};
ghost use Rattle.std.specs.Borrow.{sem};
ghost use Rattle.iddqd_store.specs.Contents.{Ascends};

use super::OccupiedEntry;
use crate::id_ord_map::IdOrdMap;
use iddqd_store::IdOrdItem;

impl<T: IdOrdItem> IdOrdMap<T> {
    ghost use Rattle.iddqd_ord.specs.Entry.{IsEntryAt, IsFirstEntry, IsLastEntry, rests_without_entry};

    /// Returns the entry of the item at the position in the order of the keys, or `None` if the map has no item there.
    /// Compares no keys. Does not allocate.
    pub fn get_index_entry(&mut self, index: usize) -> Option<OccupiedEntry<'_, T>>
        requires keyed { Ascends T.key T.Key.cmp self.old.items }
        ensures* unchanged_at_none { sem 𝓛 (rests_without_entry T.row self.entry result) }
        ensures absent { IfNone result (length self.old.items ≤ index) }
        ensures entry { IfSome result (IsEntryAt index self.entry) }
    {
        if index >= self.len() {
            return None;
        }
        let place = self.index.place(index);
        let slot = self.slot_at(place);
        Some(OccupiedEntry {
            map: self,
            slot,
            place,
        })
    }

    /// Returns the entry of the item of the least key, or `None` if the map has no items. Compares no keys. Does not
    /// allocate.
    pub fn first_entry(&mut self) -> Option<OccupiedEntry<'_, T>>
        requires keyed { Ascends T.key T.Key.cmp self.old.items }
        ensures* unchanged_at_none { sem 𝓛 (rests_without_entry T.row self.entry result) }
        ensures empty { IfNone result (self.old.items ≡ []) }
        ensures entry { IfSome result (IsFirstEntry self.entry) }
    {
        self.get_index_entry(0)
    }

    /// Returns the entry of the item of the greatest key, or `None` if the map has no items. Compares no keys. Does not
    /// allocate.
    pub fn last_entry(&mut self) -> Option<OccupiedEntry<'_, T>>
        requires keyed { Ascends T.key T.Key.cmp self.old.items }
        ensures* unchanged_at_none { sem 𝓛 (rests_without_entry T.row self.entry result) }
        ensures empty { IfNone result (self.old.items ≡ []) }
        ensures entry { IfSome result (IsLastEntry self.entry) }
    {
        let last = self.len().saturating_sub(1);
        self.get_index_entry(last)
    }
}
