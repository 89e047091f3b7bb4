//! Entries: an item of a map, or a map that lacks one.
ghost use Rattle.std.specs.Prelude.{◌≡◌, IfSome, IsSome, IsTrue, Some, slice_get};
ghost use Rattle.iddqd_store.specs.Contents.{Ascends};
ghost use Rattle.iddqd_store.specs.SlotItems.{item_of_slot};

mod first_last;
mod inserting;
mod methods;
mod occupied;
mod vacant;

use super::IdOrdMap;
use iddqd_ord_index::Place;
use iddqd_store::{Comparable, IdOrdItem, Steps};

/// What `entry` finds. Dropping it changes nothing.
#[derive(Drop)]
pub enum Entry<'a, T> {
    /// No item has a key that the query stands for.
    Vacant(VacantEntry<'a, T>),
    /// The item that the query finds.
    Occupied(OccupiedEntry<'a, T>),
}

/// A map that lacks the item that was asked for.
#[derive(Drop)]
pub struct VacantEntry<'a, T> {
    pub(super) map: &'a mut IdOrdMap<T>,
}

/// An item of a map. It holds the item's slot, and the place that a removal needs.
#[derive(Drop)]
pub struct OccupiedEntry<'a, T> {
    pub(super) map: &'a mut IdOrdMap<T>,
    pub(super) slot: u32,
    pub(super) place: Place,
    ghost there: { IsSome (item_of_slot map.now.slots map.now.items slot) },
    ghost placed: { slice_get map.now.slots place ≡ Some slot },
}

impl<T: IdOrdItem> IdOrdMap<T> {
    ghost use Rattle.iddqd_ord.specs.Entry.{IsEntryFor, entry_item};

    /// Returns the entry of the query, which is occupied if the query finds an item. It makes as many comparisons as
    /// `get`. Does not allocate, and changes nothing.
    pub fn entry<Q: Comparable<T::Key>>(&mut self, query: &Q) -> Entry<'_, T>
        requires keyed { Ascends T.key T.Key.cmp self.old.items }
        ensures entry { IsEntryFor T.key (Q.equivalent query.now) self.entry result }
        ensures akin { IfSome (entry_item result) (λ x. IsTrue (Q.equivalent query.now (T.key x))) }
    {
        match self.index.find_slot(&self.store, query, &mut Steps::new()) {
            Ok((place, slot)) => Entry::Occupied(OccupiedEntry {
                map: self,
                slot,
                place,
            }),
            Err(_) => Entry::Vacant(VacantEntry { map: self }),
        }
    }
}
