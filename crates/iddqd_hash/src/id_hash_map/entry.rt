//! Entries: an item of a map, or a map that lacks one.
ghost use Rattle.std.specs.Prelude.{◌≡◌, IfSome, IsSome, Some};
ghost use Rattle.iddqd_store.specs.SlotItems.{item_of_slot};

mod inserting;
mod methods;
mod occupied;
mod vacant;

use super::{DefaultHashBuilder, IdHashMap, Keyed};
use iddqd_store::{Equivalent, IdHashItem, Steps};
use std::hash::{BuildHasher, Hash};

/// What `entry` finds. Dropping it changes nothing.
#[derive(Drop)]
pub enum Entry<'a, T, S = DefaultHashBuilder> {
    /// No item has a key that the query stands for.
    Vacant(VacantEntry<'a, T, S>),
    /// The item that the query finds.
    Occupied(OccupiedEntry<'a, T, S>),
}

/// A map that lacks the item that was asked for.
#[derive(Drop)]
pub struct VacantEntry<'a, T, S = DefaultHashBuilder> {
    pub(super) map: &'a mut IdHashMap<T, S>,
}

/// An item of a map. It holds the item's slot, and the hash that a removal needs.
#[derive(Drop)]
pub struct OccupiedEntry<'a, T, S = DefaultHashBuilder> {
    pub(super) map: &'a mut IdHashMap<T, S>,
    pub(super) slot: u32,
    pub(super) hash: u64,
    ghost there: { IsSome (item_of_slot map.now.slots map.now.items slot) },
    ghost listed: { item_of_slot map.now.slots map.now.hashes slot ≡ Some hash },
}

impl<T: IdHashItem, S: BuildHasher> IdHashMap<T, S> {
    ghost use Rattle.iddqd_hash.specs.Entry.{IsEntryFor, PassesTest, entry_item};
    ghost use Rattle.iddqd_hash_parts.specs.HashItems.{HashesAsKeys};

    /// Returns the entry of the query, which is occupied if the query finds an item. Hashes the query once, and makes
    /// as many comparisons as `get`. Does not allocate, and changes nothing.
    pub fn entry<Q: Hash + Equivalent<T::Key>>(&mut self, query: &Q) -> Entry<'_, T, S>
        requires keyed { ⟦<Self as Keyed>⟧.keyed self.old }
        requires hashes { HashesAsKeys Q.equivalent Q.hash_input T.Key.hash_input query.now }
        ensures entry { IsEntryFor T.key (Q.equivalent query.now) self.entry result }
        ensures akin { IfSome (entry_item result) (PassesTest T.key (Q.equivalent query.now)) }
    {
        let hash = self.hasher.hash_one(query);
        match self.slot_by_key(hash, query, &mut Steps::new()) {
            Some(slot) => Entry::Occupied(OccupiedEntry {
                map: self,
                slot,
                hash,
            }),
            None => Entry::Vacant(VacantEntry { map: self }),
        }
    }
}
