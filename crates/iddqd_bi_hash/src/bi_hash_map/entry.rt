//! Entries: the items of a map that have one of two keys, or a map that has none.
ghost use Rattle.std.specs.Prelude.{◌≡◌, ◌++◌, IsSome, IsTrue};
ghost use Rattle.iddqd_store.specs.SlotItems.{item_of_slot};
ghost use Rattle.iddqd_bi_hash.specs.TwoKeys.{as_list, found_same, other_slot, slots_found};

mod inserting;
mod methods;
mod occupied;
mod vacant;

use super::{BiHashMap, DefaultHashBuilder, Keyed, RefMut};
use crate::items::BiHashItem;
use iddqd_store::Equivalent;
use std::hash::{BuildHasher, Hash};

/// What `entry` finds. Dropping it changes nothing.
#[derive(Drop)]
pub enum Entry<'a, T, S = DefaultHashBuilder> {
    /// No item has a key that one of the queries stands for.
    Vacant(VacantEntry<'a, T, S>),
    /// The items that the queries find.
    Occupied(OccupiedEntry<'a, T, S>),
}

/// A map that lacks the items that were asked for.
#[derive(Drop)]
pub struct VacantEntry<'a, T, S = DefaultHashBuilder> {
    pub(super) map: &'a mut BiHashMap<T, S>,
}

/// One or two items of a map. It holds their slots, which are the same if it is one item, and whether both queries found
/// it.
#[derive(Drop)]
pub struct OccupiedEntry<'a, T, S = DefaultHashBuilder> {
    pub(super) map: &'a mut BiHashMap<T, S>,
    pub(super) first: u32,
    pub(super) second: u32,
    pub(super) unique: bool,
    ghost there1: { IsSome (item_of_slot map.now.slots map.now.items first) },
    ghost there2: { IsSome (item_of_slot map.now.slots map.now.items second) },
    ghost same: { IsTrue unique → first ≡ second },
}

/// What an entry that has items lends for writing. Two items cannot be lent at once.
pub enum OccupiedEntryMut<'a, T, S = DefaultHashBuilder> {
    /// A guard for the item that has both keys. It has to be spent.
    Unique(RefMut<'a, T, S>),
    /// The entry as it was, if no item has both keys.
    NonUnique(OccupiedEntry<'a, T, S>),
}

// Returns true if both searches found one slot.
fn is_one_slot(one: Option<u32>, other: Option<u32>) -> bool
    ensures { result ≡ found_same one other }
{
    match (one, other) {
        (Some(one), Some(other)) => one == other,
        _ => false,
    }
}

// Returns the slots that two searches found, that of the first search first. If it is one slot, it stands twice.
fn first_and_second(one: Option<u32>, other: Option<u32>) -> Option<(u32, u32)>
    ensures { slots_found result ≡ as_list one ++ as_list (other_slot one other) }
{
    match (one, other) {
        (None, None) => None,
        (Some(slot), None) | (None, Some(slot)) => Some((slot, slot)),
        (Some(one), Some(other)) => Some((one, other)),
    }
}

impl<T: BiHashItem, S: BuildHasher> BiHashMap<T, S> {
    ghost use Rattle.iddqd_hash_parts.specs.HashItems.{HashesAsKeys};
    ghost use Rattle.iddqd_bi_hash.specs.Entry.{IsEntryFor};

    /// Returns the entry of the queries, the first by the first key and the second by the second. It is occupied if one
    /// of them finds an item. Hashes each query once, and searches once by each. Does not allocate, and changes nothing.
    pub fn entry<Q: Hash + Equivalent<T::K1>, R: Hash + Equivalent<T::K2>>(
        &mut self,
        query1: &Q,
        query2: &R,
    ) -> Entry<'_, T, S>
        requires keyed { ⟦<Self as Keyed>⟧.keyed self.old }
        requires hashes1 { HashesAsKeys Q.equivalent Q.hash_input T.K1.hash_input query1.now }
        requires hashes2 { HashesAsKeys R.equivalent R.hash_input T.K2.hash_input query2.now }
        ensures { IsEntryFor T.key1 T.key2 (Q.equivalent query1.now) (R.equivalent query2.now) self.entry result }
    {
        let hash1 = self.hasher.hash_one(query1);
        let hash2 = self.hasher.hash_one(query2);
        let one = self.slot_by_key1(hash1, query1);
        let other = self.slot_by_key2(hash2, query2);
        let unique = is_one_slot(one, other);
        match first_and_second(one, other) {
            Some((first, second)) => Entry::Occupied(OccupiedEntry {
                map: self,
                first,
                second,
                unique,
            }),
            None => Entry::Vacant(VacantEntry { map: self }),
        }
    }
}
