//! A guard, an entry and walks of a hash map.
ghost use Rattle.std.specs.Prelude.{◌≡◌, IfNone, is_some, map};
ghost use Rattle.test_writers.specs.Pairs.{SetsPair, pair_at};
ghost use Rattle.test_writers.specs.Zeroed.{zeroed};

use crate::items::Pair;
use iddqd::id_hash_map::Entry;
use iddqd::{IdHashMap, Keyed};
use std::hash::BuildHasher;

/// Writes the value of the key, and tells whether it is there.
pub fn set_value<S: BuildHasher>(map: &mut IdHashMap<Pair, S>, key: u32, value: u32) -> bool
    requires keyed { ⟦<IdHashMap<Pair, S> as Keyed>⟧.keyed map.old }
    ensures told { result ≡ is_some (pair_at key map.old.items) }
    ensures written { SetsPair key value map.old.items map.new.items }
    ensures absent { IfNone (pair_at key map.old.items) (map.new ≡ map.old) }
    ensures keyed { ⟦<IdHashMap<Pair, S> as Keyed>⟧.keyed map.new }
{
    match map.get_mut(&key) {
        Some(mut found) => {
            found.value = value;
            found.finish();
            true
        }
        None => false,
    }
}

/// Lets an entry go.
pub fn looks<S: BuildHasher>(map: &mut IdHashMap<Pair, S>, key: u32) -> bool
    requires keyed { ⟦<IdHashMap<Pair, S> as Keyed>⟧.keyed map.old }
    ensures told { result ≡ is_some (pair_at key map.old.items) }
    ensures unchanged { map.new ≡ map.old }
{
    match map.entry(&key) {
        Entry::Occupied(_) => true,
        Entry::Vacant(_) => false,
    }
}

/// Sets each value to zero.
#[tactic(auto, using(crate::proofs::ZeroedLemmas::changed_none, crate::proofs::ZeroedLemmas::length_changed, crate::proofs::ZeroedLemmas::changed_step, crate::proofs::ZeroedLemmas::changed_all))]
pub fn zero_all<S: BuildHasher>(all: &mut IdHashMap<Pair, S>)
    requires keyed { ⟦<IdHashMap<Pair, S> as Keyed>⟧.keyed all.old }
    ensures zeroed { all.new ≡ record all.old { items = map zeroed all.old.items } }
    ensures keyed { ⟦<IdHashMap<Pair, S> as Keyed>⟧.keyed all.new }
{
    let mut walk = all.iter_mut();
    while let Some(pair) = walk.next() {
        pair.value = 0;
    }
}
