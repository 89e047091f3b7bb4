//! A guard, an entry and walks of an ordered map.
ghost use Rattle.std.specs.Prelude.{◌≡◌, IfNone, is_some, map};
ghost use Rattle.std.specs.Ordering.{nat_cmp};
ghost use Rattle.iddqd.specs.Contents.{Ascends};
ghost use Rattle.test_writers.specs.Pairs.{SetsPair, pair_at};
ghost use Rattle.test_writers.specs.Zeroed.{zeroed};

use crate::items::Pair;
use iddqd::IdOrdMap;
use iddqd::id_ord_map::Entry;

/// Writes the value of the key, and tells whether it is there.
pub fn set_value(map: &mut IdOrdMap<Pair>, key: u32, value: u32) -> bool
    requires keyed { Ascends (λ p. p.key) nat_cmp map.old.items }
    ensures told { result ≡ is_some (pair_at key map.old.items) }
    ensures written { SetsPair key value map.old.items map.new.items }
    ensures absent { IfNone (pair_at key map.old.items) (map.new ≡ map.old) }
    ensures keyed { Ascends (λ p. p.key) nat_cmp map.new.items }
{
    match map.get_mut(&key) {
        Some(mut found) => {
            found.value = value;
            found.finish();
            true
        }
        None => false,
    }
}

/// Lets an entry go.
pub fn looks(map: &mut IdOrdMap<Pair>, key: u32) -> bool
    requires keyed { Ascends (λ p. p.key) nat_cmp map.old.items }
    ensures told { result ≡ is_some (pair_at key map.old.items) }
    ensures unchanged { map.new ≡ map.old }
{
    match map.entry(&key) {
        Entry::Occupied(_) => true,
        Entry::Vacant(_) => false,
    }
}

/// Sets each value to zero.
#[tactic(auto, using(crate::proofs::ZeroedLemmas::changed_none, crate::proofs::ZeroedLemmas::length_changed, crate::proofs::ZeroedLemmas::changed_step, crate::proofs::ZeroedLemmas::changed_all))]
pub fn zero_all(all: &mut IdOrdMap<Pair>)
    requires keyed { Ascends (λ p. p.key) nat_cmp all.old.items }
    ensures zeroed { all.new ≡ record all.old { items = map zeroed all.old.items } }
    ensures keyed { Ascends (λ p. p.key) nat_cmp all.new.items }
{
    let mut walk = all.iter_mut();
    while let Some(pair) = walk.next() {
        pair.value = 0;
    }
}
