//! Writing through the guard of a hash map.
ghost use Rattle.std.specs.Prelude.{◌≡◌, IfNone, option_map};
ghost use Rattle.iddqd.specs.IdHashMap.{IsKeyedByText};
ghost use Rattle.test_callers.specs.Lookups.{KeepsOtherNames, ReadsAtName, SetsAtName, SumsAtName, of_name};
ghost use Rattle.test_writers.specs.Pairs.{SetsPair, pair_at};

use iddqd::{IdHashMap, Keyed, Text};
use std::hash::BuildHasher;
use test_writers::items::{Named, Pair};

/// Writes another value; the map is keyed still, each other name finds what it found, and the sum has the value.
#[tactic(auto, using(iddqd::proofs::ChangeLemmas::after_changes))]
fn set_value(map: &mut IdHashMap<Named>, name: &str, value: u32) -> bool
    requires keyed { IsKeyedByText (λ x. x.name) map.old }
    ensures written { SetsAtName name.now value map.old.items map.new.items }
    ensures absent { IfNone (of_name name.now map.old.items) (map.new ≡ map.old) }
    ensures others { KeepsOtherNames name.now map.old.items map.new.items }
    ensures read { ReadsAtName name.now value map.old.items map.new.items }
    ensures sum { SumsAtName name.now value map.old.items map.new.items }
    ensures keyed { IsKeyedByText (λ x. x.name) map.new }
{
    match map.get_mut(&Text(name)) {
        Some(mut found) => {
            found.value = value;
            found.finish();
            true
        }
        None => false,
    }
}

/// Writes by a plain reference at the end.
fn set_plainly<S: BuildHasher>(map: &mut IdHashMap<Pair, S>, key: u32, value: u32)
    requires keyed { ⟦<IdHashMap<Pair, S> as Keyed>⟧.keyed map.old }
    ensures written { SetsPair key value map.old.items map.new.items }
{
    if let Some(found) = map.get_mut(&key) {
        let item = found.into_mut();
        item.value = value;
    }
}

/// Writes by the guard lent once more, and reads by the guard itself.
#[tactic(auto, using(iddqd::proofs::GuardLemmas::read_back))]
fn set_by_reborrow<S: BuildHasher>(
    map: &mut IdHashMap<Pair, S>,
    key: u32,
    value: u32,
) -> Option<u32>
    requires keyed { ⟦<IdHashMap<Pair, S> as Keyed>⟧.keyed map.old }
    ensures read { result ≡ option_map (λ _. value) (pair_at key map.old.items) }
    ensures written { SetsPair key value map.old.items map.new.items }
{
    match map.get_mut(&key) {
        Some(mut found) => {
            let inner = found.reborrow();
            inner.value = value;
            let shown = found.into_ref();
            Some(shown.value)
        }
        None => None,
    }
}
