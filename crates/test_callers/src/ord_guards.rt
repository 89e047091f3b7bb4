//! Writing through the guard of an ordered map.
ghost use Rattle.std.specs.Prelude.{◌≡◌, IfNone};
ghost use Rattle.std.specs.Ordering.{nat_cmp};
ghost use Rattle.std.specs.String.{string_cmp};
ghost use Rattle.iddqd.specs.Contents.{Ascends};
ghost use Rattle.test_callers.specs.Lookups.{KeepsOtherNames, ReadsAtName, SetsAtName, SumsAtName, of_name};
ghost use Rattle.test_writers.specs.Pairs.{SetsPair};

use iddqd::{IdOrdMap, Text};
use test_writers::items::{Named, Pair, write_value};

/// Writes twice.
#[tactic(auto, using(iddqd::proofs::GuardLemmas::read_back, iddqd::proofs::GuardLemmas::written_twice))]
fn set_twice(map: &mut IdOrdMap<Pair>, key: u32, first: u32, then: u32)
    requires keyed { Ascends (λ p. p.key) nat_cmp map.old.items }
    ensures written { SetsPair key then map.old.items map.new.items }
{
    if let Some(mut found) = map.get_mut(&key) {
        found.value = first;
        found.value = then;
        found.finish();
    }
}

/// Writes another value; the map is keyed still, each other name finds what it found, and the sum has the value.
#[tactic(auto, using(iddqd::proofs::ChangeLemmas::after_changes))]
fn set_value(map: &mut IdOrdMap<Named>, name: &str, value: u32) -> bool
    requires keyed { Ascends (λ x. x.name) string_cmp map.old.items }
    ensures written { SetsAtName name.now value map.old.items map.new.items }
    ensures absent { IfNone (of_name name.now map.old.items) (map.new ≡ map.old) }
    ensures others { KeepsOtherNames name.now map.old.items map.new.items }
    ensures read { ReadsAtName name.now value map.old.items map.new.items }
    ensures sum { SumsAtName name.now value map.old.items map.new.items }
    ensures keyed { Ascends (λ x. x.name) string_cmp map.new.items }
{
    match map.get_mut(&Text(name)) {
        Some(mut found) => {
            found.value = value;
            found.finish();
            true
        }
        None => false,
    }
}

/// Writes by a plain reference at the end.
fn set_plainly(map: &mut IdOrdMap<Pair>, key: u32, value: u32)
    requires keyed { Ascends (λ p. p.key) nat_cmp map.old.items }
    ensures written { SetsPair key value map.old.items map.new.items }
{
    if let Some(found) = map.get_mut(&key) {
        let item = found.into_mut();
        item.value = value;
    }
}

/// Writes by a function that takes the item.
fn set_by_function(map: &mut IdOrdMap<Pair>, key: u32, value: u32)
    requires keyed { Ascends (λ p. p.key) nat_cmp map.old.items }
    ensures written { SetsPair key value map.old.items map.new.items }
{
    if let Some(mut found) = map.get_mut(&key) {
        write_value(&mut found, value);
        found.finish();
    }
}
