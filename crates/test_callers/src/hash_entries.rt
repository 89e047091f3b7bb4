//! Entries of a hash map.
ghost use Rattle.std.specs.Prelude.{◌≡◌, IfNone, IfSome, IsTrue, OnSome, Some, false, option_map, string_bytes, unwrap_or};
ghost use Rattle.iddqd.specs.Contents.{AddsItem};
ghost use Rattle.iddqd.specs.IdHashMap.{IsKeyedByText};
ghost use Rattle.test_callers.specs.Lookups.{AddsIfNew, AddsPairIfNew, KeepsOtherNames, Replaces, SetsAtKey, of_key, of_name, with_value, without_name};
ghost use Rattle.test_writers.specs.Pairs.{pair_at};

use iddqd::errors::Refused;
use iddqd::id_hash_map::Entry;
use iddqd::{IdHashMap, Keyed, Text};
use std::hash::BuildHasher;
use test_writers::items::{Named, Pair, SetsValue};

/// Adds the item, and then writes another value.
#[tactic(auto, using(iddqd::proofs::GuardLemmas::hash_key_kept))]
fn add_and_write(map: &mut IdHashMap<Named>, item: Named, then: u32) -> bool
    requires keyed { IsKeyedByText (λ x. x.name) map.old }
    ensures added { IsTrue result → AddsItem (with_value then item) map.old.items map.new.items }
    ensures kept { result ≡ false → map.new.items ≡ map.old.items }
    ensures keyed { IsKeyedByText (λ x. x.name) map.new }
{
    match map.entry(&item.name) {
        Entry::Vacant(entry) => match entry.insert(item) {
            Ok(mut added) => {
                added.value = then;
                added.finish();
                true
            }
            Err(_refused) => false,
        },
        Entry::Occupied(_) => false,
    }
}

/// Puts the item in the place of the one of its name, which is returned.
fn replace(map: &mut IdHashMap<Named>, item: Named) -> Option<Named>
    requires keyed { IsKeyedByText (λ x. x.name) map.old }
    ensures found { result ≡ of_key item.name map.old.items }
    ensures replaced { Replaces item map.old.items map.new.items }
    ensures keyed { IsKeyedByText (λ x. x.name) map.new }
{
    match map.entry(&item.name) {
        Entry::Occupied(mut entry) => Some(entry.insert(item)),
        Entry::Vacant(_) => None,
    }
}

/// Writes the value of the item of that name, or adds the item.
fn set_or_add(map: &mut IdHashMap<Named>, set: u32, item: Named) -> bool
    requires keyed { IsKeyedByText (λ x. x.name) map.old }
    ensures set { SetsAtKey item.name set map.old.items map.new.items }
    ensures added { IsTrue result → AddsIfNew item map.old.items map.new.items }
    ensures kept { result ≡ false → map.new.items ≡ map.old.items }
    ensures keyed { IsKeyedByText (λ x. x.name) map.new }
{
    let entry = map
        .entry(&item.name)
        .and_modify(&mut SetsValue { value: set });
    match entry.or_insert(item) {
        Ok(found) => {
            found.finish();
            true
        }
        Err(_refused) => false,
    }
}

/// Adds the item if its name is not there, and else changes nothing.
fn keep_or_add(map: &mut IdHashMap<Named>, item: Named) -> bool
    requires keyed { IsKeyedByText (λ x. x.name) map.old }
    ensures unchanged { IfSome (of_key item.name map.old.items) (λ _. map.new.items ≡ map.old.items) }
    ensures added { IsTrue result → AddsIfNew item map.old.items map.new.items }
    ensures kept { result ≡ false → map.new.items ≡ map.old.items }
    ensures keyed { IsKeyedByText (λ x. x.name) map.new }
{
    match map.entry(&item.name).or_insert(item) {
        Ok(found) => {
            found.finish();
            true
        }
        Err(_refused) => false,
    }
}

/// The same, of what is found then. The item's name finds the item that was there, or this one; each other name finds
/// what it found.
#[tactic(auto, using(iddqd::proofs::ChangeLemmas::after_changes))]
fn ensure_present(map: &mut IdHashMap<Named>, item: Named) -> bool
    requires keyed { IsKeyedByText (λ x. x.name) map.old }
    ensures found { IsTrue result → of_key item.name map.new.items ≡ Some (unwrap_or (of_key item.name map.old.items) item) }
    ensures others { KeepsOtherNames (string_bytes item.name) map.old.items map.new.items }
    ensures keyed { IsKeyedByText (λ x. x.name) map.new }
{
    keep_or_add(map, item)
}

/// Shows the value of the key, or adds the key with this one.
fn show_or_add<S: BuildHasher>(map: &mut IdHashMap<Pair, S>, key: u32, value: u32) -> Option<u32>
    requires keyed { ⟦<IdHashMap<Pair, S> as Keyed>⟧.keyed map.old }
    ensures found { IfSome (pair_at key map.old.items) (λ p. result ≡ Some p.value) }
    ensures unchanged { IfSome (pair_at key map.old.items) (λ _. map.new ≡ map.old) }
    ensures added { OnSome result (AddsPairIfNew key value map.old.items map.new.items) }
    ensures kept { IfNone result (map.new.items ≡ map.old.items) }
{
    match map.entry(&key).or_insert_with(|| Pair { key, value }) {
        Ok(pair) => {
            let shown = pair.into_ref();
            Some(shown.value)
        }
        Err(_) => None,
    }
}

/// Adds the item if its name is not there: `let .. else`.
fn add_or_leave(map: &mut IdHashMap<Named>, item: Named) -> bool
    requires keyed { IsKeyedByText (λ x. x.name) map.old }
    ensures keyed { IsKeyedByText (λ x. x.name) map.new }
{
    let Ok(found) = map.entry(&item.name).or_insert(item) else {
        return false;
    };
    found.finish();
    true
}

/// The same, by `?`.
fn add_or_pass_on(map: &mut IdHashMap<Named>, item: Named) -> Result<(), Refused<Named>>
    requires keyed { IsKeyedByText (λ x. x.name) map.old }
    ensures keyed { IsKeyedByText (λ x. x.name) map.new }
{
    map.entry(&item.name).or_insert(item)?.finish();
    Ok(())
}

/// Writes the value through the entry, and then removes the item.
#[tactic(auto, using(iddqd::proofs::GuardLemmas::read_back, iddqd::proofs::GuardLemmas::others_written))]
fn write_and_take(map: &mut IdHashMap<Named>, name: &str, value: u32) -> Option<Named>
    requires keyed { IsKeyedByText (λ x. x.name) map.old }
    ensures taken { result ≡ option_map (with_value value) (of_name name.now map.old.items) }
    ensures left { map.new.items ≡ without_name name.now map.old.items }
    ensures keyed { IsKeyedByText (λ x. x.name) map.new }
{
    match map.entry(&Text(name)) {
        Entry::Occupied(mut entry) => {
            entry.get_mut().value = value;
            Some(entry.remove())
        }
        Entry::Vacant(_) => None,
    }
}

/// Writes a value through the entry, and another one through its guard.
#[tactic(auto, using(iddqd::proofs::GuardLemmas::hash_key_kept))]
fn write_and_lend(map: &mut IdHashMap<Named>, name: &str, value: u32, then: u32)
    requires keyed { IsKeyedByText (λ x. x.name) map.old }
    ensures keyed { IsKeyedByText (λ x. x.name) map.new }
{
    match map.entry(&Text(name)) {
        Entry::Occupied(mut entry) => {
            entry.get_mut().value = value;
            let mut found = entry.into_mut();
            found.value = then;
            found.finish();
        }
        Entry::Vacant(_) => {}
    }
}

/// Adds the item by its entry, and removes it again, unless its name is there.
fn add_and_take(map: &mut IdHashMap<Named>, item: Named) -> Option<Named>
    requires keyed { IsKeyedByText (λ x. x.name) map.old }
    ensures taken { OnSome result (result ≡ Some item) }
    ensures left { map.new.items ≡ map.old.items }
    ensures keyed { IsKeyedByText (λ x. x.name) map.new }
{
    match map.entry(&item.name) {
        Entry::Vacant(entry) => match entry.insert_entry(item) {
            Ok(added) => Some(added.remove()),
            Err(_refused) => None,
        },
        Entry::Occupied(_) => None,
    }
}
