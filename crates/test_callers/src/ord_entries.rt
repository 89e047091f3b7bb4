//! Entries of an ordered map.
ghost use Rattle.std.specs.Prelude.{◌≡◌, ◌-◌, IfNone, IfSome, IsTrue, OnSome, Some, false, length, take};
ghost use Rattle.std.specs.Ordering.{nat_cmp};
ghost use Rattle.std.specs.String.{string_cmp};
ghost use Rattle.iddqd.specs.Contents.{AddsItem, Ascends};
ghost use Rattle.test_callers.specs.Lookups.{AddsIfNew, AddsPairIfNew, SetsAtKey, SetsFirst, last_of, of_key, of_name, with_value, without_name};
ghost use Rattle.test_writers.specs.Pairs.{pair_at};

use iddqd::id_ord_map::Entry;
use iddqd::{IdOrdMap, Text};
use test_writers::items::{Named, Pair, SetsValue};

/// Adds the item, and then writes another value.
#[tactic(auto, using(iddqd::proofs::GuardLemmas::same_key_kept))]
fn add_and_write(map: &mut IdOrdMap<Named>, item: Named, then: u32) -> bool
    requires keyed { Ascends (λ x. x.name) string_cmp map.old.items }
    ensures added { IsTrue result → AddsItem (with_value then item) map.old.items map.new.items }
    ensures kept { result ≡ false → map.new.items ≡ map.old.items }
    ensures keyed { Ascends (λ x. x.name) string_cmp map.new.items }
{
    match map.entry(&item.name) {
        Entry::Vacant(entry) => match entry.insert(item) {
            Ok(mut added) => {
                added.value = then;
                added.finish();
                true
            }
            Err(_refused) => false,
        },
        Entry::Occupied(_) => false,
    }
}

/// Removes the item of the name.
fn take(map: &mut IdOrdMap<Named>, name: &str) -> Option<Named>
    requires keyed { Ascends (λ x. x.name) string_cmp map.old.items }
    ensures found { result ≡ of_name name.now map.old.items }
    ensures left { map.new.items ≡ without_name name.now map.old.items }
    ensures keyed { Ascends (λ x. x.name) string_cmp map.new.items }
{
    match map.entry(&Text(name)) {
        Entry::Occupied(entry) => Some(entry.remove()),
        Entry::Vacant(_) => None,
    }
}

/// Writes the value of the item of that name, or adds the item.
fn set_or_add(map: &mut IdOrdMap<Named>, set: u32, item: Named) -> bool
    requires keyed { Ascends (λ x. x.name) string_cmp map.old.items }
    ensures set { SetsAtKey item.name set map.old.items map.new.items }
    ensures added { IsTrue result → AddsIfNew item map.old.items map.new.items }
    ensures kept { result ≡ false → map.new.items ≡ map.old.items }
    ensures keyed { Ascends (λ x. x.name) string_cmp map.new.items }
{
    let entry = map
        .entry(&item.name)
        .and_modify(&mut SetsValue { value: set });
    match entry.or_insert(item) {
        Ok(found) => {
            found.finish();
            true
        }
        Err(_refused) => false,
    }
}

/// Shows the value of the key, or adds the key with this one.
fn show_or_add(map: &mut IdOrdMap<Pair>, key: u32, value: u32) -> Option<u32>
    requires keyed { Ascends (λ p. p.key) nat_cmp map.old.items }
    ensures found { IfSome (pair_at key map.old.items) (λ p. result ≡ Some p.value) }
    ensures unchanged { IfSome (pair_at key map.old.items) (λ _. map.new ≡ map.old) }
    ensures added { OnSome result (AddsPairIfNew key value map.old.items map.new.items) }
    ensures kept { IfNone result (map.new.items ≡ map.old.items) }
{
    match map.entry(&key).or_insert_with_ref(|| Pair { key, value }) {
        Ok(shown) => Some(shown.value),
        Err(_) => None,
    }
}

/// Writes the first pair's value.
fn set_first(map: &mut IdOrdMap<Pair>, value: u32)
    requires keyed { Ascends (λ p. p.key) nat_cmp map.old.items }
    ensures set { SetsFirst value map.old.items map.new.items }
    ensures keyed { Ascends (λ p. p.key) nat_cmp map.new.items }
{
    if let Some(mut entry) = map.first_entry() {
        entry.get_mut().value = value;
    }
}

/// Writes a value through the entry, and another one through its guard.
#[tactic(auto, using(iddqd::proofs::GuardLemmas::same_key_kept))]
fn write_and_lend(map: &mut IdOrdMap<Named>, name: &str, value: u32, then: u32)
    requires keyed { Ascends (λ x. x.name) string_cmp map.old.items }
    ensures keyed { Ascends (λ x. x.name) string_cmp map.new.items }
{
    if let Entry::Occupied(mut entry) = map.entry(&Text(name)) {
        entry.get_mut().value = value;
        let mut found = entry.into_mut();
        found.value = then;
        found.finish();
    }
}

/// Removes the item of the greatest name, if its value is this one.
fn take_last_of(map: &mut IdOrdMap<Named>, value: u32) -> Option<Named>
    requires keyed { Ascends (λ x. x.name) string_cmp map.old.items }

    // if it is taken
    ensures last { IfSome result (λ x. last_of map.old.items ≡ Some x) }
    ensures value { IfSome result (λ x. x.value ≡ value) }
    ensures left { OnSome result (map.new.items ≡ take (length map.old.items - 1) map.old.items) }

    // if it is not
    ensures kept { IfNone result (map.new ≡ map.old) }

    // either way
    ensures keyed { Ascends (λ x. x.name) string_cmp map.new.items }
{
    let entry = map.last_entry()?;
    if entry.get().value == value {
        Some(entry.remove())
    } else {
        None
    }
}
