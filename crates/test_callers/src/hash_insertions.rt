//! Insertions into a hash map, with the result matched in each form, and removals.
ghost use Rattle.std.specs.Prelude.{◌≡◌, ◌+◌, IfSome, IsTrue, None, Some, length, string_bytes};
ghost use Rattle.iddqd.specs.IdHashMap.{IsKeyedByText};
ghost use Rattle.test_callers.specs.Lookups.{KeepsOtherNames, KeepsOtherNumbers, of_key, of_name, of_number, total, value_of};

use crate::items::Noted;
use iddqd::errors::InsertError;
use iddqd::{IdHashMap, Keyed, Text};
use test_writers::items::Named;

/// Three arms: the value of the item that is there, or of the one that was refused.
fn add_or_show(all: &mut IdHashMap<Named>, item: Named) -> Option<u32>
    requires keyed { IsKeyedByText (λ x. x.name) all.old }
    ensures shown { IfSome (of_key item.name all.old.items) (λ x. result ≡ Some x.value) }
    ensures keyed { IsKeyedByText (λ x. x.name) all.new }
{
    match all.insert_unique(item) {
        Ok(()) => None,
        Err(InsertError::Duplicate(both)) => Some(both.duplicates().first().value),
        Err(InsertError::Refused(refused)) => Some(refused.item.value),
    }
}

/// Joined arms; what was inserted is found, and each other number finds what it found.
#[tactic(auto, using(iddqd::proofs::ChangeLemmas::after_changes))]
fn add(all: &mut IdHashMap<Noted>, item: Noted) -> bool
    requires keyed { ⟦<IdHashMap<Noted> as Keyed>⟧.keyed all.old }
    ensures found { IsTrue result → of_number item.number all.new.items ≡ Some item }
    ensures others { KeepsOtherNumbers item.number all.old.items all.new.items }
    ensures keyed { ⟦<IdHashMap<Noted> as Keyed>⟧.keyed all.new }
{
    match all.insert_unique(item) {
        Ok(()) => true,
        Err(InsertError::Duplicate(_) | InsertError::Refused(_)) => false,
    }
}

/// `let .. else`.
fn add_or_leave(all: &mut IdHashMap<Noted>, item: Noted) -> bool
    requires keyed { ⟦<IdHashMap<Noted> as Keyed>⟧.keyed all.old }
    ensures keyed { ⟦<IdHashMap<Noted> as Keyed>⟧.keyed all.new }
{
    let Ok(()) = all.insert_unique(item) else {
        return false;
    };
    true
}

/// `is_ok()`; what was inserted is found, each other name finds what it found, the value is in the sum, and there is one
/// item more.
#[tactic(auto, using(iddqd::proofs::ChangeLemmas::after_changes))]
pub(crate) fn add_named(all: &mut IdHashMap<Named>, item: Named) -> bool
    requires keyed { IsKeyedByText (λ x. x.name) all.old }
    ensures found { IsTrue result → of_key item.name all.new.items ≡ Some item }
    ensures others { KeepsOtherNames (string_bytes item.name) all.old.items all.new.items }
    ensures sum { IsTrue result → total all.new.items ≡ total all.old.items + item.value }
    ensures longer { IsTrue result → length all.new.items ≡ length all.old.items + 1 }
    ensures keyed { IsKeyedByText (λ x. x.name) all.new }
{
    all.insert_unique(item).is_ok()
}

/// `?`, behind a function that makes the error into one of the caller's.
fn add_question(all: &mut IdHashMap<Noted>, item: Noted) -> Result<(), String>
    requires keyed { ⟦<IdHashMap<Noted> as Keyed>⟧.keyed all.old }
    ensures keyed { ⟦<IdHashMap<Noted> as Keyed>⟧.keyed all.new }
{
    all.insert_unique(item).map_err(note_of)?;
    Ok(())
}

fn note_of(error: InsertError<'_, Noted>) -> String {
    match error {
        InsertError::Duplicate(both) => both.into_parts().0.note,
        InsertError::Refused(refused) => refused.item.note,
    }
}

/// What was overwritten is found, and each other name finds what it found.
#[tactic(auto, using(iddqd::proofs::ChangeLemmas::after_changes))]
fn put(all: &mut IdHashMap<Named>, item: Named) -> bool
    requires keyed { IsKeyedByText (λ x. x.name) all.old }
    ensures found { IsTrue result → of_key item.name all.new.items ≡ Some item }
    ensures others { KeepsOtherNames (string_bytes item.name) all.old.items all.new.items }
    ensures keyed { IsKeyedByText (λ x. x.name) all.new }
{
    match all.insert_overwrite(item) {
        Ok(_) => true,
        Err(_refused) => false,
    }
}

/// What was removed is not found, each other name finds what it found, and there is one item less.
#[tactic(auto, using(iddqd::proofs::ChangeLemmas::after_changes))]
fn remove(all: &mut IdHashMap<Named>, name: &str) -> Option<Named>
    requires keyed { IsKeyedByText (λ x. x.name) all.old }
    ensures gone { of_name name.now all.new.items ≡ None }
    ensures others { KeepsOtherNames name.now all.old.items all.new.items }
    ensures sum { total all.new.items + value_of result ≡ total all.old.items }
    ensures shorter { IfSome result (λ _. length all.new.items + 1 ≡ length all.old.items) }
    ensures keyed { IsKeyedByText (λ x. x.name) all.new }
{
    all.remove(&Text(name))
}

/// After `clear` nothing is found.
fn clear(all: &mut IdHashMap<Named>, name: &str) -> usize
    ensures none { of_name name.now all.new.items ≡ None }
    ensures len { result ≡ 0 }
    ensures keyed { IsKeyedByText (λ x. x.name) all.new }
{
    all.clear();
    all.len()
}
