//! Insertions into an ordered map, and removals.
ghost use Rattle.std.specs.Prelude.{◌≡◌, ◌+◌, IfSome, IsTrue, None, Some, length, string_bytes};
ghost use Rattle.std.specs.String.{string_cmp};
ghost use Rattle.iddqd.specs.Contents.{Ascends};
ghost use Rattle.test_callers.specs.Lookups.{KeepsOtherNames, of_key, of_name, total, value_of};

use iddqd::{IdOrdMap, Text};
use test_writers::items::Named;

/// `is_ok()`; what was inserted is found, each other name finds what it found, the value is in the sum, and there is one
/// item more.
#[tactic(auto, using(iddqd::proofs::ChangeLemmas::after_changes))]
fn add_named(all: &mut IdOrdMap<Named>, item: Named) -> bool
    requires keyed { Ascends (λ x. x.name) string_cmp all.old.items }
    ensures found { IsTrue result → of_key item.name all.new.items ≡ Some item }
    ensures others { KeepsOtherNames (string_bytes item.name) all.old.items all.new.items }
    ensures sum { IsTrue result → total all.new.items ≡ total all.old.items + item.value }
    ensures longer { IsTrue result → length all.new.items ≡ length all.old.items + 1 }
    ensures keyed { Ascends (λ x. x.name) string_cmp all.new.items }
{
    all.insert_unique(item).is_ok()
}

/// What was removed is not found, each other name finds what it found, and there is one item less.
#[tactic(auto, using(iddqd::proofs::ChangeLemmas::after_changes))]
fn remove(all: &mut IdOrdMap<Named>, name: &str) -> Option<Named>
    requires keyed { Ascends (λ x. x.name) string_cmp all.old.items }
    ensures gone { of_name name.now all.new.items ≡ None }
    ensures others { KeepsOtherNames name.now all.old.items all.new.items }
    ensures sum { total all.new.items + value_of result ≡ total all.old.items }
    ensures shorter { IfSome result (λ _. length all.new.items + 1 ≡ length all.old.items) }
    ensures keyed { Ascends (λ x. x.name) string_cmp all.new.items }
{
    all.remove(&Text(name))
}

/// Once the first item is removed, its name finds nothing, and each other name finds what it found. Its value has left
/// the sum.
#[tactic(auto, using(iddqd::proofs::ChangeLemmas::after_changes))]
fn remove_first(all: &mut IdOrdMap<Named>) -> Option<Named>
    requires keyed { Ascends (λ x. x.name) string_cmp all.old.items }
    ensures gone { IfSome result (λ x. of_key x.name all.new.items ≡ None) }
    ensures others { IfSome result (λ x. KeepsOtherNames (string_bytes x.name) all.old.items all.new.items) }
    ensures sum { total all.new.items + value_of result ≡ total all.old.items }
    ensures keyed { Ascends (λ x. x.name) string_cmp all.new.items }
{
    all.pop_first()
}

/// After `clear` nothing is found.
fn clear(all: &mut IdOrdMap<Named>, name: &str) -> usize
    ensures none { of_name name.now all.new.items ≡ None }
    ensures len { result ≡ 0 }
    ensures keyed { Ascends (λ x. x.name) string_cmp all.new.items }
{
    all.clear();
    all.len()
}
