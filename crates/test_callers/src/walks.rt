//! Walks: a caller's loop is a loop over the plain list of the items; a walk that writes, and one that retains.
ghost use Rattle.std.specs.Prelude.{◌≡◌, ◌≤◌, filter, nat_lt, sum_by};
ghost use Rattle.std.specs.Ordering.{nat_cmp};
ghost use Rattle.iddqd.specs.Contents.{Ascends};
ghost use Rattle.iddqd.specs.IdHashMap.{IsKeyedByText};
ghost use Rattle.test_writers.specs.Zeroed.{zeroed, changed_to};

use iddqd::{IdHashMap, IdOrdMap};
use test_writers::items::{Named, Pair};

/// The sum of the values, along the ordered map.
fn sum_in_order(all: &IdOrdMap<Pair>) -> u64
    requires fits { sum_by (λ pair. pair.value) all.now.items ≤ u64.MAX }
    ensures { result ≡ sum_by (λ pair. pair.value) all.now.items }
{
    let mut sum = 0;
    for pair in all {
        sum += pair.value as u64;
    }
    sum
}

/// The sum of the values of the hash map.
fn sum(all: &IdHashMap<Pair>) -> u64
    requires fits { sum_by (λ pair. pair.value) all.now.items ≤ u64.MAX }
    ensures { result ≡ sum_by (λ pair. pair.value) all.now.items }
{
    let mut sum = 0;
    for pair in all {
        sum += pair.value as u64;
    }
    sum
}

/// The sum of the values, of a map that is used up.
fn sum_of_gone(all: IdOrdMap<Pair>) -> u64
    requires fits { sum_by (λ pair. pair.value) all.items ≤ u64.MAX }
    ensures { result ≡ sum_by (λ pair. pair.value) all.items }
{
    let mut sum = 0;
    for pair in all {
        sum += pair.value as u64;
    }
    sum
}

/// Sets the first value to zero, and ends the walk there.
#[tactic(auto, using(test_writers::proofs::ZeroedLemmas::changed_none, test_writers::proofs::ZeroedLemmas::changed_first))]
fn zero_first(all: &mut IdOrdMap<Pair>)
    requires keyed { Ascends (λ p. p.key) nat_cmp all.old.items }
    ensures { all.new ≡ record all.old { items = changed_to zeroed all.old.items 1 } }
{
    let mut walk = all.iter_mut();
    if let Some(pair) = walk.next() {
        pair.value = 0;
    }
}

/// Keeps the items of greater value.
fn keep_greater(all: &mut IdHashMap<Named>, least: u32)
    requires keyed { IsKeyedByText (λ x. x.name) all.old }
    ensures kept { all.new.items ≡ filter (λ x. nat_lt least x.value) all.old.items }
    ensures keyed { IsKeyedByText (λ x. x.name) all.new }
{
    all.retain(|x| least < x.value);
}
