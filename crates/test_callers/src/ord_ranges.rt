//! Positions, ranges and walks from the back, over an ordered map.
ghost use Rattle.std.specs.Prelude.{◌≡◌, ◌≤◌, ◌/◌, ◌-◌, drop, length, option_copied, option_map, slice_get, sum_by, take};
ghost use Rattle.std.specs.Ordering.{nat_cmp};
ghost use Rattle.std.specs.String.{string_cmp};
ghost use Rattle.std.specs.declared.ops.Bound.TheVariants.{Included, Excluded};
ghost use Rattle.iddqd.specs.Contents.{Ascends};
ghost use Rattle.iddqd.specs.IdOrdMap.{items_between};
ghost use Rattle.test_callers.specs.Ranges.{IsGoneBetween, StaysBeside, first_name_from, last_pair_to, name_count_between, rank_of_key, SetsValueAt};

use iddqd::{IdOrdMap, Text};
use std::ops::Bound;
use test_writers::items::{Named, Pair};

/// The sum of the values of the keys from one up to another.
fn sum_between(all: &IdOrdMap<Pair>, from: u32, to: u32) -> u64
    requires keyed { Ascends (λ p. p.key) nat_cmp all.now.items }
    requires fits { sum_by (λ p. p.value) all.now.items ≤ u64.MAX }
    ensures { result ≡ sum_by (λ p. p.value)
        (items_between nat_cmp (λ p. p.key) (Included from) (Excluded to) all.now.items) }
{
    all.range(from..to).map(|p| p.value as u64).sum()
}

/// How many names there are from one text up to another.
fn count_names(all: &IdOrdMap<Named>, from: &str, to: &str) -> usize
    requires keyed { Ascends (λ x. x.name) string_cmp all.now.items }
    ensures { result ≡ name_count_between from.now to.now all.now.items }
{
    all.range(Text(from)..Text(to)).len()
}

/// The value of the first name from a text on.
fn value_from(all: &IdOrdMap<Named>, from: &str) -> Option<u32>
    requires keyed { Ascends (λ x. x.name) string_cmp all.now.items }
    ensures { result ≡ option_map (λ x. x.value) (first_name_from from.now all.now.items) }
{
    Some(all.lower_bound(Bound::Included(&Text(from)))?.value)
}

/// The pair of the greatest key that is not above the given one.
fn last_up_to(all: &IdOrdMap<Pair>, key: u32) -> Option<&Pair>
    requires keyed { Ascends (λ p. p.key) nat_cmp all.now.items }
    ensures { option_copied result ≡ last_pair_to key all.now.items }
{
    all.upper_bound(Bound::Included(&key))
}

/// The pair in the middle.
fn median(all: &IdOrdMap<Pair>) -> Option<&Pair>
    ensures { option_copied result ≡ slice_get all.now.items (length all.now.items / 2) }
{
    all.get_index(all.len() / 2)
}

/// How many keys are less than the given one.
fn rank_of(all: &IdOrdMap<Pair>, key: u32) -> usize
    requires keyed { Ascends (λ p. p.key) nat_cmp all.now.items }
    ensures { result ≡ rank_of_key key all.now.items }
{
    match all.index_of(&key) {
        Ok(place) => place,
        Err(place) => place,
    }
}

/// The sum of the values on a page of a listing: of the names from one position up to another.
fn sum_of_page(all: &IdOrdMap<Named>, from: usize, to: usize) -> u64
    requires fits { sum_by (λ x. x.value) all.now.items ≤ u64.MAX }
    ensures { result ≡ sum_by (λ x. x.value) (drop from (take to all.now.items)) }
{
    all.range_index(from..to).map(|x| x.value as u64).sum()
}

/// How many pairs there are, counted from the back.
fn count_back(all: &IdOrdMap<Pair>) -> usize
    ensures { result ≡ length all.now.items }
{
    all.iter().rev().count()
}

/// Removes the pair at the position, and returns its value.
fn remove_at(all: &mut IdOrdMap<Pair>, index: usize) -> Option<u32>
    requires keyed { Ascends (λ p. p.key) nat_cmp all.old.items }
    ensures value { result ≡ option_map (λ p. p.value) (slice_get all.old.items index) }
    ensures keyed { Ascends (λ p. p.key) nat_cmp all.new.items }
{
    Some(all.remove_index(index)?.value)
}

/// Writes a value to the pair at the position.
#[tactic(auto, using(iddqd::proofs::GuardLemmas::same_key_kept))]
fn set_at(all: &mut IdOrdMap<Pair>, index: usize, value: u32) -> bool
    requires keyed { Ascends (λ p. p.key) nat_cmp all.old.items }
    ensures written { SetsValueAt index value all.old.items all.new.items }
    ensures keyed { Ascends (λ p. p.key) nat_cmp all.new.items }
{
    match all.get_index_mut(index) {
        Some(mut found) => {
            found.value = value;
            found.finish();
            true
        }
        None => false,
    }
}

/// Removes the pair at the position by its entry.
fn take_at(all: &mut IdOrdMap<Pair>, index: usize) -> Option<Pair>
    requires keyed { Ascends (λ p. p.key) nat_cmp all.old.items }
    ensures value { result ≡ slice_get all.old.items index }
    ensures keyed { Ascends (λ p. p.key) nat_cmp all.new.items }
{
    Some(all.get_index_entry(index)?.remove())
}

/// Removes the keys from one up to another. None of them is found then, and each other one is.
#[tactic(auto, using(iddqd::proofs::ChangeLemmas::after_changes))]
fn remove_between(all: &mut IdOrdMap<Pair>, from: u32, to: u32, beside: u32) -> Option<u32>
    requires keyed { Ascends (λ p. p.key) nat_cmp all.old.items }
    ensures gone { IsGoneBetween from to all.new.items }
    ensures others { StaysBeside from to beside all.old.items result }
{
    all.remove_range(from..to);
    Some(all.get(&beside)?.value)
}
