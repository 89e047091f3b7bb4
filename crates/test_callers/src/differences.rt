//! Callers of the difference of two maps, over items that own text: what it counts, names, sums, and makes of a copy.
ghost use Rattle.std.specs.Prelude.{◌≡◌, ◌+◌, ◌≤◌, [], IfOk, IsTrue, filter, length, map, sum_by};
ghost use Rattle.std.specs.List.{AllZip};
ghost use Rattle.std.specs.String.{string_cmp, string_eq};
ghost use Rattle.iddqd.specs.Contents.{Ascends};
ghost use Rattle.iddqd.specs.IdHashMap.{IsKeyedByText};
ghost use Rattle.iddqd_diff.specs.Applying.{HoldsClones};
ghost use Rattle.iddqd_diff.specs.Difference.{lacks};
ghost use Rattle.test_callers.specs.Differences.{added};

use iddqd::errors::TryReserveError;
use iddqd::{IdHashMap, IdOrdMap};
use iddqd_diff::{Diffable, Difference, id_hash_map, id_ord_map};
use std::alloc::{AllocError, Global};
use test_writers::items::Named;

/// How many names were removed and added, and how many both maps have.
#[derive(Clone, Copy)]
pub(crate) struct Numbers {
    pub(crate) removed: usize,
    pub(crate) added: usize,
    pub(crate) kept: usize,
}

fn count(before: &IdOrdMap<Named>, after: &IdOrdMap<Named>) -> Numbers
    requires before_keyed { Ascends (λ x. x.name) string_cmp before.now.items }
    requires after_keyed { Ascends (λ x. x.name) string_cmp after.now.items }
    ensures before { result.removed + result.kept ≡ length before.now.items }
    ensures after { result.added + result.kept ≡ length after.now.items }
{
    let mut numbers = Numbers {
        removed: 0,
        added: 0,
        kept: 0,
    };
    for difference in before.diff(after) {
        match difference {
            Difference::Removed(_) => numbers.removed += 1,
            Difference::Added(_) => numbers.added += 1,
            Difference::Kept(_, _) => numbers.kept += 1,
        }
    }
    numbers
}

fn count_by_hash(before: &IdHashMap<Named>, after: &IdHashMap<Named>) -> Numbers
    requires before_keyed { IsKeyedByText (λ x. x.name) before.now }
    requires after_keyed { IsKeyedByText (λ x. x.name) after.now }
    ensures before { result.removed + result.kept ≡ length before.now.items }
    ensures after { result.added + result.kept ≡ length after.now.items }
{
    let mut numbers = Numbers {
        removed: 0,
        added: 0,
        kept: 0,
    };
    for difference in before.diff(after) {
        match difference {
            Difference::Removed(_) => numbers.removed += 1,
            Difference::Added(_) => numbers.added += 1,
            Difference::Kept(_, _) => numbers.kept += 1,
        }
    }
    numbers
}

/// The names that were added, in order.
fn added_names<'a>(
    alloc: Global,
    before: &IdOrdMap<Named>,
    after: &'a IdOrdMap<Named>,
) -> Result<Vec<&'a String>, AllocError>
    requires before_keyed { Ascends (λ x. x.name) string_cmp before.now.items }
    requires after_keyed { Ascends (λ x. x.name) string_cmp after.now.items }
    ensures { IfOk result (λ names. map (λ name. name.now) names.items ≡ map (λ x. x.name)
        (filter (lacks (λ x. x.name) string_eq before.now.items) after.now.items)) }
{
    let mut names = Vec::new(alloc);
    for difference in before.diff(after) {
        if let Difference::Added(item) = difference {
            names.push(&item.name)?;
        }
    }
    Ok(names)
}

/// The sum of the values that were added.
fn added_sum(before: &IdHashMap<Named>, after: &IdHashMap<Named>) -> u64
    requires before_keyed { IsKeyedByText (λ x. x.name) before.now }
    requires after_keyed { IsKeyedByText (λ x. x.name) after.now }
    requires fits { sum_by (λ x. x.value) (added before.now.items after.now.items) ≤ u64.MAX }
    ensures { result ≡ sum_by (λ x. x.value) (added before.now.items after.now.items) }
{
    let mut sum = 0u64;
    for difference in before.diff(after) {
        if let Difference::Added(item) = difference {
            sum += item.value as u64;
        }
    }
    sum
}

/// A copy of the old map, brought up to the new one.
fn updated(
    before: &IdOrdMap<Named>,
    after: &IdOrdMap<Named>,
) -> Result<IdOrdMap<Named>, TryReserveError>
    requires before_keyed { Ascends (λ x. x.name) string_cmp before.now.items }
    requires after_keyed { Ascends (λ x. x.name) string_cmp after.now.items }
    ensures clones { IfOk result (λ all. AllZip ⟦<Named as Clone>⟧.is_clone after.now.items all.items) }
    ensures keyed { IfOk result (λ all. Ascends (λ x. x.name) string_cmp all.items) }
{
    let mut all = before.clone()?;
    id_ord_map::apply(&mut all, before, after)?;
    Ok(all)
}

/// The same of hash maps, in some order.
fn updated_by_hash(
    before: &IdHashMap<Named>,
    after: &IdHashMap<Named>,
) -> Result<IdHashMap<Named>, TryReserveError>
    requires before_keyed { IsKeyedByText (λ x. x.name) before.now }
    requires after_keyed { IsKeyedByText (λ x. x.name) after.now }
    ensures clones { IfOk result (λ all. HoldsClones ⟦<Named as Clone>⟧.is_clone after.now.items all.items) }
    ensures keyed { IfOk result (IsKeyedByText (λ x. x.name)) }
{
    let mut all = before.clone()?;
    id_hash_map::apply(&mut all, before, after)?;
    Ok(all)
}

/// Whether no name was added. Either map may have other values.
fn adds_none(before: &IdHashMap<Named>, after: &IdHashMap<Named>) -> bool
    requires before_keyed { IsKeyedByText (λ x. x.name) before.now }
    requires after_keyed { IsKeyedByText (λ x. x.name) after.now }
    ensures { IsTrue result → added before.now.items after.now.items ≡ [] }
{
    id_hash_map::have_same_keys(before, after)
}
