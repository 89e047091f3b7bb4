//! Adding many items to a hash map.
ghost use Rattle.std.specs.Prelude.{◌≡◌, ◌≤◌, ◌++◌, [], IfSome, IsTrue, IsPermutation};
ghost use Rattle.std.specs.String.{string_eq};
ghost use Rattle.iddqd.specs.Contents.{NoTwoAkin};
ghost use Rattle.iddqd.specs.IdHashMap.{IsKeyedByText};
ghost use Rattle.test_callers.specs.Adding.{ComesBehindNew, PutsAll, ShowsConflict};

use crate::hash_insertions;
use iddqd::errors::ExtendUniqueError;
use iddqd::{IdHashMap, Keyed, MAX_ITEMS};
use std::alloc::Global;
use std::hash::BuildHasher;
use test_writers::items::{Named, Pair};

/// Adds pairs up to the first whose key is there, and shows that one and the one that is there.
fn add_and_show<S: BuildHasher>(
    map: &mut IdHashMap<Pair, S>,
    pairs: Vec<Pair>,
) -> Option<(Pair, Pair)>
    requires keyed { ⟦<IdHashMap<Pair, S> as Keyed>⟧.keyed map.old }
    ensures conflict { IfSome result (ShowsConflict map.old.items map.new.items) }
    ensures given { IfSome result (ComesBehindNew pairs.items map.old.items) }
    ensures keyed { ⟦<IdHashMap<Pair, S> as Keyed>⟧.keyed map.new }
{
    match map.extend_unique(pairs) {
        Ok(()) => None,
        Err(ExtendUniqueError::Duplicate(conflict)) => {
            let there = **conflict.duplicates().get(0)?;
            Some((*conflict.new_item(), there))
        }
        Err(ExtendUniqueError::Refused(_)) => None,
    }
}

/// Adds each item by a function on the bare map: the loop's invariant is that the map is keyed.
fn add_in_turn(all: &mut IdHashMap<Named>, items: Vec<Named>) -> bool
    requires keyed { IsKeyedByText (λ x. x.name) all.old }
    ensures keyed { IsKeyedByText (λ x. x.name) all.new }
{
    let mut all_added = true;
    for item in items {
        all_added &= hash_insertions::add_named(all, item);
    }
    all_added
}

/// Adds all items, and tells whether all are in.
fn add_all(all: &mut IdHashMap<Named>, items: Vec<Named>) -> bool
    requires keyed { IsKeyedByText (λ x. x.name) all.old }
    ensures added { IsTrue result → IsPermutation
        (all.old.items ++ items.items) all.new.items }
    ensures keyed { IsKeyedByText (λ x. x.name) all.new }
{
    match all.extend_unique(items) {
        Ok(()) => true,
        Err(_error) => false,
    }
}

/// Inserts all items, each in the place of one of its name, and tells whether all are in.
fn put_all(all: &mut IdHashMap<Named>, items: Vec<Named>) -> bool
    requires keyed { IsKeyedByText (λ x. x.name) all.old }
    ensures put { IsTrue result → PutsAll all.old.limit items.items all.old.items all.new.items }
    ensures keyed { IsKeyedByText (λ x. x.name) all.new }
{
    all.extend(items).is_ok()
}

/// Collects the items, of each name the last one.
fn collect(alloc: Global, items: Vec<Named>) -> Option<IdHashMap<Named>>
    ensures { IfSome result (λ m. PutsAll MAX_ITEMS items.items [] m.items) }
{
    IdHashMap::from_iter(alloc, items).ok()
}

/// Collects the items, if each has a name of its own.
fn collect_unique(alloc: Global, items: Vec<Named>) -> Option<IdHashMap<Named>>
    ensures differ { IfSome result (λ _. NoTwoAkin (λ x. x.name) string_eq items.items) }
    ensures same { IfSome result (λ m. IsPermutation items.items m.items) }
{
    match IdHashMap::from_iter_unique(alloc, items) {
        Ok(map) => Some(map),
        Err(_error) => None,
    }
}

/// Gives back the memory that is not needed for the items, or for eight of them.
fn trim(all: &mut IdHashMap<Named>) -> bool
    requires keyed { IsKeyedByText (λ x. x.name) all.old }
    ensures same { IsPermutation all.old.items all.new.items }
    ensures closed { all.new.vacant ≡ 0 }
    ensures lower { all.new.capacity ≤ all.old.capacity }
    ensures keyed { IsKeyedByText (λ x. x.name) all.new }
{
    all.shrink_to(8).is_ok()
}
