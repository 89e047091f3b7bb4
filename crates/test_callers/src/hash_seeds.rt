//! Callers of a hash map with text keys whose hasher has a random seed.
ghost use Rattle.std.specs.Prelude.{◌≡◌};
ghost use Rattle.iddqd.specs.IdHashMap.{IsKeyedByTextUnder, random_hash};
ghost use Rattle.test_callers.specs.Lookups.{of_name};

use iddqd::{IdHashMap, Text};
use std::alloc::Global;
use std::collections::hash_map::RandomState;
use test_writers::items::Named;

/// A map without items is keyed.
fn made(alloc: Global, state: RandomState) -> IdHashMap<Named, RandomState>
    ensures keyed { IsKeyedByTextUnder random_hash (λ x. x.name) result }
{
    IdHashMap::with_hasher(alloc, state)
}

/// A lookup by a text.
fn remove(all: &mut IdHashMap<Named, RandomState>, name: &str) -> Option<Named>
    requires keyed { IsKeyedByTextUnder random_hash (λ x. x.name) all.old }
    ensures value { result ≡ of_name name.now all.old.items }
    ensures keyed { IsKeyedByTextUnder random_hash (λ x. x.name) all.new }
{
    all.remove(&Text(name))
}
