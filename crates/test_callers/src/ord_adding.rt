//! Adding many items to an ordered map.
ghost use Rattle.std.specs.Prelude.{◌≡◌, ◌≤◌, ◌++◌, IfSome, IsTrue, IsPermutation};
ghost use Rattle.std.specs.String.{string_cmp, string_eq};
ghost use Rattle.iddqd.specs.Contents.{Ascends, NoTwoAkin};

use iddqd::IdOrdMap;
use std::alloc::Global;
use test_writers::items::Named;

/// Adds all items, and tells whether all are in.
fn add_all(all: &mut IdOrdMap<Named>, items: Vec<Named>) -> bool
    requires keyed { Ascends (λ x. x.name) string_cmp all.old.items }
    ensures added { IsTrue result → IsPermutation
        (all.old.items ++ items.items) all.new.items }
    ensures keyed { Ascends (λ x. x.name) string_cmp all.new.items }
{
    all.extend_unique(items).is_ok()
}

/// Collects the items, if each has a name of its own.
fn collect_unique(alloc: Global, items: Vec<Named>) -> Option<IdOrdMap<Named>>
    ensures differ { IfSome result (λ _. NoTwoAkin (λ x. x.name) string_eq items.items) }
    ensures same { IfSome result (λ m. IsPermutation items.items m.items) }
{
    IdOrdMap::from_iter_unique(alloc, items).ok()
}

/// Gives back the memory that is not needed for the items, or for eight of them.
fn trim(all: &mut IdOrdMap<Named>) -> bool
    requires keyed { Ascends (λ x. x.name) string_cmp all.old.items }
    ensures same { all.new.items ≡ all.old.items }
    ensures closed { all.new.vacant ≡ 0 }
    ensures lower { all.new.capacity ≤ all.old.capacity }
    ensures keyed { Ascends (λ x. x.name) string_cmp all.new.items }
{
    all.shrink_to(8).is_ok()
}
