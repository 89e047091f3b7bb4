//! Lookups in both maps.
ghost use Rattle.std.specs.Prelude.{◌≡◌, ◌∷◌, [], IfNone, IfSome, option_map};
ghost use Rattle.std.specs.Ordering.{nat_cmp};
ghost use Rattle.std.specs.String.{string_cmp};
ghost use Rattle.iddqd.specs.Contents.{Ascends};
ghost use Rattle.iddqd.specs.IdHashMap.{IsKeyedByText};
ghost use Rattle.test_callers.specs.Lookups.{of_name};

use crate::items::Noted;
use iddqd::{IdHashMap, IdOrdMap, Text};
use test_writers::items::Named;

fn value_of(map: &IdOrdMap<Named>, name: &str) -> Option<u32>
    requires keyed { Ascends (λ x. x.name) string_cmp map.now.items }
    ensures { result ≡ option_map (λ x. x.value) (of_name name.now map.now.items) }
{
    Some(map.get(&Text(name))?.value)
}

fn hash_value_of(map: &IdHashMap<Named>, name: &str) -> Option<u32>
    requires keyed { IsKeyedByText (λ x. x.name) map.now }
    ensures { result ≡ option_map (λ x. x.value) (of_name name.now map.now.items) }
{
    Some(map.get(&Text(name))?.value)
}

/// Removes the item of the least number.
fn remove_oldest(log: &mut IdOrdMap<Noted>) -> Option<Noted>
    requires keyed { Ascends (λ x. x.number) nat_cmp log.old.items }
    ensures oldest { IfSome result (λ x. log.old.items ≡ x ∷ log.new.items) }
    ensures empty { IfNone result (log.old.items ≡ []) }
    ensures keyed { Ascends (λ x. x.number) nat_cmp log.new.items }
{
    log.pop_first()
}
