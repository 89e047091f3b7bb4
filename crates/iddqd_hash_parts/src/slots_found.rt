//! The slots that two searches found, in the order of their numbers and each once.
ghost use Rattle.std.specs.Prelude.{◌≡◌, []};
ghost use Rattle.iddqd_store.specs.Errors.{values_of};
ghost use Rattle.iddqd_hash_parts.specs.SlotsFound.{slots_with, slots_with_found, values_if_any};

use iddqd_store::Few;

/// Returns the slots that two searches found, the lesser first and each once.
pub fn rising_slots(one: Option<u32>, other: Option<u32>) -> Option<Few<u32>>
    ensures { values_if_any result ≡ slots_with_found other (slots_with_found one []) }
{
    match (one, other) {
        (None, None) => None,
        (Some(slot), None) | (None, Some(slot)) => Some(Few::One(slot)),
        (Some(one), Some(other)) => Some(two_slots(one, other)),
    }
}

// Two slots, the lesser first, or one if they are the same.
fn two_slots(one: u32, other: u32) -> Few<u32>
    ensures { values_of result ≡ slots_with other (slots_with one []) }
{
    if other == one {
        Few::One(one)
    } else if other < one {
        Few::Two(other, one)
    } else {
        Few::Two(one, other)
    }
}
