//! The ordered map as it grows, with each request of each insertion refused in its turn.
use crate::prelude::*;
use iddqd::internal::ValidateCompact;
use test_support::maps;

// Whether the walk has the numbers below another, in order.
fn walks(map: &Ordered<Numbered>, end: u32) -> bool {
    map.map().iter().map(|item| item.number).eq(0..end)
}

fn is_sound(map: &Ordered<Numbered>) -> bool {
    let is_valid = map.map().validate(ValidateCompact::NonCompact).is_ok();
    let is_structured = map
        .map()
        .validate_structural(ValidateCompact::NonCompact)
        .is_ok();
    is_valid && is_structured
}

// Inserts the number after the existing ones, and returns whether it was refused. Then it is returned, the walk still
// has those before it, and no slot is vacant. Now it is inserted.
fn grow(map: &mut Ordered<Numbered>, number: u32) -> Result<bool, Fail> {
    let new = numbered(number, 5);
    let inserted = map.insert(new);
    if inserted == Inserted::Done {
        return Ok(false);
    }
    let is_back = inserted == Inserted::Refused(new, TryReserveError::alloc_error());
    let is_kept = walks(map, number) && map.map().vacant() == 0 && is_sound(map);
    if is_back && is_kept && map.insert(new) == Inserted::Done {
        return Ok(true);
    }
    Err(Fail::from("a number is gone, or is not back"))
}

// Of twelve numbers one is refused if a request is.
#[test]
fn growth_refused(rt: HostRuntime) -> Result<(), Fail> {
    let mut map = maps::in_order(rt.alloc());
    let mut is_refused = false;
    arm(rt.alloc());
    for number in 0..12 {
        is_refused = grow(&mut map, number)? || is_refused;
    }
    let is_met = is_met(rt.alloc());
    let is_well = is_refused == is_met && walks(&map, 12);
    let word = word_by_refusal(is_well, is_met, ["all_in", "key_back"]);
    tell(&rt, word)
}
