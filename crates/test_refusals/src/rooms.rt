//! Reservations, shrinking and calls on many items that are refused, on both maps.
use crate::numbers::{fill, holds, numbers};
use crate::prelude::*;
use test_support::maps::Added;
use test_support::nine::{are_left, retain_nine};

// Room for a thousand, by `try_reserve` or `reserve`.
fn make_room(map: &mut Either<Numbered>, is_tried: bool) -> Result<(), TryReserveError> {
    match is_tried {
        true => map.try_reserve(1000),
        false => map.reserve(1000),
    }
}

// The word for a reservation on a map of four numbers. It succeeds once it is made again.
fn room(alloc: Global, mut map: Either<Numbered>, is_tried: bool) -> Word {
    let is_full = fill(&mut map, 4);
    let walk = map.listed(alloc)?;
    let room = map.room();
    arm(alloc);
    let made = make_room(&mut map, is_tried).map(|()| true);
    let is_met = is_met(alloc);
    let is_kept = holds(&map, 4) && map.lists(walk.as_slice()) && map.room() >= room;
    let is_again = make_room(&mut map, is_tried).is_ok();
    let is_well = is_full && is_due(made, is_met) && is_kept && is_again;
    word_by_refusal(is_well, is_met, ["made", "room_refused"])
}

#[test]
fn reserve(rt: HostRuntime) -> Result<(), Fail> {
    tell(&rt, room(rt.alloc(), in_order(rt.alloc()), false))
}

#[test]
fn hash_reserve(rt: HostRuntime) -> Result<(), Fail> {
    tell(&rt, room(rt.alloc(), by_hash(rt.alloc()), false))
}

#[test]
fn hash_try_reserve(rt: HostRuntime) -> Result<(), Fail> {
    tell(&rt, room(rt.alloc(), by_hash(rt.alloc()), true))
}

// The word for a shrink of a map of nine numbers, with vacant slots among them: to the capacity, or to fit.
fn shrink(alloc: Global, mut map: Either<Numbered>, capacity: Option<usize>) -> Word {
    let is_full = retain_nine(&mut map);
    arm(alloc);
    let shrunk = match capacity {
        Some(capacity) => map.shrink_to(capacity),
        None => map.shrink_to_fit(),
    };
    let is_met = is_met(alloc);
    let is_kept = is_full && are_left(&map) && map.is_compact();
    let rows = rows! {
        "shrunk": (Ok(()), false, true);
        "shrunk_without": (Ok(()), true, true);
        "shrink_refused": (Err(TryReserveError::alloc_error()), true, true);
    };
    word_of(&rows, &(shrunk, is_met, is_kept))
}

#[test]
fn shrink_to_fit(rt: HostRuntime) -> Result<(), Fail> {
    tell(&rt, shrink(rt.alloc(), in_order(rt.alloc()), None))
}

#[test]
fn hash_shrink_to_fit(rt: HostRuntime) -> Result<(), Fail> {
    tell(&rt, shrink(rt.alloc(), by_hash(rt.alloc()), None))
}

#[test]
fn shrink_to(rt: HostRuntime) -> Result<(), Fail> {
    tell(&rt, shrink(rt.alloc(), in_order(rt.alloc()), Some(12)))
}

#[test]
fn hash_shrink_to(rt: HostRuntime) -> Result<(), Fail> {
    tell(&rt, shrink(rt.alloc(), by_hash(rt.alloc()), Some(12)))
}

// The words if all numbers are taken, if none is, and if one comes back.
const EXTENDED: [&str; 3] = ["extended", "none_taken", "item_back"];

const ADDED: [&str; 3] = ["added", "none_added", "added_back"];

// `extend_unique` or `extend`.
fn extend_by(map: &mut Either<Numbered>, items: Vec<Numbered>, is_unique: bool) -> Added<Numbered> {
    if is_unique {
        return map.add_each(items);
    }
    match map.extend(items) {
        Ok(()) => Added::All,
        Err(stopped) => Added::Stopped(stopped.item, stopped.error),
    }
}

// The word for the numbers 5 to 24 put into a map of five numbers. Those before the refused one are in.
fn extension(alloc: Global, mut map: Either<Numbered>, is_unique: bool) -> Word {
    let [all, none, some] = if is_unique { ADDED } else { EXTENDED };
    let is_full = fill(&mut map, 5);
    let items = numbers(alloc, 5, 25)?;
    arm(alloc);
    let added = extend_by(&mut map, items, is_unique);
    let is_met = is_met(alloc);
    let (word, count, refused) = match added {
        Added::All => (all, 25, None),
        Added::Stopped(None, error) => (none, 5, Some(error)),
        Added::Stopped(Some(item), error) => (some, item.number, Some(error)),
        Added::Conflict(_, _) => return Err(Fail::from("a number is told twice")),
    };
    let is_told = refused == is_met.then_some(TryReserveError::alloc_error());
    word_of(&[(word, true)], &(is_full && is_told && holds(&map, count)))
}

#[test]
fn extend(rt: HostRuntime) -> Result<(), Fail> {
    tell(&rt, extension(rt.alloc(), in_order(rt.alloc()), false))
}

#[test]
fn hash_extend(rt: HostRuntime) -> Result<(), Fail> {
    tell(&rt, extension(rt.alloc(), by_hash(rt.alloc()), false))
}

#[test]
fn extend_unique(rt: HostRuntime) -> Result<(), Fail> {
    tell(&rt, extension(rt.alloc(), in_order(rt.alloc()), true))
}

#[test]
fn hash_extend_unique(rt: HostRuntime) -> Result<(), Fail> {
    tell(&rt, extension(rt.alloc(), by_hash(rt.alloc()), true))
}
