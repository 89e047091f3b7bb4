//! What `Debug` writes of maps, entries and guards, and `Display` of errors that hold an item.
ghost use Rattle.std.specs.Ordering.{nat_cmp};
ghost use Rattle.iddqd.specs.Contents.{Ascends};

use crate::prelude::*;
use iddqd::errors::{DuplicateItem, ExtendError, ExtendUniqueError, Few, InsertError, Refused};
use std::fmt::{Debug, Display};
use std::io;

// A door, found by its number.
#[derive(Clone, Copy, Debug)]
struct Door {
    number: u32,
    open: bool,
}

impl IdOrdItem for Door {
    type Key = u32;

    ghost key = { λ door. door.number };

    fn key(&self) -> &u32 {
        &self.number
    }
}

impl IdHashItem for Door {
    type Key = u32;

    ghost key = { λ door. door.number };

    fn key(&self) -> &u32 {
        &self.number
    }
}

fn shut(number: u32) -> Door {
    Door {
        number,
        open: false,
    }
}

/// The value is written so by `Debug`.
pub(crate) fn debugs(rt: &impl Host, value: &impl Debug, expected: &str) {
    let text = format!(in rt.alloc(); "{value:?}");
    check(rt, text.is_ok_and(|text| text.as_str() == expected));
}

/// The value is written so by `Display`.
pub(crate) fn displays(rt: &impl Host, value: &impl Display, expected: &str) {
    let text = format!(in rt.alloc(); "{value}");
    check(rt, text.is_ok_and(|text| text.as_str() == expected));
}

// Two doors, the greater number first.
fn two_in_order(alloc: Global) -> IdOrdMap<Door>
    ensures keyed { Ascends (λ door. door.number) nat_cmp result.items }
{
    let mut doors = IdOrdMap::new(alloc);
    let _ = doors.insert_overwrite(shut(2));
    let _ = doors.insert_overwrite(shut(1));
    doors
}

fn one_by_hash(alloc: Global) -> IdHashMap<Door>
    ensures keyed { ⟦<IdHashMap<Door> as Keyed>⟧.keyed result }
{
    let mut doors = IdHashMap::new(alloc);
    let _ = doors.insert_overwrite(shut(1));
    doors
}

// A set of the items, in the order of the keys.
#[test]
fn ordered_map_for_debugging(rt: HostRuntime) {
    let doors = two_in_order(rt.alloc());
    let items = "{Door { number: 1, open: false }, Door { number: 2, open: false }}";
    debugs(&rt, &doors, items);
    let keyed = "{1: Door { number: 1, open: false }, 2: Door { number: 2, open: false }}";
    debugs(&rt, &doors.debug_with_keys(), keyed);
}

#[test]
fn hash_map_for_debugging(rt: HostRuntime) {
    let doors = one_by_hash(rt.alloc());
    debugs(&rt, &doors, "{Door { number: 1, open: false }}");
    let keyed = "{1: Door { number: 1, open: false }}";
    debugs(&rt, &doors.debug_with_keys(), keyed);
}

#[test]
fn entries_for_debugging(rt: HostRuntime) {
    let occupied = "Occupied(OccupiedEntry { item: Door { number: 1, open: false }, .. })";
    for (number, text) in [(1, occupied), (3, "Vacant(VacantEntry { .. })")] {
        debugs(&rt, &two_in_order(rt.alloc()).entry(&number), text);
        debugs(&rt, &one_by_hash(rt.alloc()).entry(&number), text);
    }
}

// The first door is written open, in one line and over several.
fn shows_open(rt: &impl Host, door: &impl Debug) {
    debugs(rt, door, "Door { number: 1, open: true }");
    let text = format!(in rt.alloc(); "{door:#?}");
    let lines = "Door {\n    number: 1,\n    open: true,\n}";
    check(rt, text.is_ok_and(|text| text.as_str() == lines));
}

// Opens the first door, and shows its guard, before it is spent and after.
macro_rules! open_first {
    ($rt:ident, $doors:expr) => {{
        let mut doors = $doors;
        let mut door = doors.get_mut(&1).expect($rt, "no door");
        door.open = true;
        shows_open($rt, &door);
        let door = door.into_ref();
        shows_open($rt, &door);
    }};
}

#[tactic(auto, using(iddqd::proofs::GuardLemmas::same_key_kept))]
fn open_in_order(rt: &impl Host) {
    open_first!(rt, two_in_order(rt.alloc()));
}

#[tactic(auto, using(iddqd::proofs::GuardLemmas::hash_key_kept))]
fn open_by_hash(rt: &impl Host) {
    open_first!(rt, one_by_hash(rt.alloc()));
}

// A guard is written as its item.
#[test]
fn guards_for_debugging(rt: HostRuntime) {
    open_in_order(&rt);
    open_by_hash(&rt);
}

#[test]
fn walks_for_debugging(rt: HostRuntime) {
    debugs(&rt, &two_in_order(rt.alloc()).iter_mut(), "IterMut { .. }");
    debugs(&rt, &one_by_hash(rt.alloc()).iter_mut(), "IterMut { .. }");
}

// A refusal is written with its item and its reason, and a duplicate with both items.
#[test]
fn text_of_refused_insertion(rt: HostRuntime) {
    let error = TryReserveError::capacity_overflow();
    let refused = Refused { item: 5, error };
    let text = "item 5 was refused: capacity overflow";
    displays(&rt, &refused, text);
    displays(&rt, &InsertError::Refused(refused), text);
    let there = 5;
    let error = InsertError::Duplicate(DuplicateItem::internal_new(5, Few::One(&there)));
    displays(&rt, &error, "new item: 5 conflicts with existing: [5]");
}

#[test]
fn text_of_refused_extension(rt: HostRuntime) {
    let error = TryReserveError::alloc_error();
    let item = Some(5);
    let at_item = ExtendError { item, error };
    let text = "item 5 was refused: memory allocation failed";
    displays(&rt, &at_item, text);
    displays(&rt, &ExtendUniqueError::Refused(at_item), text);
    let item: Option<u32> = None;
    let text = "room was refused: memory allocation failed";
    displays(&rt, &ExtendError { item, error }, text);
}

#[test]
fn text_of_refused_collection(rt: HostRuntime) {
    let error: FromIterError<u32> = FromIterError::Refused(TryReserveError::capacity_overflow());
    displays(&rt, &error, "room was refused: capacity overflow");
    let error = FromIterError::Duplicate(DuplicateItem::internal_new(5, Few::One(7)));
    displays(&rt, &error, "new item: 5 conflicts with existing: [7]");
}

// By `?`, a refusal becomes std's: its kind is that of memory, whichever it was.
#[test]
fn refusal_becomes_io_error(rt: HostRuntime) {
    let error = io::Error::from(TryReserveError::capacity_overflow());
    check(&rt, error.kind() == io::ErrorKind::OutOfMemory);
    let error = TryReserveError::alloc_error();
    check(&rt, AllocError::from(error) == AllocError);
}

#[test]
fn keys_in_order(rt: HostRuntime) {
    let doors = two_in_order(rt.alloc());
    check(&rt, doors.keys().len() == 2);
    check(&rt, doors.keys().eq(&[1, 2]));
}
