//! The texts of errors.
use crate::prelude::*;
use crate::texts::{debugs, displays};
use iddqd::errors::{DuplicateItem, Few, Refused};

#[test]
fn error_texts(rt: HostRuntime) {
    let duplicate = DuplicateItem::internal_new(5, Few::One(5));
    displays(&rt, &duplicate, "new item: 5 conflicts with existing: [5]");
    let full = TryReserveError::capacity_overflow();
    displays(&rt, &full, "capacity overflow");
    let no_memory = TryReserveError::alloc_error();
    displays(&rt, &no_memory, "memory allocation failed");
}

// A duplicate that is owned shows clones of the items that were lent.
#[test]
fn owned_duplicates(rt: HostRuntime) {
    let there = 5;
    let duplicate = DuplicateItem::internal_new(5, Few::One(&there));
    let owned = duplicate.into_owned().ok().expect(&rt, "no memory");
    check(&rt, *owned.new_item() == 5);
    check(&rt, owned.duplicates().len() == 1);
    check(&rt, owned.duplicates().get(0).copied() == Some(5));
}

#[test]
fn duplicates_in_a_list(rt: HostRuntime) {
    let three = DuplicateItem::internal_new(5, Few::Three(5, 6, 7));
    let text = "new item: 5 conflicts with existing: [5, 6, 7]";
    displays(&rt, &three, text);
    let two = DuplicateItem::internal_new('n', Few::Two('a', 'b'));
    let text = "new item: 'n' conflicts with existing: ['a', 'b']";
    displays(&rt, &two, text);
}

#[test]
fn kinds_differ(rt: HostRuntime) {
    let full = TryReserveError::capacity_overflow();
    let no_memory = TryReserveError::alloc_error();
    check(&rt, full != no_memory && no_memory != full);
    check(&rt, full == full && no_memory == no_memory);
    check(&rt, full.is_capacity_overflow());
    check(&rt, !no_memory.is_capacity_overflow());
}

// As derived: the names of the fields, each with its value.
#[test]
fn duplicate_for_debugging(rt: HostRuntime) {
    let duplicate = DuplicateItem::internal_new(5, Few::One(7));
    let text = "DuplicateItem { new: 5, duplicates: One(7) }";
    debugs(&rt, &duplicate, text);
}

#[test]
fn refusals_for_debugging(rt: HostRuntime) {
    let full = TryReserveError::capacity_overflow();
    debugs(&rt, &full, "TryReserveError { kind: CapacityOverflow }");
    let error = TryReserveError::alloc_error();
    let text = "Refused { item: 5, error: TryReserveError { kind: AllocError } }";
    debugs(&rt, &Refused { item: 5, error }, text);
}

#[test]
fn text_of_vacant_slots(rt: HostRuntime) {
    let mut map = IdOrdMap::new(rt.alloc());
    check(&rt, map.insert_unique(numbered(1, 1)).is_ok());
    check(&rt, map.remove(&1).is_some());
    let error = map.validate(ValidateCompact::Compact).err();
    let error = error.expect(&rt, "a slot is vacant");
    displays(&rt, &error, "there are vacant slots");
}
