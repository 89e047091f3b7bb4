//! Rows: maps that are equal, that share no key, of which one is empty, and keys that are equal though spelled
//! differently.
use super::held::{Sides, count_changes, differences};
use crate::prelude::*;

// Two maps whose names differ in case alone, and one name beside.
fn spellings(
    rt: &impl Abort,
    (mut before, mut after): (Either<Coarse>, Either<Coarse>),
) -> (Either<Coarse>, Either<Coarse>) {
    check(rt, before.is_put(item_of(*b"web", 1)));
    check(rt, before.is_put(item_of(*b"db1", 2)));
    check(rt, after.is_put(item_of(*b"WEB", 1)));
    check(rt, after.is_put(item_of(*b"Tmp", 3)));
    (before, after)
}

// A name's spelling and its value, if a map has an item there.
type Spelled = Option<([u8; 3], u32)>;

fn shown(side: &Option<Coarse>) -> Spelled {
    side.as_ref().map(|item| spelled(item))
}

// Whether these are the differences, by the names' spellings and the values.
fn are(rt: &impl Abort, found: &[Sides<Coarse>], wanted: &[(Spelled, Spelled)]) {
    check(rt, found.len() == wanted.len());
    for (sides, other) in found.iter().zip(wanted) {
        check(rt, shown(&sides.0) == other.0 && shown(&sides.1) == other.1);
    }
}

#[test]
fn spelled_differently_in_order(rt: HostRuntime) {
    let (before, after) = spellings(&rt, (in_order(rt.alloc()), in_order(rt.alloc())));
    let found = differences(&before, &after, rt.alloc()).expect(&rt, "memory");
    let wanted = [
        (Some((*b"db1", 2)), None),
        (None, Some((*b"Tmp", 3))),
        (Some((*b"web", 1)), Some((*b"WEB", 1))),
    ];
    are(&rt, found.as_slice(), &wanted);
    check(&rt, count_changes(&before, &after) == 2);
}

#[test]
fn spelled_differently_by_hash(rt: HostRuntime) {
    let (before, after) = spellings(&rt, (by_hash(rt.alloc()), by_hash(rt.alloc())));
    let found = differences(&before, &after, rt.alloc()).expect(&rt, "memory");
    let wanted = [
        (Some((*b"web", 1)), Some((*b"WEB", 1))),
        (Some((*b"db1", 2)), None),
        (None, Some((*b"Tmp", 3))),
    ];
    are(&rt, found.as_slice(), &wanted);
}
