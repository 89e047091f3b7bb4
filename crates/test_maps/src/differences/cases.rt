//! Each case of five keys, and one of hundreds, against plain lists.
use super::held::{Sides, count_changes, differences, hint};
use crate::prelude::*;

// What the maps have at a key: neither an item, the old one alone, the new one alone, both the same, or each another.
fn sides_of(number: u32, digit: u32) -> Sides<Numbered> {
    let old = Numbered { number, value: 1 };
    let new = Numbered { number, value: 2 };
    match digit {
        0 => (None, None),
        1 => (Some(old), None),
        2 => (None, Some(new)),
        3 => (Some(old), Some(old)),
        _ => (Some(old), Some(new)),
    }
}

// The sides of five keys, by the five digits of the number to the base five.
fn sides_of_case(rt: &impl Host, case: u32) -> Vec<Sides<Numbered>> {
    let mut all = Vec::new(rt.alloc());
    let mut digits = case;
    for number in 0..5u32 {
        check(rt, all.push(sides_of(number, digits % 5)).is_ok());
        digits /= 5;
    }
    all
}

type Maps = (Either<Numbered>, Either<Numbered>);

fn empty(kind: Kind, alloc: Global) -> Either<Numbered> {
    match kind {
        Kind::Ordered => in_order(alloc),
        Kind::Hashed => by_hash(alloc),
    }
}

// Two maps, each of the items of its side.
fn maps_of(rt: &impl Host, all: &[Sides<Numbered>], kind: Kind) -> Maps {
    let (mut before, mut after) = (empty(kind, rt.alloc()), empty(kind, rt.alloc()));
    for sides in all {
        if let Some(old) = sides.0 {
            check(rt, before.is_put(old));
        }
        if let Some(new) = sides.1 {
            check(rt, after.is_put(new));
        }
    }
    (before, after)
}

// What an ordered map gives: each key of either map, ascending.
fn merged(rt: &impl Host, all: &[Sides<Numbered>]) -> Vec<Sides<Numbered>> {
    let mut wanted = Vec::new(rt.alloc());
    for sides in all {
        if sides.0.is_some() || sides.1.is_some() {
            check(rt, wanted.push(*sides).is_ok());
        }
    }
    wanted
}

// What a hash map gives: the keys of the old map, and then those of the new one alone.
fn looked_up(rt: &impl Host, all: &[Sides<Numbered>]) -> Vec<Sides<Numbered>> {
    let mut wanted = Vec::new(rt.alloc());
    for sides in all {
        if sides.0.is_some() {
            check(rt, wanted.push(*sides).is_ok());
        }
    }
    for sides in all {
        if sides.0.is_none() && sides.1.is_some() {
            check(rt, wanted.push(*sides).is_ok());
        }
    }
    wanted
}

// Whether the difference of the two maps gives what is wanted, and counts as many changes.
fn gives(rt: &impl Host, (before, after): Maps, wanted: Vec<Sides<Numbered>>) {
    let wanted = wanted.as_slice();
    let found = differences(&before, &after, rt.alloc()).expect(rt, "memory");
    check(rt, found.as_slice() == wanted);
    let mut changes = 0usize;
    for sides in wanted {
        changes = changes.saturating_add(usize::from(sides.0 != sides.1));
    }
    check(rt, count_changes(&before, &after) == changes);
    let (least, most) = hint(&before, &after);
    check(rt, least <= wanted.len());
    check(rt, most.is_some_and(|most| wanted.len() <= most));
}

#[test]
fn each_case_in_order(rt: HostRuntime) {
    for case in 0..3125u32 {
        let all = sides_of_case(&rt, case);
        let all = all.as_slice();
        gives(&rt, maps_of(&rt, all, Kind::Ordered), merged(&rt, all));
    }
}

#[test]
fn each_case_by_hash(rt: HostRuntime) {
    for case in 0..3125u32 {
        let all = sides_of_case(&rt, case);
        let all = all.as_slice();
        gives(&rt, maps_of(&rt, all, Kind::Hashed), looked_up(&rt, all));
    }
}

// Six hundred keys, so that slots, nodes and groups are many.
fn sides_of_hundreds(rt: &impl Host) -> Vec<Sides<Numbered>> {
    let mut all = Vec::new(rt.alloc());
    for number in 0..600u32 {
        let sides = sides_of(number, number.wrapping_mul(number) % 7 % 5);
        check(rt, all.push(sides).is_ok());
    }
    all
}

/// Two maps of hundreds of items.
pub(crate) fn hundreds(rt: &impl Host, kind: Kind) -> Maps {
    maps_of(rt, sides_of_hundreds(rt).as_slice(), kind)
}

#[test]
fn hundreds_in_order(rt: HostRuntime) {
    let all = sides_of_hundreds(&rt);
    let all = all.as_slice();
    gives(&rt, maps_of(&rt, all, Kind::Ordered), merged(&rt, all));
}

#[test]
fn hundreds_by_hash(rt: HostRuntime) {
    let all = sides_of_hundreds(&rt);
    let all = all.as_slice();
    gives(&rt, maps_of(&rt, all, Kind::Hashed), looked_up(&rt, all));
}
