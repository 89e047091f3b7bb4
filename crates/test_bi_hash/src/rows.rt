//! Worked examples on few hosts, some slots vacant, and keys that are equal though spelled differently.
use crate::held::*;
use iddqd_bi_hash::Few;
use std::cell::Cell;
use test_support::caseless::Caseless;

/// Hosts 1 to 3, of which 2 and 3 leave, so that slots are vacant; 4 and 5 come.
pub(crate) fn hosts(rt: &impl Abort, alloc: Global) -> Hosts {
    let mut all = Hosts::of(rt, alloc, &[host(1), host(2), host(3)]);
    check(rt, all.remove(By::Second, &0, &102).is_some());
    check(rt, all.remove(By::First, &3, &0).is_some());
    check(rt, all.is_put(host(4)) && all.is_put(host(5)));
    all
}

#[test]
fn lookups(rt: HostRuntime) {
    let there = [host(1), host(4), host(5)];
    let steps = [
        Step::Get(By::First, 4, 0, Some(host(4))),
        Step::Get(By::Second, 0, 104, Some(host(4))),
        Step::Contains(By::First, 2, 0, false),
        Step::Contains(By::Second, 0, 103, false),
        Step::Get(By::Both, 4, 104, Some(host(4))),
        Step::Get(By::Both, 4, 105, None),
        Step::Contains(By::Both, 5, 105, true),
        Step::Holds(&there),
    ];
    hosts(&rt, rt.alloc()).run(&rt, &steps);
}

#[test]
fn met_by_one_key_or_both(rt: HostRuntime) {
    let mut all = hosts(&rt, rt.alloc());
    let (one, four, five) = (Some(host(1)), Some(host(4)), Some(host(5)));
    for (number, address, met, length) in [
        (4, 1, (four, None), 3),
        (9, 105, (five, None), 3),
        (1, 101, (one, None), 3),
        (4, 101, (one, four), 3),
        (1, 104, (one, four), 3),
        (9, 9, NONE, 4),
    ] {
        let new = host_of(number, address, 9);
        all.run(&rt, &[Step::Insert(Way::Unique, new, met)]);
        check(&rt, all.map.len() == length);
    }
}

#[test]
fn one_or_two_overwritten(rt: HostRuntime) {
    let (one, other) = (host_of(4, 101, 9), host_of(4, 101, 10));
    let both = (Some(host(4)), Some(host(1)));
    let mut all = hosts(&rt, rt.alloc());
    all.run(&rt, &[Step::Insert(Way::Overwrite, one, both)]);
    check(&rt, all.holds(&[one, host(5)]));
    let there = [other, host(5), host(7)];
    let steps = [
        Step::Insert(Way::Overwrite, other, (Some(one), None)),
        Step::Insert(Way::Overwrite, host(7), NONE),
        Step::Holds(&there),
        Step::Remove(By::Both, 4, 107, None),
        Step::Remove(By::Both, 4, 101, Some(other)),
    ];
    all.run(&rt, &steps);
}

#[test]
fn room_and_limit(rt: HostRuntime) {
    let mut all = hosts(&rt, rt.alloc());
    check(&rt, all.map.reserve(1000).is_ok());
    check(&rt, all.map.spare() >= 1000);
    check(&rt, all.map.try_reserve(2000).is_ok());
    all.map.clear();
    check(&rt, all.map.is_empty() && all.map.spare() >= 2000);
    // the second host is one too many
    let (one, new) = (host_of(1, 1, 1), host_of(1, 2, 3));
    let steps = [
        Step::Insert(Way::Unique, one, NONE),
        Step::Refuse(Way::Unique, host_of(2, 2, 2)),
        Step::Insert(Way::Overwrite, new, (Some(one), None)),
    ];
    Hosts::with_limit(rt.alloc(), 1).run(&rt, &steps);
}

#[test]
fn guards_and_visits(rt: HostRuntime) {
    let mut all = hosts(&rt, rt.alloc());
    let steps = [
        Step::Load(By::First, 4, 0, 40, true),
        Step::Load(By::Second, 0, 105, 50, true),
        Step::Load(By::Both, 1, 101, 10, true),
        Step::Load(By::Both, 1, 105, 10, false),
        Step::Get(By::Second, 0, 104, Some(host_of(4, 104, 40))),
        Step::Get(By::First, 5, 0, Some(host_of(5, 105, 50))),
        Step::Get(By::First, 1, 0, Some(host_of(1, 101, 10))),
    ];
    all.run(&rt, &steps);
    // the host whose load is 50 leaves
    let asked = Cell::new(0u32);
    all.map.retain(|there| {
        asked.set(asked.get().saturating_add(1));
        there.load < 50
    });
    check(&rt, asked.get() == 3 && all.map.len() == 2);
    check(&rt, !all.contains(By::Second, &0, &105));
    check(&rt, all.map.validate(ValidateCompact::NonCompact).is_ok());
    let mut loads = 0;
    for there in all.map {
        loads = there.load.saturating_add(loads);
    }
    check(&rt, loads == 50);
}

// A call sign in whatever case, and a frequency.
#[derive(Clone, Copy)]
struct Station {
    sign: Caseless,
    frequency: u32,
}

impl BiHashItem for Station {
    type K1 = Caseless;

    type K2 = u32;

    ghost key1 = { λ station. station.sign };

    ghost key2 = { λ station. station.frequency };

    fn key1(&self) -> &Caseless {
        &self.sign
    }

    fn key2(&self) -> &u32 {
        &self.frequency
    }
}

fn at(sign: [u8; 3], frequency: u32) -> Station {
    Station {
        sign: Caseless(sign),
        frequency,
    }
}

fn spelled(station: &Station) -> ([u8; 3], u32) {
    (station.sign.0, station.frequency)
}

// The one item that the new one replaces.
fn overwritten(all: &mut Held<Station>, new: Station) -> Option<([u8; 3], u32)> {
    match all.map.insert_overwrite(new) {
        Ok(Some(Few::One(back))) => Some(spelled(&back)),
        _ => None,
    }
}

// A key in another case is met, and an item that overwrites brings its spelling.
#[test]
fn coarse_first_key(rt: HostRuntime) {
    let mut all = Held::new(rt.alloc());
    let (sign, other) = (Caseless(*b"aNN"), at(*b"Ann", 8));
    check(&rt, all.is_put(at(*b"ann", 7)));
    check(&rt, !all.is_put(at(*b"ANN", 8)));
    let there = Some((*b"ann", 7));
    check(&rt, all.get(By::First, &sign, &0).map(spelled) == there);
    check(&rt, overwritten(&mut all, other) == there);
    check(&rt, !all.contains(By::Second, &sign, &7));
    let there = all.get(By::Second, &sign, &8).map(spelled);
    check(&rt, there == Some((*b"Ann", 8)));
}
