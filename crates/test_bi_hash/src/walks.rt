//! Walks over keys, walks that write, visits, and checks of the structure, some slots vacant.
use crate::held::*;
use iddqd_bi_hash::Visit;
use std::cell::Cell;

#[test]
fn keys_in_the_order_of_iter(rt: HostRuntime) {
    let all = Hosts::with_gaps(&rt, rt.alloc());
    let (mut numbers, mut addresses) = (all.map.keys1(), all.map.keys2());
    check(&rt, numbers.len() == 4 && addresses.len() == 4);
    for host in all.map.iter() {
        check(&rt, numbers.next() == Some(&host.number));
        check(&rt, addresses.next() == Some(&host.address));
    }
    check(&rt, numbers.next().is_none() && addresses.next().is_none());
    check(&rt, all.holds(&left()));
}

#[test]
fn keys_announce_how_many_come(rt: HostRuntime) {
    let all = Hosts::with_gaps(&rt, rt.alloc());
    let (mut numbers, mut addresses) = (all.map.keys1(), all.map.keys2());
    for to_come in [4, 3] {
        check(&rt, numbers.size_hint() == (to_come, Some(to_come)));
        check(&rt, addresses.size_hint() == (to_come, Some(to_come)));
        check(&rt, numbers.next().is_some() && addresses.next().is_some());
    }
}

// What is written is read by both keys.
#[test]
fn each_host_is_lent_once(rt: HostRuntime) {
    let mut all = Hosts::with_gaps(&rt, rt.alloc());
    let two = host_of(2, 102, 3);
    let raised = [host_of(0, 100, 1), two, host_of(5, 105, 6)];
    let steps = [
        Step::Remove(By::First, 3, 0, Some(host_of(3, 103, 3))),
        Step::Raise(3),
        Step::Holds(&raised),
        Step::Remove(By::Second, 0, 102, Some(two)),
        Step::Raise(2),
    ];
    all.run(&rt, &steps);
    check(&rt, all.holds(&[host_of(0, 100, 2), host_of(5, 105, 7)]));
    all.map.clear();
    all.run(&rt, &[Step::Raise(0)]);
}

#[test]
fn a_writing_walk_tells_how_many_come(rt: HostRuntime) {
    let mut map = Hosts::with_gaps(&rt, rt.alloc()).map;
    let mut walk = map.iter_mut();
    for to_come in [4, 3, 2, 1] {
        check(&rt, walk.len() == to_come);
        check(&rt, walk.next().is_some());
    }
    check(&rt, walk.len() == 0);
    check(&rt, walk.next().is_none() && walk.next().is_none());
}

// Writes 7 to each load, counts its visits, and keeps the hosts of even numbers.
#[derive(Drop)]
struct KeepsEven<'a> {
    asked: &'a Cell<u32>,
}

impl Visit<Host> for KeepsEven<'_> {
    ghost use Rattle.std.specs.Prelude.{◌%◌, nat_eq};

    ghost visits = { λ v host. (v, record host { load = 7 }, nat_eq (host.number % 2) 0) };

    fn visit(&mut self, item: &mut Host) -> bool {
        self.asked.set(self.asked.get().saturating_add(1));
        item.load = 7;
        item.number % 2 == 0
    }
}

// What a visit wrote is read by both keys, and what goes is found by neither.
#[test]
fn each_host_is_visited_once(rt: HostRuntime) {
    let mut all = Hosts::with_gaps(&rt, rt.alloc());
    let asked = Cell::new(0);
    all.map.retain_mut(&mut KeepsEven { asked: &asked });
    check(&rt, asked.get() == 4 && all.map.vacant() == 4);
    let (zero, two) = (host_of(0, 100, 7), host_of(2, 102, 7));
    let (nine, five) = (host_of(9, 103, 9), host_of(5, 109, 5));
    check(&rt, all.holds(&[zero, two]));
    let steps = [
        Step::Contains(By::First, 3, 0, false),
        Step::Contains(By::Second, 0, 103, false),
        Step::Contains(By::First, 5, 0, false),
        Step::Contains(By::Second, 0, 105, false),
        Step::Insert(Way::Unique, nine, NONE),
        Step::Insert(Way::Unique, five, NONE),
    ];
    all.run(&rt, &steps);
    check(&rt, all.holds(&[zero, two, nine, five]));
}

// An error exactly if slots are vacant and none may be.
#[test]
fn structure(rt: HostRuntime) {
    let mut all = Hosts::with_gaps(&rt, rt.alloc());
    check(&rt, all.is_sound(ValidateCompact::NonCompact));
    check(&rt, !all.is_sound(ValidateCompact::Compact));
    check(&rt, all.shrink(None).is_ok());
    check(&rt, all.is_sound(ValidateCompact::NonCompact));
    check(&rt, all.is_sound(ValidateCompact::Compact));
}

// Without memory: writing walks, visits, keys, equality, and checks of the structure.
#[test]
fn walked_without_memory(rt: HostRuntime) {
    let mut all = Hosts::with_gaps(&rt, rt.alloc());
    let other = Hosts::with_gaps(&rt, rt.alloc());
    arm(rt.alloc());
    check(&rt, all.map.eq(&other.map));
    check(&rt, all.key_counts() == (4, 4));
    check(&rt, !all.is_sound(ValidateCompact::Compact));
    all.run(&rt, &[Step::Raise(4)]);
    check(&rt, !all.map.eq(&other.map));
    let asked = Cell::new(0);
    all.map.retain_mut(&mut KeepsEven { asked: &asked });
    check(&rt, asked.get() == 4);
    check(&rt, all.holds(&[host_of(0, 100, 7), host_of(2, 102, 7)]));
    check(&rt, !is_met(rt.alloc()));
}
