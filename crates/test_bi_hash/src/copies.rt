//! Copies of a map, and equality of two.
use crate::held::*;
use std::hash::BuildHasher;
use test_support::hashers::{FewBits, Varying};

#[test]
fn a_copy_is_independent(rt: HostRuntime) {
    let mut all = Hosts::with_gaps(&rt, rt.alloc());
    let mut copy = all.copied().expect(&rt, "memory");
    check(&rt, copy.holds(&left()) && copy.map.vacant() == 2);
    check(&rt, are_equal(&rt, &all, &copy));
    let gone = Step::Remove(By::First, 2, 0, Some(host(2)));
    copy.run(&rt, &[gone, Step::Load(By::First, 5, 0, 50, true)]);
    let gone = Step::Remove(By::Second, 0, 100, Some(host(0)));
    let new = Step::Insert(Way::Unique, host(7), NONE);
    all.run(&rt, &[Step::Holds(&left()), gone, new]);
    check(&rt, copy.holds(&[host(0), host(3), host_of(5, 105, 50)]));
    check(&rt, !all.map.eq(&copy.map));
    let changed = [host(2), host(3), host(5), host(7)];
    check(&rt, all.holds(&changed));
    copy.map.clear();
    check(&rt, copy.holds(&[]));
    drop(copy);
    check(&rt, all.holds(&changed));
}

#[test]
fn a_copy_has_the_limit(rt: HostRuntime) {
    let mut all = Hosts::with_limit(rt.alloc(), 2);
    all.fill(&rt, 2);
    let mut copy = all.copied().expect(&rt, "memory");
    check(&rt, copy.map.limit() == 2 && copy.holds_below(2));
    copy.run(&rt, &[Step::Refuse(Way::Unique, host(2))]);
    check(&rt, copy.holds_below(2));
}

#[test]
fn a_copy_of_none(rt: HostRuntime) {
    let all = Hosts::new(rt.alloc());
    let mut copy = all.copied().expect(&rt, "memory");
    check(&rt, copy.map.limit() > 2);
    let new = Step::Insert(Way::Unique, host(3), NONE);
    copy.run(&rt, &[Step::Holds(&[]), new, Step::Holds(&[host(3)])]);
    check(&rt, all.holds(&[]));
}

// Whether the hosts below twenty are found, and no other.
fn has_twenty<S: BuildHasher>(all: &Held<Host, S>) -> bool {
    !all.contains(By::First, &20, &0) && all.holds_below(20)
}

// The hosts are found under the hasher of the copy, which tells few hashes apart.
#[test]
fn a_copy_has_the_hasher(rt: HostRuntime) {
    let hasher = FewBits::new(Varying::High);
    let mut all = Held::over(BiHashMap::with_hasher(rt.alloc(), hasher));
    all.fill(&rt, 20);
    let copy = Held::over(all.map.clone().expect(&rt, "memory"));
    check(&rt, has_twenty(&copy) && has_twenty(&all));
}

fn are_equal(rt: &impl Abort, one: &Hosts, other: &Hosts) -> bool {
    let is_equal = one.map.eq(&other.map);
    check(rt, other.map.eq(&one.map) == is_equal);
    is_equal
}

#[test]
fn equal_in_another_order(rt: HostRuntime) {
    let one = Hosts::with_gaps(&rt, rt.alloc());
    let other = Hosts::of(&rt, rt.alloc(), &[host(5), host(0), host(3), host(2)]);
    let (none, void) = (Hosts::new(rt.alloc()), Hosts::new(rt.alloc()));
    for (one, other) in [(&one, &other), (&one, &one), (&none, &void)] {
        check(&rt, are_equal(&rt, one, other));
    }
}

// A map of the hosts 1 and 2, and one of these, are unequal.
fn differs(rt: &impl Abort, alloc: Global, hosts: &[Host]) {
    let one = Hosts::of(rt, alloc, &[host(1), host(2)]);
    check(rt, !are_equal(rt, &one, &Hosts::of(rt, alloc, hosts)));
}

#[test]
fn unequal_by_a_value(rt: HostRuntime) {
    differs(&rt, rt.alloc(), &[host(1), host_of(2, 102, 3)]);
}

#[test]
fn unequal_by_a_key(rt: HostRuntime) {
    let crossed = [host_of(1, 102, 1), host_of(2, 101, 2)];
    for hosts in [
        [host(1), host_of(3, 102, 2)],
        [host(1), host_of(2, 103, 2)],
        crossed,
    ] {
        differs(&rt, rt.alloc(), &hosts);
    }
}

#[test]
fn unequal_by_length(rt: HostRuntime) {
    differs(&rt, rt.alloc(), &[host(1), host(2), host(3)]);
    differs(&rt, rt.alloc(), &[]);
}
