//! Calls that allocate succeed while memory is at hand: with some hundred hosts the store and both indexes grow often.
use crate::held::*;
use crate::refused::{is_unmade, made_twice, put_all};

const COUNT: u32 = 300;

fn fill(rt: &impl Abort, mut all: Hosts, way: Way) {
    check(rt, put_all(rt, &mut all, way, COUNT) == 0);
    check(rt, all.holds_below(COUNT));
}

#[test]
fn inserted(rt: HostRuntime) {
    fill(&rt, Hosts::new(rt.alloc()), Way::Unique);
}

#[test]
fn overwritten(rt: HostRuntime) {
    fill(&rt, Hosts::new(rt.alloc()), Way::Overwrite);
}

#[test]
fn collected(rt: HostRuntime) {
    let made = made_twice(&rt, rt.alloc(), Way::Unique, COUNT);
    check(&rt, made == (false, false));
}

#[test]
fn from_iter(rt: HostRuntime) {
    let made = made_twice(&rt, rt.alloc(), Way::Overwrite, COUNT);
    check(&rt, made == (false, false));
}

// What an iterator announces is reserved, even if it gives nothing.
#[test]
fn announced_room(rt: HostRuntime) {
    let made = Hosts::collected(rt.alloc(), Way::Unique, &[], 100);
    check(&rt, made.is_ok_and(|all| all.map.spare() >= 100));
}

#[test]
fn made_with_room(rt: HostRuntime) {
    let made = BiHashMap::with_capacity(rt.alloc(), 300);
    fill(&rt, Held::over(made.expect(&rt, "memory")), Way::Unique);
    let hasher = DefaultHashBuilder::new();
    let made = BiHashMap::with_capacity_and_hasher(rt.alloc(), 300, hasher);
    fill(&rt, Held::over(made.expect(&rt, "memory")), Way::Unique);
}

// `extend` or `extend_unique` by the hosts, of which none is announced, and then all.
fn extend(rt: &impl Abort, alloc: Global, way: Way, mut all: Hosts) {
    let hosts = hosts_between(rt, alloc, 0, COUNT);
    let coming = Hinted::new(hosts.as_slice(), 0);
    check(rt, all.meets_repeat(way, coming).is_none());
    check(rt, all.holds_below(COUNT));
    if let Way::Unique = way {
        all.map.clear();
    }
    check(rt, all.meets_repeat(way, hosts).is_none());
    check(rt, all.holds_below(COUNT));
}

#[test]
fn extended(rt: HostRuntime) {
    let all = Hosts::of(&rt, rt.alloc(), &[host(7)]);
    extend(&rt, rt.alloc(), Way::Overwrite, all);
}

#[test]
fn extended_by_new_ones(rt: HostRuntime) {
    extend(&rt, rt.alloc(), Way::Unique, Hosts::new(rt.alloc()));
}

#[test]
fn cloned(rt: HostRuntime) {
    let all = Hosts::below(&rt, rt.alloc(), COUNT);
    check(&rt, !is_unmade(&rt, all.copied(), COUNT));
    check(&rt, all.holds_below(COUNT));
}

// The first hosts stay, and room for them.
#[test]
fn shrunk(rt: HostRuntime) {
    let mut all = Hosts::new(rt.alloc());
    check(&rt, all.map.reserve(2000).is_ok());
    check(&rt, put_all(&rt, &mut all, Way::Unique, COUNT) == 0);
    check(&rt, all.holds_below(COUNT));
    check(&rt, all.shrink(Some(1000)).is_ok());
    check(&rt, all.has_room(1000, 2000) && all.map.spare() >= 700);
    check(&rt, all.holds_below(COUNT));
    check(&rt, all.shrink(None).is_ok());
    check(&rt, all.has_room(300, 1000) && all.holds_below(COUNT));
}
