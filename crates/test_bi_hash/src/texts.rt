//! What `Debug` writes of a map, of its guards and of its writing walk.
use crate::held::*;
use std::fmt::Debug;

// Whether it is written so.
fn is_debugged(alloc: Global, value: &impl Debug, expected: &str) -> bool {
    format!(in alloc; "{value:?}").is_ok_and(|text| text.as_str() == expected)
}

// Whether two items are written, in either order.
fn is_either(alloc: Global, value: &impl Debug, rising: &str, falling: &str) -> bool {
    is_debugged(alloc, value, rising) || is_debugged(alloc, value, falling)
}

// A map of one host.
fn one(rt: &impl Abort, alloc: Global) -> Hosts {
    Hosts::of(rt, alloc, &[host_of(1, 101, 7)])
}

// A map of two.
fn two(rt: &impl Abort, alloc: Global) -> Hosts {
    Hosts::of(rt, alloc, &[host_of(1, 101, 7), host_of(2, 102, 8)])
}

// A set of the items.
#[test]
fn map_for_debugging(rt: HostRuntime) {
    let alloc = rt.alloc();
    check(&rt, is_debugged(alloc, &Hosts::new(alloc).map, "{}"));
    let items = "{Host { number: 1, address: 101, load: 7 }}";
    check(&rt, is_debugged(alloc, &one(&rt, alloc).map, items));
}

#[test]
fn two_hosts_for_debugging(rt: HostRuntime) {
    let rising =
        "{Host { number: 1, address: 101, load: 7 }, Host { number: 2, address: 102, load: 8 }}";
    let falling =
        "{Host { number: 2, address: 102, load: 8 }, Host { number: 1, address: 101, load: 7 }}";
    let hosts = two(&rt, rt.alloc());
    check(&rt, is_either(rt.alloc(), &hosts.map, rising, falling));
}

// Both keys beside each item.
#[test]
fn keys_for_debugging(rt: HostRuntime) {
    let alloc = rt.alloc();
    let none = Hosts::new(alloc);
    check(&rt, is_debugged(alloc, &none.map.debug_with_keys(), "{}"));
    let keyed = "{(1, 101): Host { number: 1, address: 101, load: 7 }}";
    let hosts = one(&rt, alloc);
    check(&rt, is_debugged(alloc, &hosts.map.debug_with_keys(), keyed));
    let rising =
        "{(1, 101): Host { number: 1, address: 101, load: 7 }, (2, 102): Host { number: 2, address: 102, load: 8 }}";
    let falling =
        "{(2, 102): Host { number: 2, address: 102, load: 8 }, (1, 101): Host { number: 1, address: 101, load: 7 }}";
    let hosts = two(&rt, alloc);
    let shown = hosts.map.debug_with_keys();
    check(&rt, is_either(alloc, &shown, rising, falling));
}

// Writes a load, and shows the guard, before it is spent and after.
fn is_guard(alloc: Global, hosts: Hosts, number: u32, expected: &str) -> bool {
    let mut map = hosts.map;
    match map.get1_mut(&number) {
        Some(mut found) => {
            found.load = 9;
            let is_before = is_debugged(alloc, &found, expected);
            let found = found.into_ref();
            is_before && is_debugged(alloc, &found, expected)
        }
        None => false,
    }
}

// A guard is written as its item.
#[test]
fn guards_for_debugging(rt: HostRuntime) {
    let text = "Host { number: 1, address: 101, load: 9 }";
    check(&rt, is_guard(rt.alloc(), one(&rt, rt.alloc()), 1, text));
    check(&rt, !is_guard(rt.alloc(), one(&rt, rt.alloc()), 2, text));
}

#[test]
fn writing_walk_for_debugging(rt: HostRuntime) {
    let mut map = one(&rt, rt.alloc()).map;
    let walk = map.iter_mut();
    check(&rt, is_debugged(rt.alloc(), &walk, "IterMut { .. }"));
}
