//! Many hosts at once, each of which replaces those that have one of its keys; and hints.
use crate::held::*;

// The fourth has the first key of the third, and the fifth the second key of the fourth. The last has the first key of
// the first and the second key of the second.
fn coming() -> [Host; 6] {
    let (four, five) = (host_of(3, 104, 4), host_of(5, 104, 5));
    [host(1), host(2), host(3), four, five, host_of(1, 102, 6)]
}

// What is in after those.
fn are_replaced(rt: &impl Abort, all: &Hosts) {
    check(rt, all.holds(&[host_of(5, 104, 5), host_of(1, 102, 6)]));
    for (number, address) in [(2, 101), (3, 103)] {
        check(rt, !all.contains(By::First, &number, &0));
        check(rt, !all.contains(By::Second, &0, &address));
    }
}

// `extend` by the hosts, of which this many are announced.
fn extend(hosts: &[Host], hint: usize) -> Step<'_> {
    Step::Extend(Way::Overwrite, hosts, hint, None)
}

#[test]
fn the_last_of_a_key_stays(rt: HostRuntime) {
    let mut all = Hosts::new(rt.alloc());
    for hint in [0, 6] {
        all.run(&rt, &[extend(&coming(), hint)]);
        are_replaced(&rt, &all);
    }
}

// A host that displaces two that were there, and one that displaces one.
#[test]
fn those_there_are_replaced(rt: HostRuntime) {
    let there = [host(1), host(2), host(3)];
    let coming = [host_of(1, 102, 7), host_of(9, 103, 8), host_of(4, 104, 9)];
    let (first, other, none) = (extend(&there, 0), extend(&coming, 0), extend(&[], 0));
    let (before, after) = (Step::Holds(&there), Step::Holds(&coming));
    let steps = [first, before, other, after, none, after];
    Hosts::new(rt.alloc()).run(&rt, &steps);
}

#[test]
fn from_iter(rt: HostRuntime) {
    for hint in [0, 6] {
        let made = Hosts::collected(rt.alloc(), Way::Overwrite, &coming(), hint);
        are_replaced(&rt, &made.expect(&rt, "memory"));
    }
}

// Hosts that replace others are accepted by a full map. One with new keys is returned, and those before it stay.
#[test]
fn extend_to_the_limit(rt: HostRuntime) {
    let (third, last) = (host_of(1, 103, 3), host_of(1, 102, 5));
    let coming = [host(1), host(2), third, host(4), last];
    let stop = Some((Some(host(4)), NONE, true));
    let left = [host(2), third];
    let extend = Step::Extend(Way::Overwrite, &coming, 0, stop);
    Hosts::with_limit(rt.alloc(), 2).run(&rt, &[extend, Step::Holds(&left)]);
}

// An empty map reserves for all that is announced, and a map with hosts for half of that, rounded up.
#[test]
fn hints_at_the_limit(rt: HostRuntime) {
    let refused = Step::Extend(Way::Overwrite, &[], 3, TOO_MANY);
    let new = Step::Insert(Way::Unique, host(1), NONE);
    let left = [host(1)];
    let (accepted, left) = (extend(&[], 2), Step::Holds(&left));
    let steps = [refused, accepted, new, refused, accepted, left];
    Hosts::with_limit(rt.alloc(), 2).run(&rt, &steps);
}

/// Room for what is announced is there, whatever comes: for all of it in an empty map, for half in a map with hosts.
pub(crate) fn hints_reserve(rt: &impl Abort, mut all: Hosts, way: Way) {
    check(rt, all.map.reserve(4).is_ok());
    all.run(rt, &[Step::Extend(way, &[], 100, None)]);
    check(rt, all.map.spare() >= 100);
    let new = Step::Insert(Way::Unique, host(1), NONE);
    all.run(rt, &[new, Step::Extend(way, &[], 2001, None)]);
    check(rt, all.map.spare() >= 1001);
    all.run(rt, &[Step::Holds(&[host(1)])]);
}

#[test]
fn hints_are_reserved(rt: HostRuntime) {
    hints_reserve(&rt, Hosts::new(rt.alloc()), Way::Overwrite);
}

// A wrong hint costs a refusal before a host is asked for.
#[test]
fn a_lying_hint_is_refused(rt: HostRuntime) {
    let (there, coming) = ([host(1)], [host(2)]);
    let extend = Step::Extend(Way::Overwrite, &coming, usize::MAX, TOO_MANY);
    Hosts::of(&rt, rt.alloc(), &there).run(&rt, &[extend, Step::Holds(&there)]);
    match Hosts::collected(rt.alloc(), Way::Overwrite, &coming, usize::MAX) {
        Err(FromIterError::Refused(error)) => check(&rt, error.is_capacity_overflow()),
        _ => check(&rt, false),
    }
}
