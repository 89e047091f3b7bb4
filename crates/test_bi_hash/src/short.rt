//! Copies, shrinks and calls on many hosts with requests for memory refused: which hosts are in then.
use crate::held::*;
use crate::refused::{is_unmade, made_twice, tell, tell_refused};
use std::io::Print;

#[test]
fn clone(rt: HostRuntime) {
    let all = Hosts::below(&rt, rt.alloc(), 4);
    arm(rt.alloc());
    let refused = is_unmade(&rt, all.copied(), 4);
    let is_met = is_met(rt.alloc());
    check(&rt, refused == is_met && !has_leaked(rt.alloc()));
    check(&rt, all.holds_below(4));
    tell(&rt, if is_met { "nothing_made" } else { "copied" });
}

// The word for what the insertion of the hosts 5 to 24 into a map of the hosts below five comes to. If a host is refused,
// it is returned, and those before it are in.
fn extend_by_twenty(rt: &(impl Abort + Print), alloc: Global, way: Way, hint: usize) {
    let hosts = hosts_between(rt, alloc, 5, 25);
    let mut all = Hosts::below(rt, alloc, 5);
    arm(alloc);
    let stopped = all.stopped(way, hosts.as_slice(), hint);
    let is_met = is_met(alloc);
    check(rt, stopped.is_some() == is_met && !has_leaked(alloc));
    let (item, count, word) = match stopped {
        None => (None, 25, "all_in"),
        Some((None, ..)) => (None, 5, "none_in"),
        Some((Some(item), ..)) => (Some(host(item.number)), item.number, "item_back"),
    };
    let is_refusal = stopped == Some((item, NONE, false));
    check(rt, stopped.is_none() || is_refusal);
    check(rt, item.is_none() || count < 25);
    check(rt, all.holds_below(count));
    tell(rt, word);
}

#[test]
fn extend(rt: HostRuntime) {
    extend_by_twenty(&rt, rt.alloc(), Way::Overwrite, 20);
}

#[test]
fn extend_unannounced(rt: HostRuntime) {
    extend_by_twenty(&rt, rt.alloc(), Way::Overwrite, 0);
}

#[test]
fn extend_unique(rt: HostRuntime) {
    extend_by_twenty(&rt, rt.alloc(), Way::Unique, 20);
}

#[test]
fn extend_unique_unannounced(rt: HostRuntime) {
    extend_by_twenty(&rt, rt.alloc(), Way::Unique, 0);
}

#[test]
fn from_iter(rt: HostRuntime) {
    let refused = made_twice(&rt, rt.alloc(), Way::Overwrite, 20);
    tell_refused(&rt, is_met(rt.alloc()), refused);
}

// Shrinks a map of forty hosts, of which five are left in slots that are apart. Refused or not, the five are there, and
// no slot is vacant. If a smaller block is refused to the store alone, the call succeeds.
fn shrink(rt: &(impl Abort + Print), alloc: Global, min: Option<usize>) {
    let mut all = Hosts::below(rt, alloc, 40);
    all.map.retain(|there| there.number % 8 == 7);
    arm(alloc);
    let shrunk = all.shrink(min);
    let is_met = is_met(alloc);
    check(rt, !has_leaked(alloc));
    let left = [host(7), host(15), host(23), host(31), host(39)];
    check(rt, all.holds(&left) && all.is_compact());
    let word = match shrunk {
        Ok(()) if is_met => "shrunk_without",
        Ok(()) => "shrunk",
        Err(error) => {
            check(rt, is_met && !error.is_capacity_overflow());
            "shrink_refused"
        }
    };
    tell(rt, word);
}

#[test]
fn shrink_to_fit(rt: HostRuntime) {
    shrink(&rt, rt.alloc(), None);
}

#[test]
fn shrink_to(rt: HostRuntime) {
    shrink(&rt, rt.alloc(), Some(12));
}
