//! Calls with requests for memory refused: which hosts are in then.
use crate::held::*;
use std::io::Print;

/// Inserts as many hosts, each again if it is refused: how many are refused. A refusal returns the host, leaves the
/// others, and leaves no room of the refused one.
pub(crate) fn put_all(rt: &impl Abort, all: &mut Hosts, way: Way, count: u32) -> u32 {
    let mut refusals = 0u32;
    for number in 0..count {
        let mut inserted = all.insert(way, host(number));
        if let Err(refused) = inserted {
            let is_limit = refused.error.is_capacity_overflow();
            check(rt, refused.item == host(number) && !is_limit);
            refusals = refusals.saturating_add(1);
            check(rt, all.holds_below(number));
            inserted = all.insert(way, host(number));
        }
        check(rt, inserted.is_ok_and(|met| met == NONE));
    }
    refusals
}

fn put_fourteen(rt: &(impl Abort + Print), alloc: Global, way: Way) {
    let mut all = Hosts::new(alloc);
    arm(alloc);
    let refused = put_all(rt, &mut all, way, 14);
    let is_met = is_met(alloc);
    check(rt, refused == u32::from(is_met));
    check(rt, all.holds_below(14));
    tell(rt, if is_met { "item_refused" } else { "all_in" });
}

#[test]
fn insert_unique(rt: HostRuntime) {
    put_fourteen(&rt, rt.alloc(), Way::Unique);
}

#[test]
fn insert_overwrite(rt: HostRuntime) {
    put_fourteen(&rt, rt.alloc(), Way::Overwrite);
}

// After a reservation as many hosts are inserted without a request.
#[test]
fn reservation_holds(rt: HostRuntime) {
    let mut all = Hosts::new(rt.alloc());
    check(&rt, all.map.reserve(14).is_ok());
    arm(rt.alloc());
    let refused = put_all(&rt, &mut all, Way::Unique, 14);
    check(&rt, !is_met(rt.alloc()) && refused == 0);
}

// Duplicates, replacements of one and of two, and removals do not allocate.
#[test]
fn replaced_without_memory(rt: HostRuntime) {
    let mut all = Hosts::below(&rt, rt.alloc(), 4);
    arm(rt.alloc());
    let (new, both) = (host_of(1, 102, 9), (Some(host(1)), Some(host(2))));
    let steps = [
        Step::Insert(Way::Unique, host(3), (Some(host(3)), None)),
        Step::Insert(Way::Overwrite, new, both),
        Step::Remove(By::Second, 0, 102, Some(new)),
    ];
    all.run(&rt, &steps);
    check(&rt, !is_met(rt.alloc()));
    check(&rt, all.map.len() == 2);
}

pub(crate) fn tell(rt: &(impl Abort + Print), word: &str) {
    check(rt, println!(rt; "{}", word).is_ok());
}

/// Prints which of two calls was refused, if one was; exactly then a refusal was met.
pub(crate) fn tell_refused(rt: &(impl Abort + Print), is_met: bool, refused: (bool, bool)) {
    check(rt, is_met == (refused.0 || refused.1));
    check(rt, !(refused.0 && refused.1));
    let word = match refused {
        (true, _) => "first_refused",
        (_, true) => "second_refused",
        _ => "none_refused",
    };
    tell(rt, word);
}

#[test]
fn reservations(rt: HostRuntime) {
    let mut all = Hosts::below(&rt, rt.alloc(), 4);
    arm(rt.alloc());
    let one = all.map.reserve(100).is_err();
    let other = all.map.try_reserve(300).is_err();
    let is_met = is_met(rt.alloc());
    check(&rt, all.holds_below(4));
    tell_refused(&rt, is_met, (one, other));
}

#[test]
fn made_with_room(rt: HostRuntime) {
    let hasher = DefaultHashBuilder::new();
    arm(rt.alloc());
    let one = BiHashMap::<Host>::with_capacity(rt.alloc(), 100).is_err();
    let other = BiHashMap::<Host>::with_capacity_and_hasher(rt.alloc(), 100, hasher).is_err();
    tell_refused(&rt, is_met(rt.alloc()), (one, other));
}

/// Whether no map of the hosts below this number was made because memory was refused.
pub(crate) fn is_unmade(rt: &impl Abort, made: Made<Host>, count: u32) -> bool {
    let (is_right, is_refused) = match made {
        Ok(all) => (all.holds_below(count), false),
        Err(FromIterError::Refused(error)) => (!error.is_capacity_overflow(), true),
        Err(FromIterError::Duplicate(_)) => (false, false),
    };
    check(rt, is_right);
    is_refused
}

/// Makes two maps of the hosts below this number, of which none is announced, and then all are: whether either was
/// refused memory.
pub(crate) fn made_twice(rt: &impl Abort, alloc: Global, way: Way, count: u32) -> (bool, bool) {
    let hosts = hosts_between(rt, alloc, 0, count);
    arm(alloc);
    let hosts = hosts.as_slice();
    let one = is_unmade(rt, Hosts::collected(alloc, way, hosts, 0), count);
    let other = is_unmade(rt, Hosts::collected(alloc, way, hosts, hosts.len()), count);
    check(rt, !has_leaked(alloc));
    (one, other)
}

#[test]
fn from_iter_unique(rt: HostRuntime) {
    let refused = made_twice(&rt, rt.alloc(), Way::Unique, 20);
    tell_refused(&rt, is_met(rt.alloc()), refused);
}

// More than the limit are announced: none is asked for, and no memory.
#[test]
fn hint_past_limit(rt: HostRuntime) {
    let items = [host(1)];
    let mut arriving = Hinted::new(&items, usize::MAX);
    arm(rt.alloc());
    match BiHashMap::<Host>::from_iter_unique(rt.alloc(), &mut arriving) {
        Err(FromIterError::Refused(error)) => check(&rt, error.is_capacity_overflow()),
        _ => check(&rt, false),
    }
    check(&rt, !is_met(rt.alloc()));
    check(&rt, arriving.next().is_some());
}

// With nine hosts both indexes are full.
#[test]
fn full_map(rt: HostRuntime) {
    let mut all = Hosts::with_limit(rt.alloc(), 9);
    all.fill(&rt, 9);
    arm(rt.alloc());
    for way in [Way::Unique, Way::Overwrite] {
        all.run(&rt, &[Step::Refuse(way, host(9))]);
    }
    check(&rt, all.map.reserve(1).is_err());
    check(&rt, !is_met(rt.alloc()));
    check(&rt, all.holds_below(9));
}

// Lookups, guards, walks and removals do not allocate.
#[test]
fn looked_up_without_memory(rt: HostRuntime) {
    let mut all = Hosts::below(&rt, rt.alloc(), 9);
    arm(rt.alloc());
    check(&rt, all.holds_below(9));
    let steps = [
        Step::Load(By::First, 1, 0, 5, true),
        Step::Load(By::Second, 0, 102, 5, true),
        Step::Load(By::Both, 3, 103, 5, true),
        Step::Contains(By::First, 1, 0, true),
        Step::Contains(By::Second, 0, 101, true),
        Step::Contains(By::Both, 1, 101, true),
        Step::Remove(By::First, 1, 0, Some(host_of(1, 101, 5))),
        Step::Remove(By::Both, 2, 102, Some(host_of(2, 102, 5))),
    ];
    all.run(&rt, &steps);
    all.map.retain(|there| there.load < 6);
    check(&rt, all.map.len() == 4);
    all.map.clear();
    check(&rt, all.map.into_iter().next().is_none());
    check(&rt, !is_met(rt.alloc()));
}

// Whatever was refused, no block is held once the map is dropped.
#[test]
fn map_dropped(rt: HostRuntime) {
    let mut all = Hosts::new(rt.alloc());
    arm(rt.alloc());
    check(&rt, put_all(&rt, &mut all, Way::Unique, 14) <= 1);
    drop(all);
    let is_met = is_met(rt.alloc());
    check(&rt, !has_leaked(rt.alloc()));
    tell(&rt, if is_met { "none_held" } else { "all_in" });
}
