//! What a shrink leaves.
use crate::held::*;

// Hosts with vacant slots among them, and room for a hundred more.
fn with_room(rt: &impl Abort, alloc: Global) -> Hosts {
    let mut all = Hosts::with_gaps(rt, alloc);
    check(rt, all.map.reserve(100).is_ok());
    check(rt, all.map.spare() >= 100 && all.map.capacity() >= 104);
    check(rt, all.map.vacant() == 2);
    all
}

// Shrinks such a map: the hosts are there, and no slot is vacant.
fn close_up(rt: &impl Abort, all: &mut Hosts, min: Option<usize>) {
    check(rt, all.shrink(min).is_ok());
    check(rt, all.holds(&left()));
    check(rt, all.map.vacant() == 0 && all.is_compact());
}

#[test]
fn to_fit(rt: HostRuntime) {
    let mut all = with_room(&rt, rt.alloc());
    close_up(&rt, &mut all, None);
    check(&rt, all.has_room(4, 50) && all.map.spare() < 50);
}

// Room stays for twenty in all.
#[test]
fn to_some(rt: HostRuntime) {
    let mut all = with_room(&rt, rt.alloc());
    close_up(&rt, &mut all, Some(20));
    check(&rt, all.has_room(20, 50));
    check(&rt, all.map.spare() >= 16 && all.map.spare() < 50);
}

// No room is made, and all of it stays.
#[test]
fn to_more_than_there_is(rt: HostRuntime) {
    let mut all = with_room(&rt, rt.alloc());
    let before = all.map.capacity();
    close_up(&rt, &mut all, Some(5000));
    check(&rt, all.map.capacity() == before && all.map.spare() >= 100);
}

// The hosts that moved are removed, met and replaced by either key as before.
#[test]
fn changed_after_it(rt: HostRuntime) {
    let mut all = Hosts::with_gaps(&rt, rt.alloc());
    check(&rt, all.shrink(None).is_ok());
    let [first, second, third, last] = left();
    let first = [first, second];
    let steps = [
        Step::Insert(Way::Unique, last, (Some(last), None)),
        Step::Remove(By::First, 5, 0, Some(last)),
        Step::Remove(By::Second, 0, 103, Some(third)),
        Step::Holds(&first),
        Step::Insert(Way::Unique, last, NONE),
        Step::Insert(Way::Unique, third, NONE),
    ];
    all.run(&rt, &steps);
    check(&rt, all.holds(&left()));
}

#[test]
fn without_hosts(rt: HostRuntime) {
    let mut all = with_room(&rt, rt.alloc());
    all.map.clear();
    check(&rt, all.shrink(Some(10)).is_ok());
    check(&rt, all.map.capacity() >= 10 && all.map.spare() >= 10);
    check(&rt, all.shrink(None).is_ok());
    check(&rt, all.map.capacity() == 0 && all.map.spare() == 0);
    check(&rt, all.holds(&[]));
}

// The last hundred and fifty of three hundred move into the first slots.
#[test]
fn many_move(rt: HostRuntime) {
    let mut all = Hosts::new(rt.alloc());
    for number in 0..300u32 {
        check(&rt, all.is_put(host(299u32.saturating_sub(number))));
    }
    all.map.retain(|there| there.number < 150);
    check(&rt, all.map.vacant() == 150);
    check(&rt, all.shrink(None).is_ok());
    check(&rt, all.holds_below(150));
}
