//! Items that own memory. `tools/sweep` looks that none of it is held as a test ends.
use crate::held::*;

fn boxed(rt: &impl Abort, alloc: Global, host: Host) -> Box<Host> {
    Box::new(alloc, host).expect(rt, "memory")
}

fn dozen(rt: &impl Abort, alloc: Global) -> Held<Box<Host>> {
    let mut all = Held::new(alloc);
    for number in 0..12 {
        check(rt, all.is_put(boxed(rt, alloc, host(number))));
    }
    all
}

// Three leave by a key or by both, one that repeats is offered, and those of numbers below ten are kept.
#[test]
fn removed(rt: HostRuntime) {
    let mut all = dozen(&rt, rt.alloc());
    for (by, number, address) in [(By::First, 1, 0), (By::Second, 0, 102), (By::Both, 3, 103)] {
        check(&rt, all.remove(by, &number, &address).is_some());
    }
    check(&rt, !all.is_put(boxed(&rt, rt.alloc(), host(4))));
    all.map.retain(|there| there.number < 10);
    check(&rt, all.map.len() == 7);
}

// One is put in the place of two, and again into the map without items.
#[test]
fn overwritten(rt: HostRuntime) {
    let mut all = dozen(&rt, rt.alloc());
    let new = host_of(1, 102, 3);
    let first = boxed(&rt, rt.alloc(), new);
    check(&rt, all.map.insert_overwrite(first).is_ok());
    check(&rt, all.map.len() == 11);
    all.map.clear();
    check(&rt, all.is_put(boxed(&rt, rt.alloc(), new)));
}

#[test]
fn walked(rt: HostRuntime) {
    let mut walk = dozen(&rt, rt.alloc()).map.into_iter();
    check(&rt, walk.next().is_some());
    check(&rt, walk.len() == 11);
}

// The fourth host has a key of the first and one of the third.
#[test]
fn repeated(rt: HostRuntime) {
    let mut hosts = Vec::new(rt.alloc());
    for (number, address) in [(0, 100), (1, 101), (2, 102), (0, 102), (4, 104)] {
        let host = boxed(&rt, rt.alloc(), host_of(number, address, number));
        check(&rt, hosts.push(host).is_ok());
    }
    let made = BiHashMap::<Box<Host>>::from_iter_unique(rt.alloc(), hosts);
    check(&rt, made.is_err());
}
