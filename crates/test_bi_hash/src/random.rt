//! Long random runs of calls, against a plain list.
use crate::held::*;

// A generator by shifts (Marsaglia's of 64 bits).
#[derive(Drop)]
struct Draws {
    state: u64,
}

impl Draws {
    fn below(&mut self, bound: u32) -> u32 {
        self.state ^= self.state.wrapping_shl(13);
        self.state ^= self.state.wrapping_shr(7);
        self.state ^= self.state.wrapping_shl(17);
        let drawn = (self.state.wrapping_shr(16) % 4_294_967_296) as u32;
        drawn.checked_rem(bound).unwrap_or(0)
    }

    fn host(&mut self) -> Host {
        let (number, address) = (self.below(12), u64::from(self.below(12)));
        host_of(number, address, self.below(1000))
    }
}

// A map, and the list in no order that it is held against.
#[derive(Drop)]
struct Pair {
    hosts: Hosts,
    plain: Vec<Host>,
}

impl Pair {
    fn find(&self, by: By, wanted: Host) -> Option<Host> {
        let mut hosts = self.plain.iter();
        let found = match by {
            By::First => hosts.find(|host| host.number == wanted.number),
            _ => hosts.find(|host| host.address == wanted.address),
        };
        found.copied()
    }

    // Drops the list's hosts that have one of the keys.
    fn drop_met(&mut self, met: Host) {
        self.plain.retain(|host| host.number != met.number && host.address != met.address);
    }

    // Puts the host into the list in place of those that have one of its keys.
    fn put(&mut self, rt: &impl Abort, host: Host) {
        self.drop_met(host);
        check(rt, self.plain.push(host).is_ok());
    }

    // Inserts the host into both. The map shows those that have one of its keys, that of the number first. Of
    // `insert_unique` either order is right.
    fn insert(&mut self, rt: &impl Abort, way: Way, host: Host) {
        let (by_number, by_address) = (self.find(By::First, host), self.find(By::Second, host));
        let (one, other) = match by_number {
            None => (by_address, None),
            Some(_) if by_address == by_number => (by_number, None),
            Some(_) => (by_number, by_address),
        };
        let replaces = matches!(way, Way::Overwrite);
        let inserted = self.hosts.insert(way, host);
        let is_met = inserted.is_ok_and(|met| met == (one, other)
            || !replaces && met == (other, one));
        check(rt, is_met);
        if replaces || one.is_none() {
            self.put(rt, host);
        }
    }

    fn remove(&mut self, rt: &impl Abort, host: Host) {
        let by = match host.load % 2 {
            0 => By::First,
            _ => By::Second,
        };
        let gone = self.hosts.remove(by, &host.number, &host.address);
        check(rt, gone == self.find(by, host));
        if let Some(gone) = gone {
            self.drop_met(gone);
        }
    }

    // Each key finds in this map what it finds in the list.
    fn is_same(&self, rt: &impl Abort, hosts: &Hosts) {
        check(rt, hosts.map.len() == self.plain.len());
        check(rt, hosts.map.iter().count() == self.plain.len());
        for key in 0..12 {
            let asked = host_of(key, u64::from(key), 0);
            for by in [By::First, By::Second] {
                let found = hosts.get(by, &asked.number, &asked.address).copied();
                check(rt, found == self.find(by, asked));
            }
        }
    }
}

fn calls(rt: &impl Abort, alloc: Global, state: u64, count: u32, kinds: u32) {
    let mut pair = Pair {
        hosts: Hosts::new(alloc),
        plain: Vec::with_capacity(alloc, 12).expect(rt, "room"),
    };
    let mut draws = Draws { state };
    for _ in 0..count {
        let host = draws.host();
        match draws.below(kinds) {
            0 => pair.insert(rt, Way::Unique, host),
            1 => pair.insert(rt, Way::Overwrite, host),
            2 => pair.remove(rt, host),
            3 => {
                let coming = [draws.host(), draws.host(), draws.host()];
                check(rt, pair.hosts.stopped(Way::Overwrite, &coming, 3).is_none());
                for host in coming {
                    pair.put(rt, host);
                }
            }
            4 => {
                check(rt, pair.hosts.shrink(None).is_ok());
                check(rt, pair.hosts.map.vacant() == 0);
            }
            _ => {
                let copy = pair.hosts.copied().expect(rt, "memory");
                check(rt, pair.hosts.map.eq(&copy.map));
                pair.is_same(rt, &copy);
            }
        }
        pair.is_same(rt, &pair.hosts);
    }
}

#[test]
fn many_calls(rt: HostRuntime) {
    calls(&rt, rt.alloc(), 77, 2000, 3);
}

#[test]
fn calls_on_many(rt: HostRuntime) {
    calls(&rt, rt.alloc(), 99, 1000, 6);
}
