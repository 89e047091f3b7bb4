//! A hash map keeps the hash of each key, and grows by it.
use crate::prelude::*;
use test_support::nine::IDS;

// The map of those that are kept makes room twice and hashes none of their keys.
fn makes_room_unhashed<'a>(mut map: Either<Tallied<'a>>, meter: Meter<'a>) {
    for number in IDS {
        meter.hold(map.is_put(meter.counts.item(number)));
    }
    map.retain(|item| item.key.number % 2 == 1 && item.key.number % 3 != 0);
    meter.hold(map.len() == 9 && meter.counts.since().0 >= 25);
    let has_room = map.reserve(10).is_ok() && map.reserve(1000).is_ok();
    meter.hold(has_room && meter.counts.since().0 == 0);
}

#[test]
fn stored_hashes(rt: HostRuntime) -> Result<(), Fail> {
    let tally = Tally::default();
    makes_room_unhashed(by_hash(rt.alloc()), tally.of_hashes());
    tally.end()
}
