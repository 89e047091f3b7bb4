//! A key that counts its own comparisons shows the number that `Steps` shows, so no comparison goes past it.
use crate::metered::{Given, Row, run};
use crate::numbers::{found, put, take};
use crate::prelude::*;

// The call did what is wanted, and its steps are the comparisons that the keys have counted.
fn tell((is_done, steps): (bool, u32), wanted: bool, meter: Meter<'_>) {
    meter.hold(is_done == wanted && meter.counts.since().1 == steps);
}

// Each item is inserted, and then a duplicate. Then absent ones and those that are there are looked up and removed.
fn ordered_steps<T: IdOrdItem + Copy + Drop>(
    mut map: Ordered<T>,
    items: &[T],
    absent: &[T],
    meter: Meter<'_>,
) {
    for item in items {
        tell(put(&mut map, *item), true, meter);
        tell(put(&mut map, *item), false, meter);
    }
    for item in absent {
        tell(found(map.get_counted(item.key())), false, meter);
        tell(take(&mut map, item.key()), false, meter);
    }
    for item in items {
        tell(found(map.get_counted(item.key())), true, meter);
        tell(take(&mut map, item.key()), true, meter);
    }
    meter.hold(map.len() == 0);
}

#[test]
fn ordered_steps_are_comparisons(rt: HostRuntime) -> Result<(), Fail> {
    let tally = Tally::default();
    let meter = tally.of_order();
    for count in [0, 1, 12, 100] {
        let items = meter.counts.items(rt.alloc(), 0, count)?;
        let absent = meter.counts.items(rt.alloc(), 1, count)?;
        let (items, absent) = (items.as_slice(), absent.as_slice());
        ordered_steps(maps::in_order(rt.alloc()), items, absent, meter);
    }
    tally.end()
}

// Each lookup in a hash map of so many even numbers, and of the odd ones beside them.
fn looks<'a, S: BuildHasher + Drop>(map: Hashed<Tallied<'a>, S>, given: Given<'_, 'a>) {
    for item in given.items {
        tell(found(map.get_counted(&item.key)), true, given.meter);
    }
    for item in given.absent {
        tell(found(map.get_counted(&item.key)), false, given.meter);
    }
}

// By equal hashes, and by those of the hasher by default.
pub(crate) fn hash_steps(given: Given<'_, '_>) {
    let map: Hashed<_, Zero> = given.meter.hashed(given.alloc, given.items);
    looks(map, given);
    let map: Hashed<_> = given.meter.hashed(given.alloc, given.items);
    looks(map, given);
}

#[test]
fn hashed_steps_are_comparisons(rt: HostRuntime) -> Result<(), Fail> {
    for count in [30, 100] {
        run(rt.alloc(), Row::HashSteps(count), Kind::Hashed)?;
    }
    Ok(())
}

// Plain lookups, removals and insertions keep within the bound. The insertion of an item that is there is into a map with
// one item less.
pub(crate) fn plain_calls(given: Given<'_, '_>, bound: u32) {
    let (mut map, meter) = (given.map(), given.meter);
    for item in given.items {
        meter.tell_within(map.get(&item.key).is_some(), bound);
        meter.tell_within(map.remove(&item.key).is_some(), bound);
        meter.tell_within(map.is_put(*item), bound);
    }
    for item in given.absent {
        meter.tell_within(map.get(&item.key).is_none(), bound);
        meter.tell_within(map.remove(&item.key).is_none(), bound);
        meter.tell_within(map.is_put(*item), bound);
        let _ = map.remove(&item.key);
        let _ = meter.counts.since();
    }
}

#[test]
fn plain_calls_keep_the_bound(rt: HostRuntime) -> Result<(), Fail> {
    for (count, bound) in [(0, 4), (1, 6), (11, 12), (12, 12), (1000, 24)] {
        run(rt.alloc(), Row::PlainCalls(count, bound), Kind::Ordered)?;
    }
    Ok(())
}
