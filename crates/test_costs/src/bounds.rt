//! The calls of an ordered map alone: a position and a bound cost one search, the ends of the map none.
use crate::prelude::*;
use std::ops::Bound;

fn ends<T: IdOrdItem + Copy + Drop>(mut map: Ordered<T>, meter: Meter<'_>) {
    meter.tell(map.use_ends(), (0, 0));
}

#[test]
fn ends_compare_none(rt: HostRuntime) -> Result<(), Fail> {
    let tally = Tally::default();
    let meter = tally.of_order();
    let items = meter.counts.items(rt.alloc(), 0, 50)?;
    ends(meter.ordered(rt.alloc(), items.as_slice()), meter);
    tally.end()
}

// The cost of one search for the key, as `get_counted` tells it.
fn once<T: IdOrdItem + Drop>(map: &Ordered<T>, key: &T::Key, meter: Meter<'_>) -> Cost {
    let _ = meter.counts.since();
    let (_, steps) = map.get_counted(key);
    meter.tell(true, (0, steps));
    (0, steps)
}

// A position is found by one search, as the steps say, and so is each bound.
fn finds_bounds<T: IdOrdItem + Copy + Drop>(map: &Ordered<T>, key: &T::Key, meter: Meter<'_>) {
    let once = once(map, key, meter);
    let (_, steps) = map.index_of(key);
    meter.tell(steps == once.1, once);
    let _ = map.map().index_of(key);
    meter.tell(true, once);
    let from = (Bound::Included(key), Bound::Unbounded);
    let _ = map.map().range::<T::Key, _>(from);
    meter.tell(matches!(from, (_, Bound::Unbounded)), once);
    for bound in [Bound::Included(key), Bound::Excluded(key)] {
        let _ = map.lower_bound(bound);
        meter.tell(true, once);
        let _ = map.upper_bound(bound);
        meter.tell(true, once);
    }
}

// Both bounds of a range are, and the removal of a range compares no more.
fn bounds<T: IdOrdItem + Copy + Drop>(
    mut map: Ordered<T>,
    items: &[T],
    absent: &[T],
    ranges: [(T, T); 2],
    meter: Meter<'_>,
) {
    meter.hold(items.len() == 50 && absent.len() == 50);
    for item in items.iter().chain(absent) {
        finds_bounds(&map, item.key(), meter);
    }
    for (low, high) in ranges {
        let (_, of_low) = once(&map, low.key(), meter);
        let (_, of_high) = once(&map, high.key(), meter);
        let both = of_low.saturating_add(of_high);
        let between = (Bound::Included(low.key()), Bound::Excluded(high.key()));
        let (_, steps) = map.count_between(between);
        meter.tell(steps == both, (0, both));
        meter.tell(map.remove_range(between) == 3, (0, both));
    }
}

// The even numbers are there, and the odd ones are not.
#[test]
fn bounds_search_once(rt: HostRuntime) -> Result<(), Fail> {
    let tally = Tally::default();
    let meter = tally.of_order();
    let items = meter.counts.items(rt.alloc(), 0, 50)?;
    let absent = meter.counts.items(rt.alloc(), 1, 50)?;
    let (items, absent) = (items.as_slice(), absent.as_slice());
    let counts = meter.counts;
    let low = (counts.item(14), counts.item(20));
    let ranges = [low, (counts.item(41), counts.item(47))];
    let map = meter.ordered(rt.alloc(), items);
    bounds(map, items, absent, ranges, meter);
    tally.end()
}
