//! What is timed of ordered maps alone: walks from the back, ranges, and positions.
use crate::items::{BenchKey, Item};
use crate::phases::{Plan, clocked, filled, lower};
use crate::report::write_phases;
use crate::subjects::Subject;
use std::alloc::Global;
use std::collections::BTreeMap;
use std::io::{self, Write};
use std::ops::Bound;
use std::time::Clock;
use test_support::maps::Ordered;

/// The phases. The last two are of this map alone.
const RANGES: [&str; 5] = [
    "backwards",
    "range_10",
    "range_1000",
    "get_index",
    "index_of",
];

// Of how many keys one begins a range of a thousand items.
const APART: usize = 100;

/// An ordered map that is timed.
pub(crate) trait Ranged: Subject {
    /// The sum of all values, by a walk from the last.
    fn sum_back(&self) -> u64;

    /// The sum of the values of this many items, from the key on.
    fn sum_from(&self, key: &Self::Key, count: usize) -> u64;

    /// The value of the item at the position; `None` if the map has no positions.
    fn value_at(&self, position: usize) -> Option<u64>;

    /// The position of the key; `None` if the map has no positions.
    fn position_of(&self, key: &Self::Key) -> Option<usize>;
}

impl<K: BenchKey> Ranged for Ordered<Item<K>> {
    fn sum_back(&self) -> u64 {
        let mut sum = 0u64;
        for item in self.map().iter().rev() {
            sum = sum.wrapping_add(item.value);
        }
        sum
    }

    fn sum_from(&self, key: &K, count: usize) -> u64 {
        let mut sum = 0u64;
        let bounds = (Bound::Included(key), Bound::Unbounded);
        for item in self.map().range::<K, _>(bounds).take(count) {
            sum = sum.wrapping_add(item.value);
        }
        sum
    }

    fn value_at(&self, position: usize) -> Option<u64> {
        Some(self.get_index(position)?.value)
    }

    fn position_of(&self, key: &K) -> Option<usize> {
        self.index_of(key).0.ok()
    }
}

impl<K: BenchKey> Ranged for BTreeMap<K, Item<K>> {
    fn sum_back(&self) -> u64 {
        let mut sum = 0u64;
        for item in self.values().rev() {
            sum = sum.wrapping_add(item.value);
        }
        sum
    }

    fn sum_from(&self, key: &K, count: usize) -> u64 {
        let mut sum = 0u64;
        let bounds = (Bound::Included(key), Bound::Unbounded);
        for (_, item) in self.range::<(Bound<&K>, Bound<&K>)>(bounds).take(count) {
            sum = sum.wrapping_add(item.value);
        }
        sum
    }

    fn value_at(&self, _position: usize) -> Option<u64> {
        None
    }

    fn position_of(&self, _key: &K) -> Option<usize> {
        None
    }
}

// The sum of ranges of this many items, each from a key on.
fn sum_ranges<S: Ranged>(map: &S, keys: &[S::Key], apart: usize, count: usize) -> u64 {
    let mut sum = 0u64;
    for key in keys.iter().step_by(apart.max(1)) {
        sum = sum.wrapping_add(map.sum_from(key, count));
    }
    sum
}

// The sum of the values at each position, in no order; `None` if the map has no positions.
fn sum_positions<S: Ranged>(map: &S, positions: &[u64]) -> Option<u64> {
    let mut sum = 0u64;
    for position in positions {
        sum = sum.wrapping_add(map.value_at(*position as usize)?);
    }
    Some(sum)
}

// The sum of the positions of the keys; `None` if the map has no positions.
fn sum_places<S: Ranged>(map: &S, keys: &[S::Key]) -> Option<u64> {
    let mut sum = 0u64;
    for key in keys {
        sum = sum.wrapping_add(map.position_of(key)? as u64);
    }
    Some(sum)
}

// The nanoseconds of each phase over the map, which has these keys, and the sum of what was found. Those of positions
// are 0 if the map has none.
fn times_of<S: Ranged>(
    clock: &impl Clock,
    map: &S,
    positions: &[u64],
    keys: &[S::Key],
) -> io::Result<([u64; 5], u64)> {
    let (backwards, sum) = clocked(clock, || map.sum_back())?;
    let (range_10, near) = clocked(clock, || sum_ranges(map, keys, 1, 10))?;
    let (hundredth, far) = clocked(clock, || sum_ranges(map, keys, APART, 1_000))?;
    // as if each key began a range
    let range_1000 = hundredth.saturating_mul(APART as u64);
    let (get_index, found) = clocked(clock, || sum_positions(map, positions))?;
    let (index_of, places) = clocked(clock, || sum_places(map, keys))?;
    let nanos = match (found, places) {
        (Some(_), Some(_)) => [backwards, range_10, range_1000, get_index, index_of],
        _ => [backwards, range_10, range_1000, 0, 0],
    };
    Ok((nanos, sum.wrapping_add(near).wrapping_add(far)))
}

// The same over a map with the items of the plan.
fn timed<S: Ranged>(clock: &impl Clock, alloc: Global, plan: &Plan) -> io::Result<([u64; 5], u64)> {
    let keys: Vec<S::Key> = plan.keys(alloc, 0)?;
    let map: S = filled(alloc, plan)?;
    times_of(clock, &map, plan.shuffled(), keys.as_slice())
}

/// Times the ordered map and std's with keys of one type, taking turns: whether their sums agree. The times are written
/// if they are asked for.
pub(crate) fn compare_ranges<K: BenchKey>(
    clock: &impl Clock,
    alloc: Global,
    out: &mut impl Write,
    plan: (&Plan, u64, u32),
    is_told: bool,
) -> io::Result<bool> {
    let (plan, size, rounds) = plan;
    let mut ours = timed::<Ordered<Item<K>>>(clock, alloc, plan)?;
    let mut std = timed::<BTreeMap<K, Item<K>>>(clock, alloc, plan)?;
    for _ in 1..rounds {
        lower(
            &mut ours.0,
            &timed::<Ordered<Item<K>>>(clock, alloc, plan)?.0,
        );
        lower(
            &mut std.0,
            &timed::<BTreeMap<K, Item<K>>>(clock, alloc, plan)?.0,
        );
    }
    if is_told {
        write_phases(out, ("ord", K::name()), size, &RANGES, (&ours.0, &std.0))?;
    }
    Ok(ours.1 == std.1)
}
