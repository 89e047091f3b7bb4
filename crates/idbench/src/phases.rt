//! What is timed: the phases of one run over one map.
use crate::items::BenchKey;
use crate::subjects::Subject;
use std::alloc::{AllocError, Global};
use std::io;
use std::time::{Clock, Instant};

/// The phases of calls with a key, and those of a walk and of a clone, in their order.
pub(crate) const CALLS: [&str; 8] = [
    "insertion",
    "reserved",
    "lookup",
    "absent",
    "walk",
    "clone",
    "churn",
    "removal",
];

/// The phases of walks, of `retain`, and of ascending insertions and `pop_first`, which ordered maps alone have.
pub(crate) const WALKS: [&str; 5] = ["iter_mut", "into_iter", "ascending", "pop_first", "retain"];

/// The numbers of one size: those that are inserted, those that come later, and the order in which both are asked for.
#[derive(Drop)]
pub(crate) struct Plan {
    size: u64,
    shuffled: Vec<u64>,
}

/// The nanoseconds of each phase, 0 for one that the map has no calls for, and a sum over all that was found.
#[derive(Clone, Copy)]
pub(crate) struct Times {
    pub(crate) calls: [u64; 8],
    pub(crate) walks: [u64; 5],
    pub(crate) found: u64,
}

/// Lowers each time to the other one, where that is less.
pub(crate) fn lower(times: &mut [u64], others: &[u64]) {
    for (time, other) in times.iter_mut().zip(others) {
        *time = (*time).min(*other);
    }
}

impl Times {
    /// The least times of both, and the same sum.
    pub(crate) fn least(mut self, other: Times) -> Times {
        lower(&mut self.calls, &other.calls);
        lower(&mut self.walks, &other.walks);
        self
    }
}

// Puts the numbers in an order that a generator of a fixed seed gives.
fn shuffle(numbers: &mut [u64]) {
    let mut seed = 1u64;
    for last in 1..numbers.len() {
        seed = seed
            .wrapping_mul(6_364_136_223_846_793_005)
            .wrapping_add(1_442_695_040_888_963_407);
        let other = (seed >> 33) as usize % (last + 1);
        numbers.swap(last, other);
    }
}

// Adds the keys of these numbers, each this much above.
fn add_keys<K: BenchKey>(
    keys: &mut Vec<K>,
    alloc: Global,
    numbers: &[u64],
    above: u64,
) -> Result<(), AllocError> {
    for number in numbers {
        keys.push(K::of_number(alloc, number.wrapping_add(above))?)?;
    }
    Ok(())
}

// Adds what is inserted for these numbers, each this much above, from the last number to the first.
fn add_loads<S: Subject>(
    loads: &mut Vec<S::Load>,
    alloc: Global,
    numbers: &[u64],
    above: u64,
) -> Result<(), AllocError> {
    for number in numbers.iter().rev() {
        loads.push(S::load(alloc, number.wrapping_add(above))?)?;
    }
    Ok(())
}

impl Plan {
    /// The numbers below the size, shuffled.
    pub(crate) fn new(alloc: Global, size: u64) -> Result<Plan, AllocError> {
        let mut shuffled = Vec::new(alloc);
        for number in 0..size {
            shuffled.push(number)?;
        }
        shuffle(shuffled.as_mut_slice());
        Ok(Plan { size, shuffled })
    }

    /// How many items there are.
    pub(crate) fn size(&self) -> u64 {
        self.size
    }

    /// The numbers, shuffled.
    pub(crate) fn shuffled(&self) -> &[u64] {
        self.shuffled.as_slice()
    }

    /// The keys of these numbers, each this much above.
    pub(crate) fn keys<K: BenchKey>(
        &self,
        alloc: Global,
        above: u64,
    ) -> Result<Vec<K>, AllocError> {
        let mut keys = Vec::with_capacity(alloc, self.shuffled.len())?;
        add_keys(&mut keys, alloc, self.shuffled(), above)?;
        Ok(keys)
    }

    // What is inserted for these numbers, each this much above, in another order.
    fn loads<S: Subject>(&self, alloc: Global, above: u64) -> Result<Vec<S::Load>, AllocError> {
        let mut loads = Vec::with_capacity(alloc, self.shuffled.len())?;
        add_loads::<S>(&mut loads, alloc, self.shuffled(), above)?;
        Ok(loads)
    }
}

/// The nanoseconds of the work, and what it returns.
pub(crate) fn clocked<T: Drop, F: FnOnce() -> T>(
    clock: &impl Clock,
    work: F,
) -> io::Result<(u64, T)>
    requires callable { F.pre work }
{
    let start = Instant::now(clock)?;
    let found = work();
    let time = start.elapsed(clock)?;
    let nanos = time.as_secs().saturating_mul(1_000_000_000);
    Ok((nanos.saturating_add(u64::from(time.subsec_nanos())), found))
}

// How many of them were inserted.
fn put_all<S: Subject>(map: &mut S, loads: Vec<S::Load>) -> u64 {
    let mut count = 0u64;
    for load in loads {
        if map.put(load) {
            count = count.wrapping_add(1);
        }
    }
    count
}

// The sum of the values that are found.
fn look_up_all<S: Subject>(map: &S, keys: &[S::Key]) -> u64 {
    let mut found = 0u64;
    for key in keys {
        found = found.wrapping_add(map.value(key).unwrap_or(1));
    }
    found
}

// The sum of the values that are taken out.
fn take_all<S: Subject>(map: &mut S, keys: &[S::Key]) -> u64 {
    let mut found = 0u64;
    for key in keys {
        found = found.wrapping_add(map.take(key).unwrap_or(1));
    }
    found
}

// Removes one item and inserts another, again and again: the sum of the values that are removed.
fn churn<S: Subject>(map: &mut S, keys: &[S::Key], loads: Vec<S::Load>) -> u64 {
    let mut found = 0u64;
    for (key, load) in keys.iter().zip(loads) {
        found = found.wrapping_add(map.take(key).unwrap_or(1));
        if map.put(load) {
            found = found.wrapping_add(1);
        }
    }
    found
}

// The nanoseconds of the insertions into a map that has room for all, and how many were inserted.
fn put_reserved<S: Subject>(
    clock: &impl Clock,
    alloc: Global,
    loads: Vec<S::Load>,
) -> io::Result<(u64, u64)> {
    match S::with_room(alloc, loads.len()) {
        Some(mut map) => clocked(clock, || put_all(&mut map, loads)),
        None => Ok((0, 0)),
    }
}

// Times each call over the map, which has no items. The first of the keys are there once all are in, and the others are not.
fn timed_calls<S: Subject>(
    clock: &impl Clock,
    alloc: Global,
    plan: &Plan,
    map: &mut S,
    (present, absent): (&[S::Key], &[S::Key]),
) -> io::Result<([u64; 8], u64)> {
    let loads = plan.loads::<S>(alloc, 0)?;
    let (reserved, reserved_count) = put_reserved::<S>(clock, alloc, loads)?;
    let loads = plan.loads::<S>(alloc, 0)?;
    let (insertion, count) = clocked(clock, || put_all(map, loads))?;
    let (lookup, found) = clocked(clock, || look_up_all(map, present))?;
    let (absent_lookup, missed) = clocked(clock, || look_up_all(map, absent))?;
    let (walk, seen) = clocked(clock, || map.sum())?;
    let (clone, copied) = clocked(clock, || map.copied())?;
    let loads = plan.loads::<S>(alloc, plan.size)?;
    let (churn, exchanged) = clocked(clock, || churn(map, present, loads))?;
    let (removal, removed) = clocked(clock, || take_all(map, absent))?;
    let mut sum = copied as u64;
    for part in [
        reserved_count,
        count,
        found,
        missed,
        seen,
        exchanged,
        removed,
    ] {
        sum = sum.wrapping_add(part);
    }
    let nanos = [
        insertion,
        reserved,
        lookup,
        absent_lookup,
        walk,
        clone,
        churn,
        removal,
    ];
    Ok((nanos, sum))
}

/// Exchanges a hundredth of the map's items for others.
pub(crate) fn exchange_hundredth<S: Subject>(
    map: &mut S,
    alloc: Global,
    plan: &Plan,
) -> Result<(), AllocError> {
    let keys: Vec<S::Key> = plan.keys(alloc, 0)?;
    let (exchanged, _) = keys.as_slice().split_at(keys.len() / 100);
    churn(map, exchanged, plan.loads::<S>(alloc, plan.size)?);
    Ok(())
}

/// A new map with the items of the plan, which goes in unclocked.
pub(crate) fn filled<S: Subject>(alloc: Global, plan: &Plan) -> Result<S, AllocError> {
    let loads = plan.loads::<S>(alloc, 0)?;
    let mut map = S::empty(alloc);
    put_all(&mut map, loads);
    Ok(map)
}

// The sum of the values of this many items, each removed from the front.
fn pop_all<S: Subject>(map: &mut S, size: usize) -> u64 {
    let mut found = 0u64;
    for _ in 0..size {
        found = found.wrapping_add(map.pop_first().unwrap_or(1));
    }
    found
}

// The nanoseconds of the insertions of items that ascend, those of their removals from the front, and the sum of what
// was removed. All are 0 for a map without an order.
fn in_ascent<S: Subject>(
    clock: &impl Clock,
    alloc: Global,
    loads: Vec<S::Load>,
) -> io::Result<(u64, u64, u64)> {
    if !S::is_ordered() {
        return Ok((0, 0, 0));
    }
    let mut map = S::empty(alloc);
    let size = loads.len();
    let (ascending, count) = clocked(clock, || put_all(&mut map, loads))?;
    let (pop_first, found) = clocked(clock, || pop_all(&mut map, size))?;
    Ok((ascending, pop_first, found.wrapping_add(count)))
}

// Times each call that goes over a whole map, over new maps.
fn timed_walks<S: Subject>(
    clock: &impl Clock,
    alloc: Global,
    plan: &Plan,
) -> io::Result<([u64; 5], u64)> {
    let map: S = filled(alloc, plan)?;
    let (iter_mut, written) = clocked(clock, || map.raised())?;
    let mut loads = Vec::with_capacity(alloc, plan.shuffled.len())?;
    let (into_iter, moved) = clocked(clock, || S::move_out(written, &mut loads))?;
    moved?;
    let (ascending, pop_first, popped) = in_ascent::<S>(clock, alloc, loads)?;
    let mut map: S = filled(alloc, plan)?;
    let (retain, _) = clocked(clock, || map.keep_even())?;
    let nanos = [iter_mut, into_iter, ascending, pop_first, retain];
    Ok((nanos, popped.wrapping_add(map.sum())))
}

// Times each call with a key over a new map.
fn timed_keys<S: Subject>(
    clock: &impl Clock,
    alloc: Global,
    plan: &Plan,
) -> io::Result<([u64; 8], u64)> {
    let present: Vec<S::Key> = plan.keys(alloc, 0)?;
    let absent: Vec<S::Key> = plan.keys(alloc, plan.size)?;
    let keys = (present.as_slice(), absent.as_slice());
    timed_calls(clock, alloc, plan, &mut S::empty(alloc), keys)
}

/// Times each phase over new maps.
pub(crate) fn timed<S: Subject>(
    clock: &impl Clock,
    alloc: Global,
    plan: &Plan,
) -> io::Result<Times> {
    let (calls, found) = timed_keys::<S>(clock, alloc, plan)?;
    let (walks, seen) = timed_walks::<S>(clock, alloc, plan)?;
    Ok(Times {
        calls,
        walks,
        found: found.wrapping_add(seen),
    })
}
