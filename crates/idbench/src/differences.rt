//! What is timed of two maps: their difference, where a hundredth of the keys went and as many others came.
use crate::items::{BenchKey, Item};
use crate::phases::{Plan, clocked, exchange_hundredth, filled};
use crate::report::write_phases;
use crate::subjects::Subject;
use iddqd_diff::{Diffable, Difference};
use std::alloc::Global;
use std::collections::{BTreeMap, HashMap};
use std::io::{self, Write};
use std::time::Clock;
use test_support::maps::{Hashed, Ordered};

// The value of an item whose key the other map lacks, else 0.
fn changed_value<K>(difference: &Difference<&Item<K>>) -> u64 {
    match difference {
        Difference::Removed(old) => old.value,
        Difference::Added(new) => new.value,
        Difference::Kept(_, _) => 0,
    }
}

/// The sum of the values of the items whose keys the other map lacks, of both maps.
pub(crate) fn sum_changes_hashed<K: BenchKey>(
    before: &Hashed<Item<K>>,
    after: &Hashed<Item<K>>,
) -> u64 {
    let mut sum = 0u64;
    let mut differences = before.map().diff(after.map());
    while let Some(difference) = differences.next() {
        sum = sum.wrapping_add(changed_value(&difference));
    }
    sum
}

/// The same of ordered maps.
pub(crate) fn sum_changes_ordered<K: BenchKey>(
    before: &Ordered<Item<K>>,
    after: &Ordered<Item<K>>,
) -> u64 {
    let mut sum = 0u64;
    for difference in before.map().diff(after.map()) {
        sum = sum.wrapping_add(changed_value(&difference));
    }
    sum
}

/// The sum of the values of the items whose keys the other map lacks, of std's maps.
pub(crate) fn sum_lacking_hashed<K: BenchKey>(
    map: &HashMap<K, Item<K>>,
    other: &HashMap<K, Item<K>>,
) -> u64 {
    let mut sum = 0u64;
    for (key, item) in map.iter() {
        if !other.contains_key(key) {
            sum = sum.wrapping_add(item.value);
        }
    }
    sum
}

/// The same of maps in order.
pub(crate) fn sum_lacking_sorted<K: BenchKey>(
    map: &BTreeMap<K, Item<K>>,
    other: &BTreeMap<K, Item<K>>,
) -> u64 {
    let mut sum = 0u64;
    for (key, item) in map.iter() {
        if !other.contains_key(key) {
            sum = sum.wrapping_add(item.value);
        }
    }
    sum
}

// The nanoseconds of the difference of two maps, and the sum of what changed.
fn timed<S: Subject>(clock: &impl Clock, alloc: Global, plan: &Plan) -> io::Result<(u64, u64)> {
    let before: S = filled(alloc, plan)?;
    let mut after: S = filled(alloc, plan)?;
    exchange_hundredth(&mut after, alloc, plan)?;
    clocked(clock, || before.sum_changes(&after))
}

// Times our maps and std's, taking turns: whether their sums agree. The times are written if they are asked for.
fn compare_kind<S: Subject, R: Subject>(
    clock: &impl Clock,
    alloc: Global,
    out: &mut impl Write,
    (plan, rounds, kind): (&Plan, u32, &str),
    is_told: bool,
) -> io::Result<bool> {
    let mut ours = timed::<S>(clock, alloc, plan)?;
    let mut std = timed::<R>(clock, alloc, plan)?;
    for _ in 1..rounds {
        ours.0 = ours.0.min(timed::<S>(clock, alloc, plan)?.0);
        std.0 = std.0.min(timed::<R>(clock, alloc, plan)?.0);
    }
    if is_told {
        let times: (&[u64], &[u64]) = (&[ours.0], &[std.0]);
        write_phases(
            out,
            (kind, S::Key::name()),
            plan.size(),
            &["difference"],
            times,
        )?;
    }
    Ok(ours.1 == std.1)
}

/// Times the differences of both kinds of map with keys of one type: whether all sums agree. Std's maps are walked by
/// hand, with a lookup in the other map.
pub(crate) fn compare_differences<K: BenchKey>(
    clock: &impl Clock,
    alloc: Global,
    out: &mut impl Write,
    (plan, rounds): (&Plan, u32),
    is_told: bool,
) -> io::Result<bool> {
    let hash = (plan, rounds, "hash");
    let do_agree = compare_kind::<Hashed<Item<K>>, HashMap<K, Item<K>>>(
        clock, alloc, out, hash, is_told,
    )?;
    let ord = (plan, rounds, "ord");
    Ok(
        compare_kind::<Ordered<Item<K>>, BTreeMap<K, Item<K>>>(clock, alloc, out, ord, is_told)?
            && do_agree,
    )
}
