//! How often a difference compares and hashes keys.
use crate::prelude::*;
use iddqd::Steps;
use iddqd_diff::Diffable;
use test_support::counting::{Counts, Tallied};

fn old_and_new(counts: &Counts) -> ([Tallied<'_>; 4], [Tallied<'_>; 3]) {
    let (two, three) = (counts.item(2), counts.item(3));
    (
        [counts.item(1), two, three, counts.item(5)],
        [two, three, counts.item(4)],
    )
}

// A step at which one map has ended compares none, and neither does the last.
#[test]
fn a_step_compares_once(rt: HostRuntime) {
    let counts = Counts::default();
    let (old, new) = old_and_new(&counts);
    let before = IdOrdMap::from_iter(rt.alloc(), old).expect(&rt, "memory");
    let after = IdOrdMap::from_iter(rt.alloc(), new).expect(&rt, "memory");
    let _ = counts.since();
    let mut steps = Steps::new();
    let mut differences = before.diff(&after);
    for (wanted, more) in [(1, 1), (2, 1), (3, 1), (4, 1), (4, 0), (4, 0u32)] {
        let _ = differences.next_counted(&mut steps);
        check(&rt, steps.count() == wanted && counts.since() == (0, more));
    }
}

// Each key of either map is hashed once, and compared with what its hash finds.
#[test]
fn each_key_is_hashed_once(rt: HostRuntime) {
    let counts = Counts::default();
    let (old, new) = old_and_new(&counts);
    let before = IdHashMap::<Tallied<'_>>::from_iter(rt.alloc(), old).expect(&rt, "memory");
    let after = IdHashMap::<Tallied<'_>>::from_iter(rt.alloc(), new).expect(&rt, "memory");
    let _ = counts.since();
    let mut count = 0u32;
    for _difference in before.diff(&after) {
        count = count.saturating_add(1);
    }
    check(&rt, count == 5 && counts.since() == (7, 4));
}
