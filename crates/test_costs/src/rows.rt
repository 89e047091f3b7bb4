//! The most comparisons of a call, by how many items there are.
use crate::numbers::{are_found, are_put, found, numbered, of_equal_hashes, ordered_of, put, take};
use crate::prelude::*;

// Whether the lookup of each of this many numbers, and its removal from the full map, take no more steps.
fn each_is_bound(map: &mut Ordered<Numbered>, (count, bound): (u32, u32)) -> bool {
    for number in 0..count {
        let (is_found, of_lookup) = found(map.get_counted(&number));
        let (is_taken, of_removal) = take(map, &number);
        let is_bound = of_lookup <= bound && of_removal <= bound;
        if !is_found || !is_taken || !is_bound || !map.is_put(numbered(number)) {
            return false;
        }
    }
    true
}

// Whether no call of a map of these numbers alone takes more steps, the lookup of one that is absent, and its insertion
// too.
fn is_bound(rt: &impl Host, (count, bound): (u32, u32)) -> bool {
    let mut map = ordered_of(rt, 0, count);
    let (_, of_absent) = map.get_counted(&count);
    let is_each_bound = each_is_bound(&mut map, (count, bound));
    let (is_put, of_put) = put(&mut map, numbered(count));
    is_each_bound && of_absent <= bound && is_put && of_put <= bound
}

#[test]
fn table_of_counts(rt: HostRuntime) {
    for row in [(0, 4), (1, 6), (11, 12), (12, 12), (1000, 24)] {
        check(&rt, is_bound(&rt, row));
    }
}

// The counts of the row; its refusals are swept.
#[test]
fn growth_refused(rt: HostRuntime) {
    for row in [(0, 4), (1000, 24)] {
        check(&rt, is_bound(&rt, row));
    }
}

// Whether a hundred numbers of equal hashes are found, and one that is absent is not, each within a hundred steps.
fn is_within_a_hundred<S: BuildHasher>(map: &mut Either<Numbered, S>) -> bool {
    let are_found = are_put(map, 0, 100) && are_found(map, 100);
    let (is_found, steps) = found(map.get_counted(&100));
    are_found && !is_found && steps <= 100
}

#[test]
fn equal_hashes(rt: HostRuntime) {
    check(&rt, is_within_a_hundred(&mut of_equal_hashes(rt.alloc())));
}
