//! Ordered maps of many items, in and out in several orders.
use crate::numbers::{by_factor, found, ordered_of, take};
use crate::prelude::*;

// The most comparisons of a call among this many: 4 and twice the binary digits of the number.
fn bound(len: usize) -> u32 {
    let digits = usize::BITS.wrapping_sub(len.leading_zeros());
    digits.wrapping_mul(2).wrapping_add(4)
}

// The map of the numbers below 1009, inserted in the order that the factor gives.
fn filled(alloc: Global, factor: u32) -> Result<Ordered<Numbered>, AllocError> {
    let mut map = maps::in_order(alloc);
    for item in by_factor(alloc, 1009, factor)? {
        let _ = map.is_put(item);
    }
    Ok(map)
}

// Whether the walk has the numbers from one to below another, in order.
fn walks(map: &Ordered<Numbered>, first: u32, end: u32) -> bool {
    map.map().iter().map(|item| item.number).eq(first..end)
}

// Whether the walk has this many items, and their numbers ascend.
fn ascends(map: &Ordered<Numbered>, count: usize) -> bool {
    let walk = map.map().iter();
    let is_sorted = walk.is_sorted_by(|one, other| one.number < other.number);
    is_sorted && map.map().iter().count() == count
}

// The factor 1008 is the descending order.
#[test]
fn three_orders(rt: HostRuntime) -> Result<(), Fail> {
    for factor in [1, 1008, 7] {
        let map = filled(rt.alloc(), factor)?;
        check(&rt, walks(&map, 1, 1009));
        for number in 1..1009u32 {
            let (is_found, steps) = found(map.get_counted(&number));
            check(&rt, is_found && steps <= 24);
        }
    }
    Ok(())
}

// Whether the items come out, each within the bound.
fn are_taken(map: &mut Ordered<Numbered>, items: &[Numbered]) -> bool {
    for item in items {
        let most = bound(map.len());
        let (is_taken, steps) = take(map, &item.number);
        if !is_taken || steps > most {
            return false;
        }
    }
    true
}

#[test]
fn removals_in_mixed_order(rt: HostRuntime) -> Result<(), Fail> {
    let items = by_factor(rt.alloc(), 1009, 11)?;
    let (half, rest) = items.as_slice().split_at(504.min(items.len()));
    for factor in [1, 1008, 7] {
        let mut map = filled(rt.alloc(), factor)?;
        check(&rt, are_taken(&mut map, half) && ascends(&map, 504));
        check(&rt, are_taken(&mut map, rest) && ascends(&map, 0));
    }
    Ok(())
}

#[test]
fn removals_in_order(rt: HostRuntime) {
    let mut map = ordered_of(&rt, 1, 13);
    for number in 1..13u32 {
        check(&rt, map.remove(&number).is_some());
        check(&rt, walks(&map, number.wrapping_add(1), 13));
    }
    check(&rt, map.len() == 0);
}
