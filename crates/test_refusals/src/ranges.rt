//! Positions, ranges and walks from the back, which ask for no memory.
use crate::prelude::*;
use std::ops::Bound;

/// An ordered map of the numbers below 78.
pub(crate) fn filled(alloc: Global) -> Result<Ordered<Numbered>, Fail> {
    let mut map = Ordered::new(IdOrdMap::new(alloc));
    let is_full = (0..78).all(|number| map.is_put(numbered(number, 5)));
    Ok(is_full.then_some(map).ok_or("a number is not put")?)
}

// Whether positions, bounds and walks from both ends are those of the list of the numbers below 78.
fn are_read(map: &Ordered<Numbered>, items: &[Numbered]) -> bool {
    let (low, high) = (Bound::Included(&0), Bound::Included(&77));
    map.has_items(items)
        && map.has_between((low, high), items)
        && map.lower_bound(low) == items.first()
        && map.upper_bound(high) == items.last()
        && map.get_index(0) == items.first()
        && map.map().range_index(0..78).len() == 78
        && map.index_of(&0).0 == Ok(0)
        && map.count_between((low, high)).0 == 78
}

// Whether removals by position and of a range give the items that they should, and leave none.
fn are_removed(map: &mut Ordered<Numbered>, items: &[Numbered]) -> bool {
    map.remove_index(0).as_ref() == items.first()
        && map.take_index(76).as_ref() == items.last()
        && map.remove_range((Bound::Excluded(&0), Bound::Unbounded)) == 76
        && map.len() == 0
}

#[test]
fn ranges_without_memory(rt: HostRuntime) -> Result<(), Fail> {
    let mut map = filled(rt.alloc())?;
    let listed = map.listed(rt.alloc())?;
    let items = listed.as_slice();
    arm(rt.alloc());
    let is_well = are_read(&map, items) && are_removed(&mut map, items);
    tell(&rt, word_without_memory(rt.alloc(), is_well))
}
