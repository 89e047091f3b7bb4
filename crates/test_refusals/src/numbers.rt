//! What the rows over maps of numbers share.
use crate::prelude::*;

/// Whether the numbers below the count are inserted, each with the value 5.
pub(crate) fn fill(map: &mut Either<Numbered>, count: u32) -> bool {
    (0..count).all(|number| map.insert(numbered(number, 5)) == Inserted::Done)
}

/// Whether the map is sound and holds those numbers, and no other.
pub(crate) fn holds(map: &Either<Numbered>, count: u32) -> bool {
    (0..count).all(|number| map.get(&number) == Some(&numbered(number, 5)))
        && !map.contains(&1000)
        && map.len() == count as usize
        && map.is_sound()
}

/// The numbers from the one up to the other, each with the value 5.
pub(crate) fn numbers(alloc: Global, from: u32, to: u32) -> Result<Vec<Numbered>, AllocError> {
    (from..to).map(|number| numbered(number, 5)).collect(alloc)
}
