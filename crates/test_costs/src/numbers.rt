//! Items by their numbers, and calls with how many steps they took.
use crate::prelude::*;

/// The item of a number.
pub(crate) fn numbered(number: u32) -> Numbered {
    Numbered {
        number,
        value: number ^ 5,
    }
}

/// The items of all numbers below a prime, in an order that the factor gives.
pub(crate) fn by_factor(alloc: Global, end: u32, factor: u32) -> Result<Vec<Numbered>, AllocError> {
    let mut items = Vec::new(alloc);
    for place in 1..end {
        let number = u64::from(place) * u64::from(factor) % u64::from(end);
        items.push(numbered(number as u32))?;
    }
    Ok(items)
}

/// Whether each of the numbers from one to below another goes into the map.
pub(crate) fn are_put<S>(map: &mut Either<Numbered, S>, first: u32, end: u32) -> bool
where
    S: BuildHasher,
{
    for number in first..end {
        if !map.is_put(numbered(number)) {
            return false;
        }
    }
    true
}

/// Whether each of the numbers below a hundred is found within this many steps.
pub(crate) fn are_found<S>(map: &Either<Numbered, S>, most: u32) -> bool
where
    S: BuildHasher,
{
    for number in 0..100u32 {
        let (is_found, steps) = found(map.get_counted(&number));
        if !is_found || steps > most {
            return false;
        }
    }
    true
}

/// An ordered map of the numbers from one to below another, which are inserted.
pub(crate) fn ordered_of(rt: &impl Host, first: u32, end: u32) -> Ordered<Numbered> {
    let mut map = maps::in_order(rt.alloc());
    for number in first..end {
        check(rt, map.is_put(numbered(number)));
    }
    map
}

/// An empty hash map of numbers whose every hash is 0.
pub(crate) fn of_equal_hashes(alloc: Global) -> Either<Numbered, Zero> {
    hashed_by(alloc, Zero::new())
}

/// Whether `get_counted` found an item, and how many steps it took. `put` and `take` tell the same of their calls.
pub(crate) fn found<T>((found, steps): (Option<&T>, u32)) -> (bool, u32) {
    (found.is_some(), steps)
}

pub(crate) fn put<T: IdOrdItem + Copy>(map: &mut Ordered<T>, item: T) -> (bool, u32) {
    let (inserted, steps) = map.insert_counted(item);
    (matches!(inserted, Inserted::Done), steps)
}

pub(crate) fn take<T: IdOrdItem + Copy>(map: &mut Ordered<T>, key: &T::Key) -> (bool, u32) {
    let (taken, steps) = map.remove_counted(key);
    (taken.is_some(), steps)
}
