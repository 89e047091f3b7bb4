//! Maps of many items, hash maps over other hashers, and the numbers of a map.
use crate::numbers::{are_put, by_factor, numbered, of_equal_hashes};
use crate::prelude::*;
use test_support::hashers::{FewBits, Varying};

// Whether each of the items is inserted, and then all are found.
fn all_go_in<S: BuildHasher>(map: &mut Either<Numbered, S>, items: &[Numbered]) -> bool {
    for item in items {
        if !map.is_put(*item) {
            return false;
        }
    }
    all_are_found(map, items)
}

// Whether each of the items is found under its key.
fn all_are_found<S: BuildHasher>(map: &Either<Numbered, S>, items: &[Numbered]) -> bool {
    for item in items {
        if map.get(&item.number) != Some(item) {
            return false;
        }
    }
    true
}

// Whether each of the items comes out, and is not there any more.
fn all_come_out<S: BuildHasher>(map: &mut Either<Numbered, S>, items: &[Numbered]) -> bool {
    for item in items {
        if map.remove(&item.number) != Some(*item) || map.get(&item.number).is_some() {
            return false;
        }
    }
    true
}

// Whether another item of the number is refused as a duplicate of the one that is there.
fn is_twice_refused<S>(map: &mut Either<Numbered, S>, again: Numbered) -> bool
where
    S: BuildHasher + Drop,
{
    map.insert(again) == Inserted::Duplicate(again, Some(numbered(again.number)))
}

// Whether the numbers from 1 to 100 are inserted, 50 cannot be inserted twice, and it alone is removed.
fn all_but_fifty<S>(map: &mut Either<Numbered, S>, items: &[Numbered]) -> bool
where
    S: BuildHasher + Drop,
{
    let (front, rest) = items.split_at(items.len().min(49));
    let (_, behind) = rest.split_at(rest.len().min(1));
    let mut again = numbered(50);
    again.value = 0;
    all_go_in(map, items)
        && map.get(&101).is_none()
        && is_twice_refused(map, again)
        && map.remove(&50) == Some(numbered(50))
        && map.get(&50).is_none()
        && all_are_found(map, front)
        && all_are_found(map, behind)
        && map.len() == 99
}

#[test]
fn constant_hasher(rt: HostRuntime) -> Result<(), Fail> {
    let items = by_factor(rt.alloc(), 101, 1)?;
    let mut map = of_equal_hashes(rt.alloc());
    check(&rt, all_but_fifty(&mut map, items.as_slice()));
    Ok(())
}

// A hundred thousand keys whose hashes vary in few bits are inserted, and all are found. Each takes a time that
// does not grow with their number.
#[test]
fn hashers_of_few_bits(rt: HostRuntime) -> Result<(), Fail> {
    let items = by_factor(rt.alloc(), 100_003, 7)?;
    for varying in [Varying::High, Varying::Low, Varying::Multiples] {
        let mut map = hashed_by(rt.alloc(), FewBits::new(varying));
        check(&rt, all_go_in(&mut map, items.as_slice()));
    }
    Ok(())
}

// Whether ten thousand keys are inserted in one order, and removed in another.
fn in_and_out(map: &mut Either<Numbered>, coming: &[Numbered], going: &[Numbered]) -> bool {
    let (front, rest) = going.split_at(going.len().min(5_000));
    all_go_in(map, coming)
        && map.len() == 10_006
        && all_come_out(map, front)
        && map.len() == 5_006
        && all_are_found(map, rest)
        && all_come_out(map, rest)
        && map.len() == 0
}

#[test]
fn ten_thousand_keys(rt: HostRuntime) -> Result<(), Fail> {
    let coming = by_factor(rt.alloc(), 10_007, 7)?;
    let going = by_factor(rt.alloc(), 10_007, 11)?;
    for mut map in [in_order(rt.alloc()), by_hash(rt.alloc())] {
        check(
            &rt,
            in_and_out(&mut map, coming.as_slice(), going.as_slice()),
        );
    }
    Ok(())
}

// Whether the items are inserted, 7 cannot be inserted twice, and all are removed.
fn seven_goes_in_once<S>(map: &mut Either<Numbered, S>, items: &[Numbered]) -> bool
where
    S: BuildHasher + Drop,
{
    all_go_in(map, items) && is_twice_refused(map, numbered(7)) && all_come_out(map, items)
}

#[test]
fn random_hasher(rt: HostRuntime) -> Result<(), Fail> {
    let items = by_factor(rt.alloc(), 13, 2)?;
    let mut map = hashed_by(rt.alloc(), RandomState::new(&rt)?);
    check(&rt, seven_goes_in_once(&mut map, items.as_slice()));
    Ok(())
}

// Whether these are the numbers of a map without items.
fn counts_nothing(map: &Either<Coarse>) -> bool {
    map.capacity() == 0
        && map.room() == 0
        && map.vacant() == 0
        && map.limit() == 4_294_967_295
        && !map.contains(&Caseless(*b"foo"))
}

#[test]
fn numbers_of_an_empty_map(rt: HostRuntime) {
    let map = IdOrdMap::new(rt.alloc());
    check(&rt, map.is_empty());
    check(&rt, counts_nothing(&Either::Ordered(Ordered::new(map))));
}

#[test]
fn hash_numbers_of_an_empty_map(rt: HostRuntime) {
    let map = IdHashMap::new(rt.alloc());
    check(&rt, map.is_empty());
    check(&rt, counts_nothing(&Either::Hashed(Hashed::new(map))));
}

// Whether the numbers are right after one of two items has left.
fn counts_the_one_left(map: &mut Either<Numbered>) -> bool {
    are_put(map, 1, 3)
        && map.remove(&1) == Some(numbered(1))
        && map.vacant() == 1
        && map.capacity() >= 2
        && map.room() >= 1
        && map.contains(&2)
}

#[test]
fn numbers_after_a_removal(rt: HostRuntime) {
    check(&rt, counts_the_one_left(&mut in_order(rt.alloc())));
}

#[test]
fn hash_numbers_after_a_removal(rt: HostRuntime) {
    check(&rt, counts_the_one_left(&mut by_hash(rt.alloc())));
}

// Six hundred thousand items are inserted, more than 65,536 groups of nine hold.
fn go_in_by_number(map: &mut Either<Numbered>) -> bool {
    are_put(map, 0, 600_000)
        && map.len() == 600_000
        && map.get(&599_999) == Some(&numbered(599_999))
}

// Whether the walk that ends the map has a last item.
fn has_last(map: Either<Numbered>) -> bool {
    match map {
        Either::Ordered(map) => map.into_map().into_iter().last().is_some(),
        Either::Hashed(map) => map.into_map().into_iter().last().is_some(),
    }
}

#[test]
fn six_hundred_thousand_in_order(rt: HostRuntime) {
    check(&rt, go_in_by_number(&mut in_order(rt.alloc())));
}

#[test]
fn six_hundred_thousand_by_hash(rt: HostRuntime) {
    let mut map = by_hash(rt.alloc());
    check(&rt, go_in_by_number(&mut map));
    check(&rt, has_last(map));
}
