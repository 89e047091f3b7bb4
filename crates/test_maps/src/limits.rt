//! Rows of limits and reservations.
use crate::insertions::insert_each;
use crate::prelude::*;

fn full_at_two(rt: &impl Abort, mut map: Either<Named>) {
    let full = TryReserveError::capacity_overflow();
    let rows = [
        (FOO, Inserted::Done),
        (BAR, Inserted::Done),
        (OTHER_FOO, Inserted::Duplicate(OTHER_FOO, Some(FOO))),
        (BAZ, Inserted::Refused(BAZ, full)),
    ];
    insert_each(rt, &mut map, &rows);
    let old = map.overwrite(OTHER_FOO);
    check(rt, matches!(old, Ok(Some(old)) if old == FOO));
    check(rt, map.remove(b"bar") == Some(BAR));
    let valid = map.validates(ValidateCompact::Compact);
    check(rt, valid == (false, false));
    insert_each(rt, &mut map, &[(BAZ, Inserted::Done)]);
    check(rt, map.is_compact() && map.reserve(1) == Err(full));
}

fn full_at_none(rt: &impl Abort, mut map: Either<Named>) {
    let full = TryReserveError::capacity_overflow();
    check(rt, map.reserve(0) == Ok(()));
    check(rt, map.insert(FOO) == Inserted::Refused(FOO, full));
}

#[test]
fn limit_two(rt: HostRuntime) {
    full_at_two(&rt, in_order_of(rt.alloc(), 2));
    full_at_two(&rt, by_hash_of(rt.alloc(), 2));
    full_at_none(&rt, in_order_of(rt.alloc(), 0));
    full_at_none(&rt, by_hash_of(rt.alloc(), 0));
}

// Of a limit of four, three are there.
#[test]
fn limit_four(rt: HostRuntime) {
    let full = TryReserveError::capacity_overflow();
    let mut map = filled(&rt, by_hash_of(rt.alloc(), 4), &[FOO, BAR, BAZ]);
    check(&rt, map.reserve(1) == Ok(()) && map.room() == 1);
    check(&rt, map.reserve(2) == Err(full) && map.room() == 1);
    let past = IdHashMap::<Named>::with_capacity(rt.alloc(), 4_294_967_296);
    check(&rt, past.err() == Some(full));
}

// With memory at hand a map is made with the room that is asked for, and with no more in the store.
#[test]
fn made_with_room(rt: HostRuntime) -> Result<(), Fail> {
    let ordered = IdOrdMap::<Named>::with_capacity(rt.alloc(), 100)?;
    check(&rt, ordered.capacity() == 100);
    let hashed = IdHashMap::<Named>::with_capacity(rt.alloc(), 100)?;
    check(&rt, hashed.capacity() == 100);
    check(&rt, hashed.spare() >= 100 && hashed.spare() < 200);
    Ok(())
}

// Shrinks a map that was made with room for 100. The store keeps room for what is asked for or there, and for no more.
fn shrunk(rt: &impl Abort, map: Either<Named>, room_of_ten: usize) {
    let mut map = filled(rt, map, &[FOO, BAR]);
    for (min, capacity) in [(usize::MAX, 100), (60, 60), (10, 10)] {
        check(rt, map.shrink_to(min) == Ok(()));
        check(rt, map.capacity() == capacity && map.vacant() == 0);
        check(rt, map.has_only(&[FOO, BAR]));
    }
    check(rt, map.room() >= room_of_ten);
    check(rt, map.shrink_to(0) == Ok(()));
    check(rt, map.capacity() == 2 && map.has_only(&[FOO, BAR]));
    check(rt, map.remove(b"bar") == Some(BAR));
    check(rt, map.shrink_to(0) == Ok(()));
    check(rt, map.capacity() == 1 && map.len() == 1);
}

#[test]
fn capacity_and_shrink(rt: HostRuntime) -> Result<(), Fail> {
    let ordered = IdOrdMap::with_capacity(rt.alloc(), 100)?;
    shrunk(&rt, Either::Ordered(Ordered::new(ordered)), 10);
    let hashed = IdHashMap::with_capacity(rt.alloc(), 100)?;
    shrunk(&rt, Either::Hashed(Hashed::new(hashed)), 8);
    Ok(())
}

// A map without items lacks what is asked for, and is as it should be.
fn of_nothing(rt: &impl Abort, mut map: Either<Named>) {
    check(rt, map.get(b"foo").is_none());
    check(rt, map.remove(b"foo").is_none());
    check(rt, map.len() == 0 && map.is_compact());
}

#[test]
fn empty_map(rt: HostRuntime) {
    of_nothing(&rt, in_order(rt.alloc()));
    of_nothing(&rt, by_hash(rt.alloc()));
}

// Room for ten is full but for four vacant slots. They serve a reservation of four, and four of a reservation of fourteen.
fn reserves_beside_vacant(rt: &impl Abort, mut map: Either<Numbered>) {
    check(rt, (0..10).all(|number| map.is_put(numbered(number, 0))));
    check(rt, (3..7).all(|number| map.remove(&number).is_some()));
    check(rt, map.capacity() == 10 && map.vacant() == 4);
    check(rt, map.reserve(4) == Ok(()));
    check(rt, map.capacity() == 10);
    check(rt, map.reserve(14) == Ok(()));
    check(rt, map.capacity() == 20);
}

#[test]
fn reserve_beside_vacant_slots(rt: HostRuntime) -> Result<(), Fail> {
    let ordered = IdOrdMap::with_capacity(rt.alloc(), 10)?;
    reserves_beside_vacant(&rt, Either::Ordered(Ordered::new(ordered)));
    let hashed = IdHashMap::with_capacity(rt.alloc(), 10)?;
    reserves_beside_vacant(&rt, Either::Hashed(Hashed::new(hashed)));
    Ok(())
}
