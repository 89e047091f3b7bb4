//! Rows of iterators whose hints lie, and of maps that are full.
use crate::numbers::by_factor;
use crate::prelude::*;
use iddqd::errors::ExtendError;
use test_support::new_items::numbered;

// The item that was refused for the limit, and whether there was such a refusal.
fn stopped_at(outcome: Result<(), ExtendError<Numbered>>) -> (Option<Numbered>, bool) {
    match outcome {
        Ok(()) => (None, false),
        Err(stopped) => (stopped.item, stopped.error.is_capacity_overflow()),
    }
}

fn is_filled_to_two(map: &mut Either<Numbered>) -> bool {
    let (two, again, three) = (numbered(2, 2), numbered(1, 3), numbered(3, 4));
    let items = [numbered(1, 1), two, again, three];
    let stopped = stopped_at(map.extend(Hinted::new(&items, 0)));
    let is_stopped = stopped == (Some(three), true) && map.len() == 2;
    is_stopped && map.get(&1) == Some(&again) && map.get(&2) == Some(&two)
}

#[test]
fn extend_to_the_limit(rt: HostRuntime) {
    check(&rt, is_filled_to_two(&mut in_order_of(rt.alloc(), 2)));
    check(&rt, is_filled_to_two(&mut by_hash_of(rt.alloc(), 2)));
}

// What an announcement of this many comes to, of which none is there.
fn announced(map: &mut Either<Numbered>, hint: usize) -> (Option<Numbered>, bool) {
    stopped_at(map.extend(Hinted::new(&[], hint)))
}

fn keeps_to_two(map: &mut Either<Numbered>) -> bool {
    announced(map, 3) == (None, true)
        && map.len() == 0
        && map.is_put(numbered(1, 1))
        && announced(map, 3) == (None, true)
        && announced(map, 2) == (None, false)
        && map.len() == 1
        && map.get(&1) == Some(&numbered(1, 1))
}

#[test]
fn hints_at_the_limit(rt: HostRuntime) {
    check(&rt, keeps_to_two(&mut in_order_of(rt.alloc(), 2)));
    check(&rt, keeps_to_two(&mut by_hash_of(rt.alloc(), 2)));
}

// Whether a map without items reserves for all that is announced, if it has some room too, and whatever comes.
fn reserves_all(map: &mut Either<Numbered>) -> bool {
    map.reserve(4).is_ok() && announced(map, 100) == (None, false) && map.room() >= 100
}

// The same of `extend_unique`.
fn adds_all(map: &mut Either<Numbered>) -> bool {
    matches!(map.add_each(Hinted::new(&[], 100)), Added::All) && map.room() >= 100
}

#[test]
fn hints_to_empty_maps(rt: HostRuntime) {
    check(&rt, reserves_all(&mut in_order(rt.alloc())));
    check(&rt, reserves_all(&mut by_hash(rt.alloc())));
    check(&rt, adds_all(&mut in_order(rt.alloc())));
    check(&rt, adds_all(&mut by_hash(rt.alloc())));
}

// Whether an item is taken that is announced as more.
fn takes_few(map: &mut Either<Numbered>) -> bool {
    let few = stopped_at(map.extend(Hinted::new(&[numbered(1, 1)], 5)));
    few == (None, false) && map.len() == 1
}

// Whether many items are taken that are not announced.
fn takes_many(map: &mut Either<Numbered>, items: &[Numbered]) -> bool {
    let many = stopped_at(map.extend(Hinted::new(items, 0)));
    many == (None, false) && map.len() == 100
}

// Whether an announcement that passes what a map ever holds is refused for that.
fn is_too_many(alloc: Global, kind: Kind) -> bool {
    let announced: Hinted<'_, Numbered> = Hinted::new(&[], 4_294_967_296);
    match Either::collected_unique(kind, alloc, announced) {
        Err(FromIterError::Refused(error)) => error == TryReserveError::capacity_overflow(),
        _ => false,
    }
}

#[test]
fn few_or_many_items(rt: HostRuntime) -> Result<(), Fail> {
    let hundred = by_factor(rt.alloc(), 101, 1)?;
    check(&rt, takes_few(&mut in_order(rt.alloc())));
    check(&rt, takes_few(&mut by_hash(rt.alloc())));
    check(
        &rt,
        takes_many(&mut in_order(rt.alloc()), hundred.as_slice()),
    );
    check(
        &rt,
        takes_many(&mut by_hash(rt.alloc()), hundred.as_slice()),
    );
    check(&rt, is_too_many(rt.alloc(), Kind::Ordered));
    check(&rt, is_too_many(rt.alloc(), Kind::Hashed));
    Ok(())
}
