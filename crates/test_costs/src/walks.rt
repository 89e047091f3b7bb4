//! Rows of reading walks and equality.
ghost use Rattle.std.specs.Prelude.{nat_eq};
ghost use Rattle.std.specs.Cmp.{on_equiv, on_per, nat_eq_equiv, partial_equiv_from_equiv};

use crate::prelude::*;
use test_support::items::Named;
use test_support::new_items::named;

// Whether foo, bar and baz are inserted.
fn is_filled(map: &mut Either<Named>) -> bool {
    map.is_put(named(*b"foo", 42))
        && map.is_put(named(*b"bar", 20))
        && map.is_put(named(*b"baz", 1))
}

// Whether a walk says that nothing is to come, and gives nothing, again and again.
fn gives_none<W: ExactSizeIterator>(walk: &mut W) -> bool
where
    W::Item: Drop,
    requires asked_freely { (at : W) → W.can_next at }
{
    walk.len() == 0 && walk.next().is_none() && walk.next().is_none()
}

// Whether a walk counts and gives three items, and then nothing, again and again.
fn gives_three<W: ExactSizeIterator>(walk: &mut W) -> bool
where
    W::Item: Drop,
    requires asked_freely { (at : W) → W.can_next at }
{
    for left in [3, 2, 1] {
        if walk.len() != left || walk.next().is_none() {
            return false;
        }
    }
    gives_none(walk)
}

// Whether `iter` does so.
fn shows_three(map: &Either<Named>) -> bool {
    match map {
        Either::Ordered(map) => gives_three(&mut map.map().iter()),
        Either::Hashed(map) => gives_three(&mut map.map().iter()),
    }
}

// What the walk that ends the map gives first, and how many it has left then.
fn first_out(map: Either<Named>) -> (Option<Named>, usize) {
    match map {
        Either::Ordered(map) => {
            let mut walk = map.into_map().into_iter();
            (walk.next(), walk.len())
        }
        Either::Hashed(map) => {
            let mut walk = map.into_map().into_iter();
            (walk.next(), walk.len())
        }
    }
}

#[test]
fn reading_walk(rt: HostRuntime) {
    let mut map = in_order(rt.alloc());
    check(&rt, is_filled(&mut map) && shows_three(&map));
    check(&rt, first_out(map) == (Some(named(*b"bar", 20)), 2));
}

#[test]
fn hash_reading_walk(rt: HostRuntime) {
    let mut map = by_hash(rt.alloc());
    check(&rt, is_filled(&mut map) && shows_three(&map));
    check(&rt, matches!(first_out(map), (Some(_), 2)));
}

// No walk over a map without items shows or lends one, again and again. Such maps are equal.
fn ordered_walks_give_none(rt: &impl Abort, alloc: Global) {
    let mut map: IdOrdMap<Named> = IdOrdMap::new(alloc);
    check(rt, map == IdOrdMap::new(alloc));
    check(rt, gives_none(&mut map.iter()));
    let mut walk = map.iter_mut();
    check(rt, walk.len() == 0 && walk.next().is_none());
    check(rt, walk.next().is_none());
    check(rt, gives_none(&mut map.into_iter()));
}

fn hash_walks_give_none(rt: &impl Abort, alloc: Global) {
    let mut map: IdHashMap<Named> = IdHashMap::new(alloc);
    check(rt, map.eq(&IdHashMap::new(alloc)));
    check(rt, gives_none(&mut map.iter()));
    let mut walk = map.iter_mut();
    check(rt, walk.len() == 0 && walk.next().is_none());
    check(rt, walk.next().is_none());
    check(rt, gives_none(&mut map.into_iter()));
}

#[test]
fn walks_of_empty_maps(rt: HostRuntime) {
    ordered_walks_give_none(&rt, rt.alloc());
    hash_walks_give_none(&rt, rt.alloc());
}

/// Items whose equality ignores the key.
#[derive(Clone, Copy)]
pub struct Valued {
    pub key: u32,
    pub value: u32,
}

impl PartialEq for Valued {
    ghost eq = { λ one other. nat_eq one.value other.value };

    ghost laws = { on_per (λ item. item.value) (partial_equiv_from_equiv nat_eq_equiv) };

    fn eq(&self, other: &Valued) -> bool {
        self.value == other.value
    }
}

impl IdOrdItem for Valued {
    type Key = u32;

    ghost key = { λ item. item.key };

    fn key(&self) -> &u32 {
        &self.key
    }
}

impl IdHashItem for Valued {
    type Key = u32;

    ghost key = { λ item. item.key };

    fn key(&self) -> &u32 {
        &self.key
    }
}

const ONE: Valued = Valued { key: 1, value: 7 };

const OTHER: Valued = Valued { key: 2, value: 7 };

// Whether ordered maps of the one and of the other are equal.
fn are_equal_in_order(alloc: Global) -> bool {
    let (mut one, mut other) = (maps::in_order(alloc), maps::in_order(alloc));
    one.is_put(ONE) && other.is_put(OTHER) && one.map() == other.map()
}

// Whether hash maps of them are not.
fn differ_by_hash(alloc: Global) -> bool {
    let (mut one, mut other) = (maps::by_hash(alloc), maps::by_hash(alloc));
    one.is_put(ONE) && other.is_put(OTHER) && !one.map().eq(other.map())
}

#[test]
fn equality_ignores_key(rt: HostRuntime) {
    check(&rt, are_equal_in_order(rt.alloc()));
    check(&rt, differ_by_hash(rt.alloc()));
}
