//! Maps that are made, of either kind, with a request refused: then nothing is.
use crate::numbers::{fill, holds, numbers};
use crate::prelude::*;

// Ends the count: the word for a map that was made, if it is right.
fn word(alloc: Global, made: Result<bool, TryReserveError>) -> Word {
    let is_met = is_met(alloc);
    word_by_refusal(is_due(made, is_met), is_met, ["made", "nothing_made"])
}

#[test]
fn with_capacity(rt: HostRuntime) -> Result<(), Fail> {
    arm(rt.alloc());
    let made = IdOrdMap::<Numbered>::with_capacity(rt.alloc(), 20);
    tell(&rt, word(rt.alloc(), made.map(|_| true)))
}

#[test]
fn hash_with_capacity(rt: HostRuntime) -> Result<(), Fail> {
    arm(rt.alloc());
    let made = IdHashMap::<Numbered>::with_capacity(rt.alloc(), 20);
    tell(&rt, word(rt.alloc(), made.map(|_| true)))
}

#[test]
fn with_capacity_and_hasher(rt: HostRuntime) -> Result<(), Fail> {
    let hasher = DefaultHashBuilder::new();
    arm(rt.alloc());
    let made = IdHashMap::<Numbered>::with_capacity_and_hasher(rt.alloc(), 20, hasher);
    tell(&rt, word(rt.alloc(), made.map(|_| true)))
}

// What `with_capacity` made room for goes in, and asks for nothing.
#[test]
fn hash_room_without_memory(rt: HostRuntime) -> Result<(), Fail> {
    let map = IdHashMap::with_capacity(rt.alloc(), 20)?;
    let mut map = Either::Hashed(Hashed::new(map));
    arm(rt.alloc());
    let is_full = fill(&mut map, 20) && map.room() == 0;
    tell(&rt, word_without_memory(rt.alloc(), is_full))
}

// Collects twenty numbers, of which none may repeat if the map is to be unique.
fn collection(alloc: Global, kind: Kind, is_unique: bool) -> Word {
    let items = numbers(alloc, 0, 20)?;
    arm(alloc);
    let made = if is_unique {
        unique(Either::collected_unique(kind, alloc, items))
    } else {
        Either::collected(kind, alloc, items)
    };
    word(alloc, made.map(|map| holds(&map, 20)))
}

#[test]
fn from_iter(rt: HostRuntime) -> Result<(), Fail> {
    tell(&rt, collection(rt.alloc(), Kind::Ordered, false))
}

#[test]
fn hash_from_iter(rt: HostRuntime) -> Result<(), Fail> {
    tell(&rt, collection(rt.alloc(), Kind::Hashed, false))
}

#[test]
fn from_iter_unique(rt: HostRuntime) -> Result<(), Fail> {
    tell(&rt, collection(rt.alloc(), Kind::Ordered, true))
}

#[test]
fn hash_from_iter_unique(rt: HostRuntime) -> Result<(), Fail> {
    tell(&rt, collection(rt.alloc(), Kind::Hashed, true))
}
