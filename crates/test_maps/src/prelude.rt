//! What rows share: items, maps, and what they hold to be so.
ghost use Rattle.std.specs.Prelude.{IsTrue};

pub(crate) use iddqd::errors::{FromIterError, TryReserveError};
pub(crate) use iddqd::internal::ValidateCompact;
pub(crate) use iddqd::{
    DefaultHashBuilder, IdHashItem, IdHashMap, IdOrdItem, IdOrdMap, Keyed, Visit,
};
pub(crate) use idtable_commands::{Command, KeyedMap, Reply, run};
pub(crate) use std::alloc::{AllocError, Global};
pub(crate) use std::cell::Cell;
use std::hash::Hash;
pub(crate) use std::process::Abort;
pub(crate) use std::test::Fail;
pub(crate) use test_support::bulk::Hinted;
pub(crate) use test_support::caseless::{Caseless, Coarse, item_of, spelled};
pub(crate) use test_support::coarse::Put;
pub(crate) use test_support::either::{Either, Kind, by_hash, by_hash_of, in_order, in_order_of};
pub(crate) use test_support::heap::{arm, is_met};
pub(crate) use test_support::items::{BAR, FOO, Filed, Named, Numbered, Titled};
pub(crate) use test_support::kept::Kept;
use test_support::maps;
pub(crate) use test_support::maps::{Added, Hashed, Inserted, Ordered};
pub(crate) use test_support::new_items::{named, numbered};
pub(crate) use test_support::visitors::Untouched;

pub(crate) const BAZ: Named = Named {
    name: *b"baz",
    value: 99,
};

pub(crate) const OTHER_FOO: Named = Named {
    name: *b"foo",
    value: 100,
};

/// What a test passes to its helpers: it ends the process as failed, and gives memory.
pub(crate) trait Host: Abort + AllocGlobal {}

impl<R: Abort + AllocGlobal> Host for R {}

/// Ends the test as failed if the condition is false. The proof of a call takes a third of that of an `assert!` in its
/// place.
pub(crate) fn check(rt: &impl Abort, condition: bool)
    ensures { IsTrue condition }
{
    assert!(rt; condition);
}

/// The map, once each of the items is inserted.
pub(crate) fn filled<K: Ord + Hash, T>(
    rt: &impl Abort,
    mut map: Either<T>,
    items: &[T],
) -> Either<T>
where
    T: IdOrdItem<Key = K> + IdHashItem<Key = K> + Copy + Drop,
{
    check(rt, map.are_put(items));
    map
}

pub(crate) fn titled(rt: &impl Host, name: &str, value: u32) -> Titled {
    let name = name.to_string(rt.alloc()).expect(rt, "no memory");
    Titled { name, value }
}

/// An ordered map of these items. A test that names the kind of its map takes it from here, so that one function proves
/// the insertions into such a map.
pub(crate) fn ordered_of<T: IdOrdItem + Copy + Drop>(rt: &impl Host, items: &[T]) -> Ordered<T> {
    let mut map = maps::in_order(rt.alloc());
    for item in items {
        check(rt, map.is_put(*item));
    }
    map
}

/// A hash map of these items.
pub(crate) fn hashed_of(rt: &impl Host, items: &[Named]) -> Hashed<Named> {
    let mut map = maps::by_hash(rt.alloc());
    for item in items {
        check(rt, map.is_put(*item));
    }
    map
}
