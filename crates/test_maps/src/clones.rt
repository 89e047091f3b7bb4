//! Rows of clones.
use crate::prelude::*;

// A clone of two items with a vacant slot, and with room for more, equals its source. It has room for no more than its
// slots, and what is written into it the source does not show.
fn cloned(rt: &impl Abort, mut map: Either<Coarse>) {
    check(rt, map.reserve(100).is_ok());
    check(rt, map.is_put(item_of(*b"foo", 42)));
    check(rt, map.is_put(item_of(*b"bar", 20)));
    check(rt, map.is_put(item_of(*b"baz", 1)));
    check(rt, map.remove(&Caseless(*b"baz")).is_some());
    let mut twin = map.copied().expect(rt, "no memory for a clone");
    check(rt, twin.equals(&map));
    check(rt, twin.capacity() == 3);
    check(rt, twin.write_by_reborrow(&Caseless(*b"foo"), 7).is_some());
    check(rt, !twin.equals(&map));
    check(rt, map.spelled_at(*b"foo") == Some((*b"foo", 42)));
}

#[test]
fn clone(rt: HostRuntime) {
    cloned(&rt, in_order(rt.alloc()));
}

#[test]
fn hash_clone(rt: HostRuntime) {
    cloned(&rt, by_hash(rt.alloc()));
}
