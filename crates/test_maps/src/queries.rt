//! Rows of lookups by texts, by keys of two fields, and among items that are boxed or lent.
use crate::prelude::*;
use std::ops::Deref;
use std::rc::Rc;

fn query_by_text(rt: &impl Host, mut map: Either<Titled>) {
    check(rt, map.is_put(titled(rt, "foo", 42)));
    check(rt, map.find("foo").is_some_and(|item| item.value == 42));
    check(rt, !map.has_name("fo"));
    let name = titled(rt, "foo", 0).name;
    check(rt, map.get(&name).is_some_and(|item| item.value == 42));
    check(rt, map.take_out("foo").is_some_and(|item| item.value == 42));
    check(rt, map.len() == 0);
}

#[test]
fn text_queries(rt: HostRuntime) {
    query_by_text(&rt, in_order(rt.alloc()));
    query_by_text(&rt, by_hash(rt.alloc()));
}

// A key of two fields.
#[derive(Clone, Copy, PartialEq, Eq, PartialOrd, Ord, Hash)]
struct Release {
    name: [u8; 9],
    version: u32,
}

fn released(name: [u8; 9], version: u32, value: u32) -> Filed<Release, u32> {
    let key = Release { name, version };
    Filed { key, value }
}

fn query_by_release(rt: &impl Abort, mut map: Either<Filed<Release, u32>>) {
    let first = released(*b"artifact1", 10, 1);
    check(rt, map.is_put(first));
    check(rt, map.is_put(released(*b"artifact2", 10, 2)));
    check(rt, map.get(&first.key).copied() == Some(first));
    let other = released(*b"artifact1", 20, 0).key;
    check(rt, map.get(&other).copied() == None);
}

#[test]
fn key_of_two_fields(rt: HostRuntime) {
    query_by_release(&rt, in_order(rt.alloc()));
    query_by_release(&rt, by_hash(rt.alloc()));
}

// The item is inserted, and what is found by its name shows 42.
fn is_found<T>(rt: &impl Host, item: T, mut map: Either<T>)
where
    T: IdOrdItem<Key = String> + IdHashItem<Key = String> + Deref<Target = Titled> + Drop,
{
    check(rt, map.is_put(item));
    check(rt, map.find("foo").is_some_and(|item| item.value == 42));
}

// One item is in an ordered map, and the other in a hash map.
fn both_find<T>(rt: &impl Host, one: T, other: T)
where
    T: IdOrdItem<Key = String> + IdHashItem<Key = String> + Deref<Target = Titled> + Drop,
{
    is_found(rt, one, in_order(rt.alloc()));
    is_found(rt, other, by_hash(rt.alloc()));
}

#[test]
fn boxed_and_lent_items(rt: HostRuntime) -> Result<(), Fail> {
    let alloc = rt.alloc();
    let item = || titled(&rt, "foo", 42);
    both_find(&rt, Box::new(alloc, item())?, Box::new(alloc, item())?);
    both_find(&rt, Rc::new(alloc, item())?, Rc::new(alloc, item())?);
    let item = item();
    both_find(&rt, &item, &item);
    Ok(())
}
