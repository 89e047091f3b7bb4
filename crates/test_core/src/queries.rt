//! Keys of what is held, counts of comparisons, and texts for keys.
use crate::ord_index::{Coin, check};
use iddqd_store::{Comparable, Equivalent, IdHashItem, IdOrdItem, Steps, Text};
use std::cmp::Ordering;
use std::hash::{BuildHasher, BuildHasherDefault, FoldHasher, Hash};
use std::rc::Rc;
use std::test::Fail;

// The keys that a hash map sees and an ordered map does.
fn keys<T: IdHashItem<Key = u32> + IdOrdItem<Key = u32>>(item: &T) -> (u32, u32) {
    (*IdHashItem::key(item), *IdOrdItem::key(item))
}

// What holds an item shows the key of what it holds.
#[test]
fn keys_of_what_is_held(rt: HostRuntime) -> Result<(), Fail> {
    let coin = Coin { year: 1806 };
    check(&rt, keys(&&coin) == (1806, 1806));
    let boxed = Box::new(rt.alloc(), Coin { year: 1807 })?;
    check(&rt, keys(&boxed) == (1807, 1807));
    let shared = Rc::new(rt.alloc(), Coin { year: 1808 })?;
    check(&rt, keys(&shared) == (1808, 1808));
    Ok(())
}

#[test]
fn counts(rt: HostRuntime) {
    let mut steps = Steps::new();
    check(&rt, steps.compare(&1u32, &2) == Ordering::Less);
    check(&rt, steps.compare(&2u32, &2) == Ordering::Equal);
    check(&rt, steps.equal(&2u32, &2));
    check(&rt, !steps.equal(&2u32, &3));
    check(&rt, steps.count() == 4);
}

fn stands_for<Q: Comparable<String>>(query: &Q, key: &String) -> (bool, Ordering) {
    (query.equivalent(key), query.compare(key))
}

// A text stands to a key as the `String` of the same text does, and hashes as it does.
#[test]
fn stands_as_its_string(rt: HostRuntime) -> Result<(), Fail> {
    let key = "foo".to_string(rt.alloc())?;
    for (text, equal, order) in [
        ("foo", true, Ordering::Equal),
        ("fo", false, Ordering::Less),
        ("fop", false, Ordering::Greater),
    ] {
        check(&rt, stands_for(&Text(text), &key) == (equal, order));
        let owned = text.to_string(rt.alloc())?;
        check(&rt, stands_for(&owned, &key) == (equal, order));
    }
    let hasher: BuildHasherDefault<FoldHasher> = BuildHasherDefault::new();
    check(&rt, hasher.hash_one(Text("foo")) == hasher.hash_one(&key));
    check(&rt, hasher.hash_one(Text("fop")) != hasher.hash_one(&key));
    Ok(())
}
