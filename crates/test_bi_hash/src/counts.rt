//! How often each call compares and hashes the keys, of items whose two keys count that.
use crate::held::*;
use std::hash::{BuildHasher, BuildHasherDefault};
use test_support::counting::{CountingKey, Counts as Tally};
use test_support::hashers::ZeroHasher;

/// An item of two such keys. Its `==` compares the first keys, and then the second ones if those are equal.
#[derive(Clone, Copy, PartialEq, Eq)]
pub(crate) struct Counted<'a> {
    pub(crate) one: CountingKey<'a>,
    pub(crate) other: CountingKey<'a>,
}

impl<'a> BiHashItem for Counted<'a> {
    type K1 = CountingKey<'a>;

    type K2 = CountingKey<'a>;

    ghost key1 = { λ item. item.one };

    ghost key2 = { λ item. item.other };

    fn key1(&self) -> &CountingKey<'a> {
        &self.one
    }

    fn key2(&self) -> &CountingKey<'a> {
        &self.other
    }
}

impl Load for Counted<'_> {
    fn set_load(&mut self, _load: u32) {}
}

/// How often first keys were compared and hashed, and second keys.
pub(crate) type Counts = (u32, u32, u32, u32);

#[derive(Clone, Copy)]
pub(crate) enum Act {
    Get(By),
    Contains(By),
    Lend(By),
    Remove(By),
    Put,
    Overwrite,
}

/// A call, the numbers of its keys, whether it finds or inserts an item, and how keys count.
pub(crate) type Row = (Act, (u32, u32), bool, Counts);

#[derive(Default, Drop)]
pub(crate) struct Tallies {
    pub(crate) first: Tally,
    pub(crate) second: Tally,
}

impl Tallies {
    pub(crate) fn item(&self, one: u32, other: u32) -> Counted<'_> {
        Counted {
            one: self.first.key(one),
            other: self.second.key(other),
        }
    }

    /// A map that is made of a hundred items, of which none is announced. Growth hashes no key.
    pub(crate) fn hundred(&self, rt: &impl Abort, alloc: Global, way: Way) -> Held<Counted<'_>> {
        let mut items = Vec::new(alloc);
        for number in 0..100u32 {
            check(rt, items.push(self.item(number, number)).is_ok());
        }
        let made = Held::collected(alloc, way, items.as_slice(), 0);
        let all = made.ok().expect(rt, "a map");
        self.tell(rt, all.map.len() == 100, (0, 100, 0, 100));
        all
    }

    /// A map of the items (1, 2), (2, 4) and (3, 6).
    pub(crate) fn three(&self, rt: &impl Abort, alloc: Global) -> Held<Counted<'_>> {
        let mut all = Held::new(alloc);
        for number in 1..4u32 {
            check(rt, all.is_put(self.item(number, number.wrapping_mul(2))));
        }
        self.tell(rt, true, (0, 3, 0, 3));
        all
    }

    /// Makes each call, and looks whether it does so and keys count so.
    pub(crate) fn tell_each<'a, S: BuildHasher>(
        &'a self,
        rt: &impl Abort,
        all: &mut Held<Counted<'a>, S>,
        rows: &[Row],
    ) {
        for row in rows {
            let (act, (one, other), is_done, counts) = *row;
            let item = self.item(one, other);
            let does = match act {
                Act::Get(by) => all.get(by, &item.one, &item.other).is_some(),
                Act::Contains(by) => all.contains(by, &item.one, &item.other),
                Act::Lend(by) => all.load(by, &item.one, &item.other, 0),
                Act::Remove(by) => all.remove(by, &item.one, &item.other).is_some(),
                Act::Put => all.is_put(item),
                Act::Overwrite => all.map.insert_overwrite(item).is_ok(),
            };
            self.tell(rt, does == is_done, counts);
        }
    }

    /// A call did what it should, and since this was asked last keys counted so.
    pub(crate) fn tell(&self, rt: &impl Abort, is_done: bool, wanted: Counts) {
        check(rt, is_done);
        let (first, second) = (self.first.since(), self.second.since());
        check(rt, (first.1, first.0, second.1, second.0) == wanted);
    }
}

/// How many items a map has that is made of these, of which none is announced. It is `None` if no map is made.
pub(crate) fn length_collected(alloc: Global, way: Way, items: &[Counted<'_>]) -> Option<usize> {
    let made = Held::collected(alloc, way, items, 0).ok();
    made.map(|all| all.map.len())
}

fn tell_each(rt: &impl Abort, alloc: Global, rows: &[Row]) {
    let tallies = Tallies::default();
    let mut all = tallies.three(rt, alloc);
    tallies.tell_each(rt, &mut all, rows);
}

#[test]
fn lookups(rt: HostRuntime) {
    let rows = [
        (Act::Get(By::First), (2, 4), true, (1, 1, 0, 0)),
        (Act::Contains(By::First), (2, 4), true, (1, 1, 0, 0)),
        (Act::Get(By::Second), (2, 4), true, (0, 0, 1, 1)),
        (Act::Contains(By::Second), (2, 4), true, (0, 0, 1, 1)),
        (Act::Get(By::Both), (2, 4), true, (1, 1, 1, 0)),
        (Act::Contains(By::Both), (2, 4), true, (1, 1, 1, 0)),
        (Act::Get(By::Both), (9, 4), false, (0, 1, 0, 0)),
    ];
    tell_each(&rt, rt.alloc(), &rows);
}

#[test]
fn guards(rt: HostRuntime) {
    let rows = [
        (Act::Lend(By::First), (2, 4), true, (1, 1, 0, 0)),
        (Act::Lend(By::Second), (2, 4), true, (0, 0, 1, 1)),
        (Act::Lend(By::Both), (2, 4), true, (1, 1, 1, 0)),
    ];
    tell_each(&rt, rt.alloc(), &rows);
}

// The key of the other kind is hashed once, since the other index lists the item by it.
#[test]
fn removals(rt: HostRuntime) {
    let rows = [
        (Act::Remove(By::First), (1, 4), true, (1, 1, 0, 1)),
        (Act::Remove(By::First), (1, 4), false, (0, 1, 0, 0)),
        (Act::Remove(By::Second), (1, 4), true, (0, 1, 1, 1)),
        (Act::Remove(By::Both), (3, 4), false, (1, 1, 1, 0)),
        (Act::Remove(By::Both), (3, 6), true, (1, 1, 1, 1)),
    ];
    tell_each(&rt, rt.alloc(), &rows);
}

// Each key of the new item is hashed once, and the other key of each item that goes.
#[test]
fn insertions(rt: HostRuntime) {
    let rows = [
        (Act::Put, (1, 4), false, (1, 1, 1, 1)),
        (Act::Overwrite, (4, 8), true, (0, 1, 0, 1)),
        (Act::Overwrite, (4, 8), true, (1, 1, 0, 2)),
        (Act::Overwrite, (9, 8), true, (0, 2, 1, 1)),
        (Act::Overwrite, (1, 4), true, (1, 2, 1, 2)),
    ];
    tell_each(&rt, rt.alloc(), &rows);
}

// With every hash equal, a search for a key that is absent compares each item's key once, and no key of the other kind.
#[test]
fn equal_hashes(rt: HostRuntime) {
    let tallies = Tallies::default();
    let hasher: BuildHasherDefault<ZeroHasher> = BuildHasherDefault::new();
    let rows = [
        (Act::Put, (0, 0), true, (0, 1, 0, 1)),
        (Act::Put, (1, 1), true, (1, 1, 1, 1)),
        (Act::Put, (2, 2), true, (2, 1, 2, 1)),
        (Act::Contains(By::First), (9, 9), false, (3, 1, 0, 0)),
        (Act::Contains(By::Second), (9, 9), false, (0, 0, 3, 1)),
        (Act::Put, (5, 10), true, (3, 1, 3, 1)),
    ];
    let mut all = Held::over(BiHashMap::with_hasher(rt.alloc(), hasher));
    tallies.tell_each(&rt, &mut all, &rows);
}

// What looks at all items hashes those that it removes.
#[test]
fn many(rt: HostRuntime) {
    let tallies = Tallies::default();
    let mut all = tallies.hundred(&rt, rt.alloc(), Way::Unique);
    check(&rt, all.map.reserve(1000).is_ok());
    tallies.tell(&rt, all.map.iter().count() == 100, (0, 0, 0, 0));
    all.map.retain(|item| item.one.number >= 10);
    tallies.tell(&rt, all.map.len() == 90, (0, 10, 0, 10));
    all.map.clear();
    tallies.tell(&rt, all.map.len() == 0, (0, 0, 0, 0));
}

// At the repeat, the third, both earlier items go.
#[test]
fn collected(rt: HostRuntime) {
    let tallies = Tallies::default();
    let items = [tallies.item(1, 2), tallies.item(2, 4), tallies.item(1, 4)];
    for (count, length, counts) in [(2, Some(2), (0, 2, 0, 2)), (3, None, (1, 4, 1, 4))] {
        let made = length_collected(rt.alloc(), Way::Unique, &items[..count]);
        tallies.tell(&rt, made == length, counts);
    }
}
