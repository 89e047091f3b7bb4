//! Each item that a map of two keys drops is dropped once.
use crate::held::*;
use iddqd_bi_hash::Visit;
use std::alloc::AllocError;
use std::cell::Cell;

// Two keys, and the cell that counts each drop of such an item.
struct Ticket<'a> {
    keys: (u32, u32),
    dropped: &'a Cell<u32>,
}

impl Drop for Ticket<'_> {
    fn drop(self) {
        let Ticket { keys: _, dropped } = self;
        dropped.set(dropped.get().saturating_add(1));
    }
}

impl<'a> Clone for Ticket<'a> {
    ghost use Rattle.std.specs.Prelude.{◌≡◌};

    ghost is_clone = { λ ticket clone. clone ≡ ticket };

    fn clone(&self) -> Result<Ticket<'a>, AllocError> {
        Ok(Ticket {
            keys: self.keys,
            dropped: self.dropped,
        })
    }
}

impl BiHashItem for Ticket<'_> {
    type K1 = u32;

    type K2 = u32;

    ghost key1 = { λ ticket. ticket.keys.0 };

    ghost key2 = { λ ticket. ticket.keys.1 };

    fn key1(&self) -> &u32 {
        &self.keys.0
    }

    fn key2(&self) -> &u32 {
        &self.keys.1
    }
}

// Keeps the items of even first keys.
#[derive(Clone, Copy)]
struct KeepsEven;

impl<'a> Visit<Ticket<'a>> for KeepsEven {
    ghost use Rattle.std.specs.Prelude.{◌%◌, nat_eq};

    ghost visits = { λ visitor item. (visitor, item, nat_eq (item.keys.0 % 2) 0) };

    fn visit(&mut self, item: &mut Ticket<'a>) -> bool {
        item.keys.0 % 2 == 0
    }
}

// The items of equal keys below this number.
fn below<'a>(rt: &impl Abort, alloc: Global, end: u32, dropped: &'a Cell<u32>) -> Held<Ticket<'a>> {
    let mut all = Held::new(alloc);
    for number in 0..end {
        let keys = (number, number);
        check(rt, all.is_put(Ticket { keys, dropped }));
    }
    check(rt, dropped.get() == 0);
    all
}

// Of nine such items those of even keys.
fn even<'a>(rt: &impl Abort, alloc: Global, dropped: &'a Cell<u32>) -> Held<Ticket<'a>> {
    let mut all = below(rt, alloc, 9, dropped);
    all.map.retain_mut(&mut KeepsEven);
    all
}

type Keys = [(u32, u32); 3];

fn tickets(all_keys: Keys, dropped: &Cell<u32>) -> [Ticket<'_>; 3] {
    all_keys.map(|keys| Ticket { keys, dropped })
}

// The second and the third item have a key of the first.
const REPEATED: Keys = [(7, 7), (7, 8), (9, 7)];

type Wanted = (u32, usize, u32);

// So many items were dropped, the map has so many, and so many were dropped once it is.
fn drop_all(rt: &impl Abort, all: Held<Ticket<'_>>, dropped: &Cell<u32>, wanted: Wanted) {
    let (before, length, after) = wanted;
    check(rt, dropped.get() == before && all.map.len() == length);
    drop(all);
    check(rt, dropped.get() == after);
}

#[test]
fn retained_by_a_visitor(rt: HostRuntime) {
    let dropped = Cell::new(0);
    drop_all(&rt, even(&rt, rt.alloc(), &dropped), &dropped, (4, 5, 9));
}

// Inserts items of these keys into a map of three.
fn extend(rt: &impl Abort, alloc: Global, way: Way, all_keys: Keys, wanted: Wanted) {
    let dropped = Cell::new(0);
    let mut all = below(rt, alloc, 3, &dropped);
    let items = tickets(all_keys, &dropped);
    let is_repeated = matches!(way, Way::Unique).then_some(true);
    check(rt, all.meets_repeat(way, items) == is_repeated);
    drop_all(rt, all, &dropped, wanted);
}

// One item displaces two, one displaces one, and one displaces none.
#[test]
fn displaced_by_extend(rt: HostRuntime) {
    let all_keys = [(0, 1), (5, 5), (2, 7)];
    extend(&rt, rt.alloc(), Way::Overwrite, all_keys, (3, 3, 6));
}

// The first is displaced by the second, and the other two are dropped with the map.
#[test]
fn displaced_by_from_iter(rt: HostRuntime) {
    let dropped = Cell::new(0);
    let items = tickets(REPEATED, &dropped);
    let map = BiHashMap::from_iter(rt.alloc(), items).expect(&rt, "memory");
    drop_all(&rt, Held::over(map), &dropped, (1, 2, 3));
}

// The repeat is dropped with the error, and the item behind it with the iterator.
#[test]
fn refused_by_extend_unique(rt: HostRuntime) {
    extend(&rt, rt.alloc(), Way::Unique, REPEATED, (2, 4, 6));
}

// What is cleared of a clone is its own.
#[test]
fn cleared_clone(rt: HostRuntime) {
    let dropped = Cell::new(0);
    let all = below(&rt, rt.alloc(), 5, &dropped);
    let mut copy = Held::over(all.map.clone().expect(&rt, "memory"));
    check(&rt, copy.map.len() == 5 && dropped.get() == 0);
    copy.map.clear();
    drop_all(&rt, copy, &dropped, (5, 0, 5));
    drop_all(&rt, all, &dropped, (5, 5, 10));
}

#[test]
fn moved_by_a_shrink(rt: HostRuntime) {
    let dropped = Cell::new(0);
    let mut all = even(&rt, rt.alloc(), &dropped);
    check(&rt, all.shrink(None).is_ok());
    drop_all(&rt, all, &dropped, (4, 5, 9));
}
