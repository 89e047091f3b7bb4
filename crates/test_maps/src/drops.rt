//! Each item that a map drops is dropped once.
use crate::prelude::*;
use iddqd::{id_hash_map, id_ord_map};
use test_support::bulk::Announced;

/// A number, and the cell that counts each drop of such an item.
pub(crate) struct Ticket<'a> {
    number: u32,
    dropped: &'a Cell<u32>,
}

impl Drop for Ticket<'_> {
    fn drop(self) {
        let Ticket { number: _, dropped } = self;
        dropped.set(dropped.get().saturating_add(1));
    }
}

impl IdOrdItem for Ticket<'_> {
    type Key = u32;

    ghost key = { λ ticket. ticket.number };

    fn key(&self) -> &u32 {
        &self.number
    }
}

impl IdHashItem for Ticket<'_> {
    type Key = u32;

    ghost key = { λ ticket. ticket.number };

    fn key(&self) -> &u32 {
        &self.number
    }
}

/// The items of these numbers.
pub(crate) fn tickets<'a>(
    rt: &impl Host,
    numbers: &[u32],
    dropped: &'a Cell<u32>,
) -> Vec<Ticket<'a>> {
    let mut items = Vec::new(rt.alloc());
    for number in numbers.iter().copied() {
        check(rt, items.push(Ticket { number, dropped }).is_ok());
    }
    items
}

// Whether items of the numbers below another are inserted, and none is dropped.
fn go_in<'a>(map: &mut Either<Ticket<'a>>, end: u32, dropped: &'a Cell<u32>) -> bool {
    (0..end).all(|number| map.is_put(Ticket { number, dropped })) && dropped.get() == 0
}

// A call on a map, of the item of a number or of all.
#[derive(Clone, Copy)]
enum Call {
    Clear,
    RetainThirds,
    Remove(u32),
    Refuse(u32),
    Overwrite(u32),
}

// Whether the call does what it should.
fn is_done<'a>(map: &mut Either<Ticket<'a>>, call: Call, dropped: &'a Cell<u32>) -> bool {
    match call {
        Call::Clear => map.clear(),
        Call::RetainThirds => map.retain(|item| item.number % 3 == 0),
        Call::Remove(number) => return map.remove(&number).is_some(),
        Call::Refuse(number) => return !map.is_put(Ticket { number, dropped }),
        Call::Overwrite(number) => return map.overwrite(Ticket { number, dropped }).is_ok(),
    }
    true
}

// After each call on a map of this many items, so many have been dropped, and so many are there.
type Calls<'a> = &'a [(Call, u32, usize)];

fn drops<'a>(
    rt: &impl Abort,
    mut map: Either<Ticket<'a>>,
    many: u32,
    calls: Calls<'_>,
    dropped: &'a Cell<u32>,
) {
    check(rt, go_in(&mut map, many, dropped));
    for (call, count, len) in calls {
        check(rt, is_done(&mut map, *call, dropped));
        check(rt, dropped.get() == *count && map.len() == *len);
    }
}

// So many items have been dropped with the map.
fn both_drop(rt: &impl Host, many: u32, calls: Calls<'_>, count: u32) {
    let (ordered, hashed) = (Cell::new(0), Cell::new(0));
    drops(rt, in_order(rt.alloc()), many, calls, &ordered);
    drops(rt, by_hash(rt.alloc()), many, calls, &hashed);
    check(rt, ordered.get() == count && hashed.get() == count);
}

#[test]
fn cleared(rt: HostRuntime) {
    both_drop(&rt, 5, &[(Call::Clear, 5, 0)], 5);
}

#[test]
fn removed_refused_and_dropped_with_the_map(rt: HostRuntime) {
    let calls = [(Call::Remove(7), 1, 29), (Call::Refuse(8), 2, 29)];
    both_drop(&rt, 30, &calls, 31);
}

#[test]
fn retained(rt: HostRuntime) {
    both_drop(&rt, 9, &[(Call::RetainThirds, 6, 3)], 9);
}

#[test]
fn overwritten(rt: HostRuntime) {
    let calls = [(Call::Overwrite(1), 1, 3), (Call::Overwrite(3), 1, 4)];
    both_drop(&rt, 3, &calls, 5);
}

// Keeps the items of even numbers.
#[derive(Clone, Copy)]
struct KeepsEven;

impl<'a> Visit<Ticket<'a>> for KeepsEven {
    ghost use Rattle.std.specs.Prelude.{◌%◌, nat_eq};

    ghost visits = { λ visitor item. (visitor, item, nat_eq (item.number % 2) 0) };

    fn visit(&mut self, item: &mut Ticket<'a>) -> bool {
        item.number % 2 == 0
    }
}

// What a map ends by.
#[derive(Clone, Copy)]
enum End {
    KeepEven,
    Walk(usize),
    Replace(u32),
    FindOrPut(u32),
    Remove(u32),
}

// Whether the last call on a map of either kind does what it should. What it gives is dropped, and then the map.
macro_rules! ends {
    ($map:ident, $module:ident, $end:ident, $dropped:ident) => {{
        let mut map = $map.into_map();
        match $end {
            End::KeepEven => {
                map.retain_mut(&mut KeepsEven);
                $dropped.get() == 4 && map.len() == 5
            }
            End::Walk(most) => map.into_iter().take(most).count() == most,
            End::Replace(number) => match map.entry(&number) {
                $module::Entry::Occupied(mut entry) => {
                    let dropped = $dropped;
                    entry.insert(Ticket { number, dropped }).number == number
                }
                $module::Entry::Vacant(_) => false,
            },
            End::FindOrPut(number) => {
                let dropped = $dropped;
                match map.entry(&number).or_insert(Ticket { number, dropped }) {
                    Ok(lent) => {
                        lent.finish();
                        true
                    }
                    Err(_refused) => false,
                }
            }
            End::Remove(number) => match map.entry(&number) {
                $module::Entry::Occupied(entry) => entry.remove().number == number,
                $module::Entry::Vacant(_) => false,
            },
        }
    }};
}

// Whether a map of this many items does.
fn ends<'a>(mut map: Either<Ticket<'a>>, many: u32, end: End, dropped: &'a Cell<u32>) -> bool {
    let are_in = go_in(&mut map, many, dropped);
    let is_done = match map {
        Either::Ordered(map) => ends!(map, id_ord_map, end, dropped),
        Either::Hashed(map) => ends!(map, id_hash_map, end, dropped),
    };
    are_in && is_done
}

// So many items of this many have been dropped then.
fn both_end(rt: &impl Host, many: u32, end: End, count: u32) {
    let (ordered, hashed) = (&Cell::new(0), &Cell::new(0));
    check(rt, ends(in_order(rt.alloc()), many, end, ordered));
    check(rt, ends(by_hash(rt.alloc()), many, end, hashed));
    check(rt, ordered.get() == count && hashed.get() == count);
}

#[test]
fn retained_by_a_visitor(rt: HostRuntime) {
    both_end(&rt, 9, End::KeepEven, 9);
}

#[test]
fn replaced_by_an_entry(rt: HostRuntime) {
    both_end(&rt, 3, End::Replace(1), 4);
}

#[test]
fn found_or_put_by_an_entry(rt: HostRuntime) {
    both_end(&rt, 3, End::FindOrPut(2), 4);
    both_end(&rt, 3, End::FindOrPut(3), 4);
}

#[test]
fn removed_by_an_entry(rt: HostRuntime) {
    both_end(&rt, 3, End::Remove(0), 3);
}

#[test]
fn walked_in_part(rt: HostRuntime) {
    both_end(&rt, 30, End::Walk(10), 30);
}

// Three of the five that come are there.
fn extends<'a>(rt: &impl Host, mut map: Either<Ticket<'a>>, dropped: &'a Cell<u32>) {
    check(rt, go_in(&mut map, 6, dropped));
    let coming = tickets(rt, &[3, 4, 5, 6, 7], dropped);
    check(rt, map.extend(coming).is_ok());
    check(rt, dropped.get() == 3 && map.len() == 8);
    drop(map);
    check(rt, dropped.get() == 11);
}

#[test]
fn replaced_by_extend(rt: HostRuntime) {
    extends(&rt, in_order(rt.alloc()), &Cell::new(0));
    extends(&rt, by_hash(rt.alloc()), &Cell::new(0));
}

// An occupied entry drops the item that it does not take.
#[test]
fn shown_by_an_occupied_entry(rt: HostRuntime) {
    let dropped = &Cell::new(0);
    let mut map = IdOrdMap::new(rt.alloc());
    let _ = map.insert_overwrite(Ticket { number: 1, dropped });
    let again = Ticket { number: 1, dropped };
    check(&rt, map.entry(&1).or_insert_ref(again).is_ok());
    drop(map);
    check(&rt, dropped.get() == 2);
}

// No map is made of four items that are said to be more than a map ever holds: the kind, and how many are dropped.
fn overstated(rt: &impl Host, kind: Kind, dropped: &Cell<u32>) {
    let items = tickets(rt, &[0, 1, 2, 3], dropped);
    let made = Either::collected(kind, rt.alloc(), Announced::new(items, 4_294_967_296));
    check(rt, dropped.get() == 4);
    check(rt, made.is_err_and(|error| error.is_capacity_overflow()));
}

#[test]
fn from_iter_refused(rt: HostRuntime) {
    overstated(&rt, Kind::Ordered, &Cell::new(0));
    overstated(&rt, Kind::Hashed, &Cell::new(0));
}

// Of six items the fourth has the key of the second, from the last on: these two come back, and the others are dropped.
fn repeats(rt: &impl Host, kind: Kind, dropped: &Cell<u32>) {
    let items = tickets(rt, &[0, 1, 4, 3, 4, 5], dropped);
    let made = Either::collected_unique(kind, rt.alloc(), Announced::new(items, 0));
    check(rt, matches!(made, Err(FromIterError::Duplicate(_))));
    check(rt, dropped.get() == 4);
    drop(made);
    check(rt, dropped.get() == 6);
}

#[test]
fn from_iter_unique_refused(rt: HostRuntime) {
    repeats(&rt, Kind::Ordered, &Cell::new(0));
    repeats(&rt, Kind::Hashed, &Cell::new(0));
}
