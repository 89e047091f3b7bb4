//! Calls of many items cost as many insertions or removals, and walks, room and copies no comparison.
use crate::metered::{Given, Row, run};
use crate::prelude::*;

// What the insertions of the items cost, one by one. `extend`, which replaces each then, hashes as often.
fn overwrites<'a>(mut map: Metered<'a>, items: &[Tallied<'a>], meter: Meter<'a>) -> Cost {
    for item in items {
        let _ = map.overwrite(*item);
    }
    let each = meter.counts.since();
    meter.hold(each.0 == meter.hashings.saturating_mul(50));
    let are_replaced = map.extend(Hinted::new(items, 0)).is_ok();
    meter.hold(are_replaced && meter.counts.since().0 == each.0);
    each
}

// Both calls that add the items to a map without any.
fn extends(given: Given<'_, '_>, each: Cost) {
    let (mut one, mut other) = (given.of(&[]), given.of(&[]));
    let is_extended = one.extend(Hinted::new(given.items, 0)).is_ok();
    given.meter.tell(is_extended, each);
    let added = other.add_each(Hinted::new(given.items, 0));
    given.meter.tell(matches!(added, Added::All), each);
}

pub(crate) fn takes_many(given: Given<'_, '_>, kind: Kind) {
    let (alloc, items, meter) = (given.alloc, given.items, given.meter);
    let each = overwrites(given.of(&[]), items, meter);
    extends(given, each);
    let made = Metered::collected_by(kind, alloc, Hinted::new(items, 0));
    meter.tell(made.is_ok(), each);
    let made = Metered::collected_unique_by(kind, alloc, Hinted::new(items, 0));
    meter.tell(made.is_ok(), each);
}

// Those that take new items, and `extend` where each replaces one.
#[test]
fn many_items_cost_as_insertions(rt: HostRuntime) -> Result<(), Fail> {
    run(rt.alloc(), Row::TakesMany, Kind::Ordered)?;
    run(rt.alloc(), Row::TakesMany, Kind::Hashed)
}

pub(crate) fn walks<'a>(mut map: Metered<'a>, meter: Meter<'a>) {
    meter.tell(map.walk() == 50, (0, 0));
    map.visit_all(true);
    let has_room = map.reserve(100).is_ok() && map.try_reserve(1000).is_ok();
    meter.tell(has_room && map.len() == 50, (0, 0));
    meter.tell(map.written(20, |_| {}) == 30, (0, 0));
}

#[test]
fn walks_and_room_cost_none(rt: HostRuntime) -> Result<(), Fail> {
    run(rt.alloc(), Row::Walks, Kind::Ordered)?;
    run(rt.alloc(), Row::Walks, Kind::Hashed)
}

// Seven items leave the first slots, and the last seven of the others move there. Then one leaves, and one moves.
pub(crate) fn leave_and_move<'a>(mut map: Metered<'a>, meter: Meter<'a>) {
    map.retain(|item| item.key.number >= 14);
    meter.tell(map.len() == 43, (meter.hashings.saturating_mul(7), 0));
    let is_shrunk = map.shrink_to(60).is_ok();
    meter.hold(is_shrunk && meter.counts.since().0 == meter.hashings.saturating_mul(7));
    meter.hold(map.remove(&meter.counts.key(60)).is_some());
    let once = meter.once(&map, &meter.counts.key(84));
    let moved = if meter.hashings == 0 { once } else { (1, 0) };
    meter.tell(map.shrink_to_fit().is_ok(), moved);
    map.visit_all(false);
    meter.tell(map.len() == 0, (meter.hashings.saturating_mul(42), 0));
}

// A removal hashes each key that goes, and a visit too. An ordered map searches for an item that moves, and a hash map hashes
// its key.
#[test]
fn what_goes_or_moves_costs_once(rt: HostRuntime) -> Result<(), Fail> {
    run(rt.alloc(), Row::LeaveAndMove, Kind::Ordered)?;
    run(rt.alloc(), Row::LeaveAndMove, Kind::Hashed)
}
