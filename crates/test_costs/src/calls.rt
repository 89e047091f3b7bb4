//! Calls of one item compare as often as one search, which `get_counted` tells, and hash as it does.
use crate::metered::{Given, Row, run};
use crate::prelude::*;
use test_support::maps::ByEntry;

// A lookup of the key.
fn looks<'a>(map: &Metered<'a>, key: &CountingKey<'a>, is_there: bool, meter: Meter<'a>) {
    let once = meter.once(map, key);
    meter.tell(map.get(key).is_some() == is_there, once);
    meter.tell(map.contains(key) == is_there, once);
}

// A removal of the key, and of the key that is absent then.
fn goes<'a>(map: &mut Metered<'a>, key: &CountingKey<'a>, meter: Meter<'a>) {
    let once = meter.once(map, key);
    meter.tell(map.remove(key).is_some(), once);
    let once = meter.once(map, key);
    meter.tell(map.remove(key).is_none(), once);
}

// A duplicate, a replacement, removals, and both insertions of a key that is absent.
fn comes_and_goes<'a>(map: &mut Metered<'a>, item: Tallied<'a>, meter: Meter<'a>) {
    let once = meter.once(map, &item.key);
    meter.tell(!map.is_put(item), once);
    meter.tell(matches!(map.overwrite(item), Ok(Some(_))), once);
    goes(map, &item.key, meter);
    let once = meter.once(map, &item.key);
    meter.tell(map.is_put(item), once);
    goes(map, &item.key, meter);
    let once = meter.once(map, &item.key);
    meter.tell(matches!(map.overwrite(item), Ok(None)), once);
}

pub(crate) fn each_call(given: Given<'_, '_>) {
    let mut map = given.map();
    for item in given.items {
        looks(&map, &item.key, true, given.meter);
        comes_and_goes(&mut map, *item, given.meter);
    }
    for item in given.absent {
        looks(&map, &item.key, false, given.meter);
    }
}

#[test]
fn calls_search_once(rt: HostRuntime) -> Result<(), Fail> {
    run(rt.alloc(), Row::EachCall(300), Kind::Ordered)
}

#[test]
fn hash_calls_search_once(rt: HostRuntime) -> Result<(), Fail> {
    run(rt.alloc(), Row::EachCall(40), Kind::Hashed)
}

// What a search and an insertion behind it cost: the insertion hashes its key, or in an ordered map searches for it.
fn twice((hashings, comparisons): Cost) -> Cost {
    if hashings == 0 {
        (0, comparisons.saturating_mul(2))
    } else {
        (2, comparisons)
    }
}

// A guard of the item, and each call on its entry: a search costs `once`, and the calls that may insert `used`.
fn by_guard_and_entry<'a>(given: Given<'_, 'a>, item: Tallied<'a>, is_there: bool) {
    let (mut map, meter) = (given.map(), given.meter);
    let once = meter.once(&map, &item.key);
    let used = if is_there { once } else { twice(once) };
    meter.tell(map.spend(&item.key) == is_there, once);
    for (call, wanted, cost) in [
        (ByEntry::Nothing, is_there, once),
        (ByEntry::Insert, true, used),
        (ByEntry::ModifyOrInsert, true, used),
        (ByEntry::OrInsert, true, used),
        (ByEntry::OrInsertWith, true, used),
    ] {
        let map = given.map();
        meter.tell(map.enter(item, call) == wanted, cost);
    }
}

pub(crate) fn guards_and_entries(given: Given<'_, '_>) {
    for item in given.items {
        by_guard_and_entry(given, *item, true);
    }
    for item in given.absent {
        by_guard_and_entry(given, *item, false);
    }
}

#[test]
fn guards_and_entries_search_once(rt: HostRuntime) -> Result<(), Fail> {
    run(rt.alloc(), Row::GuardsAndEntries, Kind::Ordered)
}

#[test]
fn hash_guards_and_entries_search_once(rt: HostRuntime) -> Result<(), Fail> {
    run(rt.alloc(), Row::GuardsAndEntries, Kind::Hashed)
}
