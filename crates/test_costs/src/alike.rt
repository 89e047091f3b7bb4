//! Equality and copies of maps: what they cost, and how often items are compared.
ghost use Rattle.iddqd.specs.Contents.{ClonesKeepKeys};

use crate::prelude::*;

fn equal_in_order<T>((one, other): (Ordered<T>, Ordered<T>), meter: Meter<'_>)
where
    T: IdOrdItem + Drop + PartialEq,
{
    meter.tell(one.map() == other.map(), (0, 0));
    meter.hold(meter.counts.items_compared() == 20);
}

// Each of the twenty items is compared once.
#[test]
fn equality_compares_no_keys(rt: HostRuntime) -> Result<(), Fail> {
    let tally = Tally::default();
    let meter = tally.of_order();
    let items = meter.counts.items(rt.alloc(), 0, 20)?;
    let one = meter.ordered(rt.alloc(), items.as_slice());
    let other = meter.ordered(rt.alloc(), items.as_slice());
    equal_in_order((one, other), meter);
    tally.end()
}

fn equal_by_hash<T, S>((one, other): (Hashed<T, S>, Hashed<T, S>), meter: Meter<'_>)
where
    T: IdHashItem + Copy + Drop + PartialEq,
    S: BuildHasher + Drop,
{
    for item in one.map().iter() {
        let _ = other.get_counted(item.key());
    }
    let each = meter.counts.since();
    meter.hold(each.0 == 20);
    meter.tell(one.map().eq(other.map()), each);
    meter.hold(meter.counts.items_compared() == 20);
}

// Each item of one map is looked up in the other, once, and compared with what is found.
#[test]
fn hash_equality_looks_each_item_up(rt: HostRuntime) -> Result<(), Fail> {
    let tally = Tally::default();
    let meter = tally.of_hashes();
    let items = meter.counts.items(rt.alloc(), 0, 20)?;
    let one: Hashed<_, Zero> = meter.hashed(rt.alloc(), items.as_slice());
    let other = meter.hashed(rt.alloc(), items.as_slice());
    equal_by_hash((one, other), meter);
    tally.end()
}

fn copied_in_order<T: IdOrdItem + Copy + Drop>(map: Ordered<T>, meter: Meter<'_>)
    requires keeps_keys { ClonesKeepKeys T.key T.Key.eq T.is_clone }
{
    let is_copied = match map.map().clone() {
        Ok(copy) => copy.len() == 50,
        Err(_) => false,
    };
    meter.tell(is_copied, (0, 0));
}

fn copied_by_hash<T: IdHashItem + Copy + Drop>(map: Hashed<T>, meter: Meter<'_>)
    requires keeps_keys { ClonesKeepKeys T.key T.Key.eq T.is_clone }
{
    let is_copied = match map.map().clone() {
        Ok(copy) => copy.len() == 50,
        Err(_) => false,
    };
    meter.tell(is_copied, (0, 0));
}

#[test]
fn copies_cost_none(rt: HostRuntime) -> Result<(), Fail> {
    let tally = Tally::default();
    let meter = tally.of_order();
    let items = meter.counts.items(rt.alloc(), 0, 50)?;
    copied_in_order(meter.ordered(rt.alloc(), items.as_slice()), meter);
    copied_by_hash(meter.hashed(rt.alloc(), items.as_slice()), meter);
    tally.end()
}
