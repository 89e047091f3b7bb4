//! The item store.
use crate::ord_index::check;
use iddqd_store::{ItemStore, MAX_ITEMS, TryReserveError};
use std::mem;
use std::process::Abort;
use std::test::Fail;

// Whether the item goes into this slot, once room for one is reserved, as a map inserts it.
fn goes_into(store: &mut ItemStore<u32>, item: u32, slot: u32) -> bool {
    store.try_reserve(1).is_ok() && store.insert_reserved(item) == slot
}

// Removes the item of the slot, if it has one.
fn taken(store: &mut ItemStore<u32>, slot: u32) -> Option<u32> {
    store.get(slot)?;
    Some(store.remove(slot))
}

// Whether the limit refuses room for this many.
fn is_past_limit(store: &mut ItemStore<u32>, count: usize) -> bool {
    store.try_reserve(count) == Err(TryReserveError::capacity_overflow())
}

// The first slot of the list from this one on that has an item, with the item.
fn next_in(list: &[Option<u32>], from: u32) -> Option<(usize, u32)> {
    let mut slots = list.iter().enumerate().skip(from as usize);
    slots.find_map(|(slot, item)| item.map(|item| (slot, item)))
}

fn next_of(store: &ItemStore<u32>, from: u32) -> Option<(usize, u32)> {
    let (slot, item) = store.next_occupied(from)?;
    (store.occupied_from(from) == slot).then_some((slot as usize, *item))
}

// Compares the store's numbers, its walk, each of its slots and one past the end with a list.
fn assert_holds(rt: &impl Abort, store: &ItemStore<u32>, list: &[Option<u32>]) {
    let items = list.iter().filter(|slot| slot.is_some()).count();
    check(rt, store.slots() as usize == list.len());
    check(rt, store.len() == items);
    let slots = (store.vacant() as usize).wrapping_add(items);
    check(rt, slots == list.len());
    for slot in 0..store.slots() {
        let item = store.get(slot).copied();
        check(rt, list.get(slot as usize) == Some(&item));
        check(rt, next_of(store, slot) == next_in(list, slot));
    }
    check(rt, store.get(store.slots()).copied() == None);
    check(rt, next_of(store, store.slots()) == None);
    let listed = list.iter().filter_map(|item| *item);
    check(rt, store.items().copied().eq(listed));
}

#[test]
fn store_against_list(rt: HostRuntime) {
    let mut store = ItemStore::new(rt.alloc(), 5);
    assert_holds(&rt, &store, &[]);
    for slot in 0..4u32 {
        check(&rt, goes_into(&mut store, slot.wrapping_add(10), slot));
    }
    assert_holds(&rt, &store, &[Some(10), Some(11), Some(12), Some(13)]);
    // the slot of an item that is removed is used again
    check(&rt, taken(&mut store, 1) == Some(11));
    assert_holds(&rt, &store, &[Some(10), None, Some(12), Some(13)]);
    check(&rt, goes_into(&mut store, 14, 1));
    assert_holds(&rt, &store, &[Some(10), Some(14), Some(12), Some(13)]);
    check(&rt, store.get(2).is_some() && store.replace(2, 15) == 12);
    check(&rt, store.get(3).is_some());
    check(&rt, mem::replace(store.get_mut(3), 16) == 13);
    assert_holds(&rt, &store, &[Some(10), Some(14), Some(15), Some(16)]);
    // the last slot is vacant too: it is cut off, and the item before it moves
    check(&rt, taken(&mut store, 3) == Some(16));
    check(&rt, taken(&mut store, 0) == Some(10));
    assert_holds(&rt, &store, &[None, Some(14), Some(15), None]);
    check(&rt, store.last_into_hole() == Some((2, 0)));
    assert_holds(&rt, &store, &[Some(15), Some(14)]);
    check(&rt, store.last_into_hole() == None);
    check(&rt, store.vacant() == 0);
    check(&rt, store.shrink_to(0).is_ok());
    assert_holds(&rt, &store, &[Some(15), Some(14)]);
    check(&rt, goes_into(&mut store, 17, 2));
    assert_holds(&rt, &store, &[Some(15), Some(14), Some(17)]);
}

// Of a limit of two none and two can be reserved, and no more than what is left.
#[test]
fn reserves_up_to_the_limit(rt: HostRuntime) {
    let mut store = ItemStore::new(rt.alloc(), 2);
    check(&rt, (store.limit(), store.capacity()) == (2, 0));
    check(&rt, is_past_limit(&mut store, 3));
    check(&rt, is_past_limit(&mut store, usize::MAX));
    check(&rt, store.try_reserve(2).is_ok() && store.capacity() >= 2);
    check(&rt, goes_into(&mut store, 10, 0));
    check(&rt, is_past_limit(&mut store, 2));
    check(&rt, goes_into(&mut store, 11, 1));
    check(&rt, store.try_reserve(0).is_ok());
    check(&rt, is_past_limit(&mut store, 1));
    assert_holds(&rt, &store, &[Some(10), Some(11)]);
}

#[test]
fn clones_and_clears(rt: HostRuntime) -> Result<(), Fail> {
    let mut store = ItemStore::new(rt.alloc(), 7);
    check(&rt, goes_into(&mut store, 10, 0));
    check(&rt, goes_into(&mut store, 11, 1));
    check(&rt, taken(&mut store, 0) == Some(10));
    let mut copy = store.try_clone()?;
    check(&rt, copy.limit() == 7);
    assert_holds(&rt, &copy, &[None, Some(11)]);
    check(&rt, goes_into(&mut copy, 12, 0));
    assert_holds(&rt, &copy, &[Some(12), Some(11)]);
    let capacity = store.capacity();
    store.clear();
    assert_holds(&rt, &store, &[]);
    check(&rt, store.capacity() == capacity);
    Ok(())
}

// So large that `MAX_ITEMS` of them are more than memory has addresses for.
type Huge = [[u64; 256]; 512];

#[test]
fn store_growth_refused(rt: HostRuntime) {
    let mut store: ItemStore<Huge> = ItemStore::new(rt.alloc(), MAX_ITEMS);
    let refused = Err(TryReserveError::alloc_error());
    check(&rt, store.try_reserve(MAX_ITEMS as usize) == refused);
    check(&rt, store.len() == 0);
    check(&rt, (store.slots(), store.capacity()) == (0, 0));
}

// Whether the next slot is this one, and the item goes into it.
fn goes_into_next(store: &mut ItemStore<u32>, item: u32, slot: u32) -> bool {
    let Some(next) = store.next_slot() else {
        return false;
    };
    store.insert_into(next, item);
    next == slot
}

#[test]
fn next_slots(rt: HostRuntime) {
    let mut store = ItemStore::new(rt.alloc(), 3);
    check(&rt, store.next_slot() == None);
    check(&rt, store.try_reserve(3).is_ok());
    for slot in 0..3u32 {
        check(&rt, goes_into_next(&mut store, slot.wrapping_add(10), slot));
    }
    check(&rt, store.next_slot() == None);
    check(&rt, taken(&mut store, 0) == Some(10));
    check(&rt, taken(&mut store, 1) == Some(11));
    check(&rt, goes_into_next(&mut store, 13, 1));
    assert_holds(&rt, &store, &[None, Some(13), Some(12)]);
    check(&rt, goes_into_next(&mut store, 14, 0));
    assert_holds(&rt, &store, &[Some(14), Some(13), Some(12)]);
    check(&rt, store.next_slot() == None);
}
