//! Closing up the slots, so that none is vacant.
ghost use Rattle.std.specs.Prelude.{◌≡◌, ◌-◌, ◌<◌, length, Some, slice_get};
ghost use Rattle.iddqd_store.specs.Contents.{Ascends};
ghost use Rattle.iddqd_store.specs.Store.{EndsOccupied, IsOccupied, vacant};
ghost use Rattle.iddqd_ord.specs.StoreAndIndex.{KeepsBounds, ListsOccupied, items_in};

use iddqd_ord_index::{OrdIndex, Place};
use iddqd_store::{IdOrdItem, ItemStore, Steps};

// Moves the item of the last slot into a vacant one, until no slot is vacant. Does not allocate.
pub(super) fn compact<T: IdOrdItem>(store: &mut ItemStore<T>, index: &mut OrdIndex)
    requires paired { ListsOccupied store.old index.old.slots }
    requires keyed { Ascends T.key T.Key.cmp (items_in store.old index.old) }

    // no slot is vacant
    ensures vacant { vacant store.new ≡ 0 }

    // what stays
    ensures paired { ListsOccupied store.new index.new.slots }
    ensures items { items_in store.new index.new ≡ items_in store.old index.old }
    ensures bounds { KeepsBounds store.old store.new }
{
    store.cut_end();
    while store.vacant() > 0 {
        move_last(store, index);
    }
}

// Moves the item of the last slot into a vacant one, and lists that one in its place. Its place is found beforehand.
#[tactic(auto, using(crate::proofs::CompactLemmas::moved_paired, crate::proofs::CompactLemmas::moved_items))]
fn move_last<T: IdOrdItem>(store: &mut ItemStore<T>, index: &mut OrdIndex)
    requires paired { ListsOccupied store.old index.old.slots }
    requires keyed { Ascends T.key T.Key.cmp (items_in store.old index.old) }
    requires cut { EndsOccupied store.old.slots }
    requires some { 0 < vacant store.old }

    // one slot fewer is vacant
    ensures cut { EndsOccupied store.new.slots }
    ensures fewer { vacant store.new < vacant store.old }

    // what stays
    ensures paired { ListsOccupied store.new index.new.slots }
    ensures items { items_in store.new index.new ≡ items_in store.old index.old }
    ensures bounds { KeepsBounds store.old store.new }
{
    let place = place_of(store, index, store.slots() - 1);
    if let Some((_, hole)) = store.last_into_hole() {
        index.rename(place, hole);
    }
}

// Returns the place of the slot, by its item's key.
fn place_of<T: IdOrdItem>(store: &ItemStore<T>, index: &OrdIndex, slot: u32) -> Place
    requires paired { ListsOccupied store.now index.now.slots }
    requires keyed { Ascends T.key T.Key.cmp (items_in store.now index.now) }
    requires occupied { IsOccupied store.now slot }
    ensures { slice_get index.now.slots result ≡ Some slot }
{
    let item = store.item(slot);
    match index.find(store, item.key(), &mut Steps::new()) {
        Ok(place) => place,
        Err(_) => unreachable!(),
    }
}
