//! What changes the store and the index together. Nothing here looks at a key.
ghost use Rattle.std.specs.Prelude.{◌≡◌, ◌+◌, ◌-◌, ◌<◌, ◌≤◌, length, insert, remove, IsTrue, IfErr, OnErr, OnOk, Err, Some, slice_get};
ghost use Rattle.iddqd_store.specs.Refusal.{IsKindOf, memory_refused, refusal_kind};
ghost use Rattle.iddqd_store.specs.Store.{vacant, HasRoomFor};
ghost use Rattle.iddqd_ord.specs.StoreAndIndex.{KeepsBounds, KeepsSlots, ListsOccupied, LosesBetween, NeedsMemory, items_in};

use iddqd_ord_index::{OrdIndex, Place};
use iddqd_store::{ItemStore, TryReserveError};

// Makes room for one more item in both. It asks the limit first, then for memory.
#[inline]
pub(super) fn reserve_one<T>(
    store: &mut ItemStore<T>,
    index: &mut OrdIndex,
) -> Result<(), TryReserveError>
    requires paired { ListsOccupied store.old index.old.slots }

    // on success
    ensures below_limit { OnOk result (length index.old.slots < store.old.limit) }
    ensures room { OnOk result (HasRoomFor store.new 1) }
    ensures prepared { OnOk result (IsTrue index.new.prepared) }

    // on refusal
    ensures kind { IfErr result (λ e. e ≡ refusal_kind store.old.limit index.old.slots) }

    // either way
    ensures store { store.new ≡ record store.old { capacity = store.new.capacity } }
    ensures capacity { store.old.capacity ≤ store.new.capacity }
    ensures slots { index.new.slots ≡ index.old.slots }
{
    if store.len() == store.limit() as usize {
        return Err(TryReserveError::capacity_overflow());
    }
    store.try_reserve(1)?;
    index.prepare()
}

// Makes room for `additional` more items in the store. It asks the limit first, then for memory.
pub(super) fn reserve_slots<T>(
    store: &mut ItemStore<T>,
    index: &OrdIndex,
    additional: usize,
) -> Result<(), TryReserveError>
    requires paired { ListsOccupied store.old index.now.slots }

    // on success
    ensures room { OnOk result (length index.now.slots + additional ≤ store.new.capacity) }
    ensures in_limit { OnOk result (length index.now.slots + additional ≤ store.old.limit) }

    // on refusal
    ensures kind { IfErr result (IsKindOf store.old.limit (length index.now.slots + additional)) }
    ensures needed { NeedsMemory store.old.capacity (length index.now.slots + additional) result }
    ensures asked { OnErr result (0 < additional) }

    // either way
    ensures store { store.new ≡ record store.old { capacity = store.new.capacity } }
    ensures capacity { store.old.capacity ≤ store.new.capacity }
{
    prove!(store.len() <= store.capacity());
    store.try_reserve(additional)
}

// Inserts the item into a slot, which is returned, and the slot into the index at the place. Does not allocate.
#[inline]
pub(super) fn insert_in_both<T>(
    store: &mut ItemStore<T>,
    index: &mut OrdIndex,
    place: Place,
    item: T,
) -> u32
    requires paired { ListsOccupied store.old index.old.slots }
    requires room { HasRoomFor store.old 1 }
    requires prepared { IsTrue index.old.prepared }
    requires in_list { place ≤ length index.old.slots }

    // both have one more
    ensures paired { ListsOccupied store.new index.new.slots }
    ensures put { items_in store.new index.new ≡ insert (items_in store.old index.old) place item }
    ensures slots { index.new.slots ≡ insert index.old.slots place result }
    ensures vacant { vacant store.new ≡ vacant store.old - 1 }

    // what stays
    ensures bounds { KeepsBounds store.old store.new }
{
    let slot = store.insert_reserved(item);
    index.add_prepared(place, slot);
    slot
}

// Removes the slot at the place from the index, and its item from the store.
#[inline]
pub(super) fn remove_from_both<T>(store: &mut ItemStore<T>, index: &mut OrdIndex, place: Place) -> T
    requires paired { ListsOccupied store.old index.old.slots }
    requires in_list { place < length index.old.slots }
    ensures item { slice_get (items_in store.old index.old) place ≡ Some result }

    // what is left
    ensures paired { ListsOccupied store.new index.new.slots }
    ensures items { items_in store.new index.new ≡ remove (items_in store.old index.old) place }
    ensures slots { index.new.slots ≡ remove index.old.slots place }
    ensures vacant { vacant store.new ≡ vacant store.old + 1 }
    ensures bounds { KeepsBounds store.old store.new }
{
    let slot = index.remove(place);
    store.remove(slot)
}

// Removes the slots from one place on up to another from the index, and drops their items.
pub(super) fn remove_part_from_both<T: Drop>(
    store: &mut ItemStore<T>,
    index: &mut OrdIndex,
    from: Place,
    to: Place,
)
    requires paired { ListsOccupied store.old index.old.slots }
    requires forward { from ≤ to }
    requires in_list { to ≤ length index.old.slots }

    // what is left
    ensures paired { ListsOccupied store.new index.new.slots }
    ensures items { LosesBetween from to (items_in store.old index.old) (items_in store.new index.new) }
    ensures vacant { KeepsSlots store.old store.new }
    ensures bounds { KeepsBounds store.old store.new }
{
    let mut walk = index.walk_between(from, to);
    'drop: while let Some(slot) = walk.next() {
        store.remove(slot);
    }
    index.remove_between(from, to);
}
