//! Calls that change the store and both indexes together. No key plays a part.
ghost use Rattle.std.specs.Prelude.{◌≡◌, ◌+◌, ◌-◌, ◌<◌, ◌≤◌, length, IfErr, OnOk, OnErr, Some, None, Contains};
ghost use Rattle.std.specs.Prelude.{min as least};
ghost use Rattle.iddqd_hash_index.specs.HashPairs.{HasOneMore, SamePairs};
ghost use Rattle.iddqd_store.specs.Refusal.{IsKindOf, memory_refused, refusal_kind};
ghost use Rattle.iddqd_store.specs.Store.{item_at, store_len, vacant, HasRoomFor, Updates};
ghost use Rattle.iddqd_hash_parts.specs.StoreAndIndex.{GrowsRoom, KeepsBounds};
ghost use Rattle.iddqd_bi_hash.specs.StoreAndIndexes.{ArePaired, room_in_both, spare_in_both};

use iddqd_hash_index::HashIndex;
use iddqd_hash_parts as parts;
use iddqd_store::{ItemStore, TryReserveError};

// Makes room for one more item in all three. Looks at the limit first, then asks for memory.
#[inline]
pub(super) fn reserve_one<T>(
    store: &mut ItemStore<T>,
    index1: &mut HashIndex,
    index2: &mut HashIndex,
) -> Result<(), TryReserveError>
    requires paired { ArePaired store.old index1.old.pairs index2.old.pairs }

    // on success
    ensures below_limit { OnOk result (length index1.old.pairs < store.old.limit) }
    ensures room { OnOk result (HasRoomFor store.new 1) }
    ensures listable1 { OnOk result (0 < index1.new.spare) }
    ensures listable2 { OnOk result (0 < index2.new.spare) }

    // on refusal
    ensures kind { IfErr result (λ e. e ≡ refusal_kind store.old.limit index1.old.pairs) }
    ensures needed { OnErr result (spare_in_both store.old index1.old index2.old ≡ 0) }

    // either way
    ensures paired { ArePaired store.new index1.new.pairs index2.new.pairs }
    ensures grows1 { GrowsRoom store.old store.new index1.old index1.new }
    ensures grows2 { GrowsRoom store.old store.new index2.old index2.new }
{
    parts::reserve_one(store, index1)?;
    index2.try_reserve(1)
}

// Makes room for `additional` more items in all three. Looks at the limit first, then asks for memory.
pub(super) fn reserve_room<T>(
    store: &mut ItemStore<T>,
    index1: &mut HashIndex,
    index2: &mut HashIndex,
    additional: usize,
) -> Result<(), TryReserveError>
    requires paired { ArePaired store.old index1.old.pairs index2.old.pairs }

    // on success
    ensures in_limit { OnOk result (length index1.old.pairs + additional ≤ store.old.limit) }
    ensures spare_left { OnOk result (additional ≤ spare_in_both store.new index1.new index2.new) }
    ensures in_memory { OnOk result (length index1.old.pairs + additional ≤ store.new.capacity) }

    // on refusal
    ensures kind { IfErr result (IsKindOf store.old.limit (length index1.old.pairs + additional)) }
    ensures needed { OnErr result (spare_in_both store.old index1.old index2.old < additional) }

    // either way
    ensures paired { ArePaired store.new index1.new.pairs index2.new.pairs }
    ensures grows1 { GrowsRoom store.old store.new index1.old index1.new }
    ensures grows2 { GrowsRoom store.old store.new index2.old index2.new }
{
    parts::reserve_room(store, index1, additional)?;
    index2.try_reserve(additional)
}

// Gives memory back in all three, and keeps room for the items, and for `min` in all. It returns an error only if
// memory is refused for the smaller arrays.
pub(super) fn shrink_room<T>(
    store: &mut ItemStore<T>,
    index1: &mut HashIndex,
    index2: &mut HashIndex,
    min: usize,
) -> Result<(), TryReserveError>
    requires paired { ArePaired store.old index1.old.pairs index2.old.pairs }
    requires compact { vacant store.old ≡ 0 }

    // on success
    ensures frees { store_len store.old ≡ 0 → min ≡ 0 → OnOk result (store.new.capacity ≡ 0) }

    // on refusal
    ensures only_memory { IfErr result (λ e. e ≡ memory_refused) }

    // room
    ensures lowers { store.new.capacity ≤ store.old.capacity }
    ensures keeps_items { store_len store.old ≤ store.new.capacity }
    ensures keeps_min { least min store.old.capacity ≤ store.new.capacity }
    ensures spare { least min (room_in_both store.old index1.old index2.old) ≤ room_in_both store.new index1.new index2.new }

    // what stays
    ensures paired { ArePaired store.new index1.new.pairs index2.new.pairs }
    ensures store { store.new ≡ record store.old { capacity = store.new.capacity } }
    ensures pairs1 { SamePairs index1.old.pairs index1.new.pairs }
    ensures pairs2 { SamePairs index2.old.pairs index2.new.pairs }
{
    index2.shrink(min)?;
    parts::shrink_room(store, index1, min)
}

// Inserts the item into a slot, lists the slot under the hashes, and returns it. Does not allocate.
#[inline]
pub(super) fn insert_in_all<T>(
    store: &mut ItemStore<T>,
    index1: &mut HashIndex,
    index2: &mut HashIndex,
    hash1: u64,
    hash2: u64,
    item: T,
) -> u32
    requires paired { ArePaired store.old index1.old.pairs index2.old.pairs }
    requires room { HasRoomFor store.old 1 }
    requires listable1 { 0 < index1.old.spare }
    requires listable2 { 0 < index2.old.spare }

    // what is inserted
    ensures was_vacant { item_at store.old result ≡ None }
    ensures updates { Updates store.old store.new result (Some item) }
    ensures pairs1 { HasOneMore index1.old.pairs index1.new.pairs (hash1, result) }
    ensures pairs2 { HasOneMore index2.old.pairs index2.new.pairs (hash2, result) }
    ensures len { store_len store.new ≡ store_len store.old + 1 }
    ensures vacant { vacant store.new ≡ vacant store.old - 1 }

    // what stays
    ensures paired { ArePaired store.new index1.new.pairs index2.new.pairs }
    ensures spare1 { index1.old.spare ≤ index1.new.spare + 1 }
    ensures spare2 { index2.old.spare ≤ index2.new.spare + 1 }
    ensures bounds { KeepsBounds store.old store.new }
{
    let slot = parts::insert_in_both(store, index1, hash1, item);
    index2.add_reserved(hash2, slot);
    slot
}

// Removes the slot from both indexes, and returns its item, removed from the store.
#[inline]
pub(super) fn remove_from_all<T>(
    store: &mut ItemStore<T>,
    index1: &mut HashIndex,
    index2: &mut HashIndex,
    hash1: u64,
    hash2: u64,
    slot: u32,
) -> T
    requires paired { ArePaired store.old index1.old.pairs index2.old.pairs }
    requires listed1 { Contains index1.old.pairs (hash1, slot) }
    requires listed2 { Contains index2.old.pairs (hash2, slot) }

    // what is removed
    ensures item { item_at store.old slot ≡ Some result }
    ensures updates { Updates store.old store.new slot None }
    ensures pairs1 { HasOneMore index1.new.pairs index1.old.pairs (hash1, slot) }
    ensures pairs2 { HasOneMore index2.new.pairs index2.old.pairs (hash2, slot) }
    ensures len { store_len store.new + 1 ≡ store_len store.old }
    ensures vacant { vacant store.new ≡ vacant store.old + 1 }

    // what stays
    ensures paired { ArePaired store.new index1.new.pairs index2.new.pairs }
    ensures spare1 { index1.old.spare + 1 ≤ index1.new.spare }
    ensures spare2 { index2.old.spare + 1 ≤ index2.new.spare }
    ensures bounds { KeepsBounds store.old store.new }
{
    index2.remove(hash2, slot);
    parts::remove_from_both(store, index1, hash1, slot)
}
