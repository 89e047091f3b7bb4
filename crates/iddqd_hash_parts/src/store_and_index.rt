//! Calls that look into a store and an index together, or change both. Only the search looks at keys.
ghost use Rattle.std.specs.Prelude.{◌≡◌, ◌+◌, ◌-◌, ◌<◌, ◌≤◌, length, option_map, IfErr, IfNone, IfSome, OnOk, OnErr, Some, None, Contains};
ghost use Rattle.std.specs.Prelude.{min as least};
ghost use Rattle.iddqd_store.specs.Contents.{NoTwoAkin, find_item};
ghost use Rattle.iddqd_store.specs.Counting.{CountsAtMost};
ghost use Rattle.iddqd_hash_index.specs.HashPairs.{HasOneMore, SamePairs, of_hash};
ghost use Rattle.iddqd_store.specs.Refusal.{IsKindOf, memory_refused, refusal_kind};
ghost use Rattle.iddqd_store.specs.Store.{item_at, store_len, vacant, HasRoomFor, Updates};
ghost use Rattle.iddqd_hash_parts.specs.StoreAndIndex.{AreHashed, GrowsRoom, IsOnlySlot, IsSlotFound, KeepsBounds, PairsOccupied, RemovesPaired, items_in, room_in, spare_in};

use iddqd_hash_index::HashIndex;
use iddqd_store::{Equivalent, ItemStore, KeyOf, Steps, TryReserveError};

/// Returns the slot of the item that the query finds by the key that `K` names, or `None`. Compares only keys whose
/// slots are listed with this hash. Does not allocate.
#[inline(always)]
pub fn find_slot<T, K: KeyOf<T>, Q: Equivalent<K::Key>>(
    store: &ItemStore<T>,
    index: &HashIndex,
    hash: u64,
    query: &Q,
    steps: &mut Steps,
) -> Option<u32>
    requires paired { PairsOccupied store.now index.now.pairs }
    requires differ { NoTwoAkin K.key K.Key.eq (items_in store.now) }
    requires stored { AreHashed K.key (Q.equivalent query.now) store.now index.now.pairs hash }

    // what it finds
    ensures item { IsSlotFound K.key (Q.equivalent query.now) store.now result }
    ensures only { IsOnlySlot K.key (Q.equivalent query.now) store.now result }
    ensures listed { IfSome result (λ slot. Contains index.now.pairs (hash, slot)) }

    // what it costs
    ensures steps { CountsAtMost steps.old steps.new (of_hash index.now.pairs hash) }
{
    index.find_by_key::<T, K, Q>(store, hash, query, steps)
}

/// Makes room for one more item in both. Looks at the limit first, then asks for memory. It returns an error if the
/// limit or memory refuses it, and allocates only if nothing is spare.
#[inline]
pub fn reserve_one<T>(
    store: &mut ItemStore<T>,
    index: &mut HashIndex,
) -> Result<(), TryReserveError>
    requires paired { PairsOccupied store.old index.old.pairs }

    // on success
    ensures below_limit { OnOk result (length index.old.pairs < store.old.limit) }
    ensures room { OnOk result (HasRoomFor store.new 1) }
    ensures listable { OnOk result (0 < index.new.spare) }

    // on refusal
    ensures kind { IfErr result (λ e. e ≡ refusal_kind store.old.limit index.old.pairs) }
    ensures needed { OnErr result (spare_in store.old index.old ≡ 0) }

    // either way
    ensures paired { PairsOccupied store.new index.new.pairs }
    ensures grows { GrowsRoom store.old store.new index.old index.new }
{
    if store.len() == store.limit() as usize {
        return Err(TryReserveError::capacity_overflow());
    }
    store.try_reserve(1)?;
    index.try_reserve(1)
}

/// Makes room for `additional` more items in both. Looks at the limit first, then asks for memory. It returns an error
/// if the limit or memory refuses it, and allocates only if fewer are spare.
pub fn reserve_room<T>(
    store: &mut ItemStore<T>,
    index: &mut HashIndex,
    additional: usize,
) -> Result<(), TryReserveError>
    requires paired { PairsOccupied store.old index.old.pairs }

    // on success
    ensures in_limit { OnOk result (length index.old.pairs + additional ≤ store.old.limit) }
    ensures spare_left { OnOk result (additional ≤ spare_in store.new index.new) }
    ensures in_memory { OnOk result (length index.old.pairs + additional ≤ store.new.capacity) }

    // on refusal
    ensures kind { IfErr result (IsKindOf store.old.limit (length index.old.pairs + additional)) }
    ensures needed { OnErr result (spare_in store.old index.old < additional) }

    // either way
    ensures paired { PairsOccupied store.new index.new.pairs }
    ensures grows { GrowsRoom store.old store.new index.old index.new }
{
    store.try_reserve(additional)?;
    index.try_reserve(additional)
}

/// Gives memory back in both, and keeps room for the items, and for `min` in all. It returns an error only if memory
/// is refused for the smaller arrays.
pub fn shrink_room<T>(
    store: &mut ItemStore<T>,
    index: &mut HashIndex,
    min: usize,
) -> Result<(), TryReserveError>
    requires paired { PairsOccupied store.old index.old.pairs }
    requires compact { vacant store.old ≡ 0 }

    // on success
    ensures frees { store_len store.old ≡ 0 → min ≡ 0 → OnOk result (store.new.capacity ≡ 0) }

    // on refusal
    ensures only_memory { IfErr result (λ e. e ≡ memory_refused) }

    // room
    ensures lowers { store.new.capacity ≤ store.old.capacity }
    ensures keeps_items { store_len store.old ≤ store.new.capacity }
    ensures keeps_min { least min store.old.capacity ≤ store.new.capacity }
    ensures spare { least min (room_in store.old index.old) ≤ room_in store.new index.new }

    // what stays
    ensures paired { PairsOccupied store.new index.new.pairs }
    ensures store { store.new ≡ record store.old { capacity = store.new.capacity } }
    ensures pairs { SamePairs index.old.pairs index.new.pairs }
{
    index.shrink(min)?;
    store.shrink_to(min)
}

/// Inserts the item into a slot, lists the slot under the hash, and returns it. Does not allocate.
#[inline]
pub fn insert_in_both<T>(store: &mut ItemStore<T>, index: &mut HashIndex, hash: u64, item: T) -> u32
    requires paired { PairsOccupied store.old index.old.pairs }
    requires room { HasRoomFor store.old 1 }
    requires listable { 0 < index.old.spare }

    // what is inserted
    ensures was_vacant { item_at store.old result ≡ None }
    ensures updates { Updates store.old store.new result (Some item) }
    ensures pairs { HasOneMore index.old.pairs index.new.pairs (hash, result) }
    ensures len { store_len store.new ≡ store_len store.old + 1 }
    ensures vacant { vacant store.new ≡ vacant store.old - 1 }

    // what stays
    ensures paired { PairsOccupied store.new index.new.pairs }
    ensures spare { index.old.spare ≤ index.new.spare + 1 }
    ensures bounds { KeepsBounds store.old store.new }
{
    let slot = store.insert_reserved(item);
    index.add_reserved(hash, slot);
    slot
}

/// Removes the slot from the index, and returns its item, removed from the store. Does not allocate.
#[inline]
pub fn remove_from_both<T>(
    store: &mut ItemStore<T>,
    index: &mut HashIndex,
    hash: u64,
    slot: u32,
) -> T
    requires paired { PairsOccupied store.old index.old.pairs }
    requires listed { Contains index.old.pairs (hash, slot) }

    // what is removed
    ensures item { item_at store.old slot ≡ Some result }
    ensures updates { Updates store.old store.new slot None }
    ensures pairs { HasOneMore index.new.pairs index.old.pairs (hash, slot) }
    ensures len { store_len store.new + 1 ≡ store_len store.old }
    ensures vacant { vacant store.new ≡ vacant store.old + 1 }

    // what stays
    ensures paired { PairsOccupied store.new index.new.pairs }
    ensures spare { index.old.spare + 1 ≤ index.new.spare }
    ensures bounds { KeepsBounds store.old store.new }
{
    index.remove(hash, slot);
    store.remove(slot)
}

/// Removes the item that the query finds by the key that `K` names, and returns its slot and the item. It compares as
/// `find_slot` does. If there is none, it returns `None` and changes nothing. Does not allocate.
#[inline]
pub fn remove_found<T, K: KeyOf<T>, Q: Equivalent<K::Key>>(
    store: &mut ItemStore<T>,
    index: &mut HashIndex,
    hash: u64,
    query: &Q,
) -> Option<(u32, T)>
    requires paired { PairsOccupied store.old index.old.pairs }
    requires differ { NoTwoAkin K.key K.Key.eq (items_in store.old) }
    requires stored { AreHashed K.key (Q.equivalent query.now) store.old index.old.pairs hash }

    // what is removed
    ensures found { option_map (λ r. r.1) result ≡ find_item K.key (Q.equivalent query.now) (items_in store.old) }
    ensures removed { IfSome result (λ r. RemovesPaired store.old store.new index.old index.new hash r.0 r.1) }

    // if there is none
    ensures store { IfNone result (store.new ≡ store.old) }
    ensures index { IfNone result (index.new ≡ index.old) }
{
    let slot = index.remove_by_key::<T, K, Q>(store, hash, query, &mut Steps::new())?;
    Some((slot, store.remove(slot)))
}
