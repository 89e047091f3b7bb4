//! From slot to slot, in the order of their numbers.
ghost use Rattle.std.specs.Prelude.{◌<◌, IfSome};
ghost use Rattle.iddqd_hash_parts.specs.SlotOrder.{FindsItemFrom, FindsSlotFrom, GoesOnAt};
ghost use Rattle.iddqd_hash_parts.specs.StoreAndIndex.{items_in, slots_in};

use iddqd_store::ItemStore;

/// Returns the first slot from this number on that has an item, with the item, or `None`. Looks at each slot up to that
/// one. Does not allocate.
pub fn item_from<T>(store: &ItemStore<T>, from: u32) -> Option<(u32, &T)>
    ensures found { FindsItemFrom (slots_in store.now) (items_in store.now) from result }
    ensures fits { IfSome result (λ found. found.0 < u32.MAX) }
{
    store.next_occupied(from)
}

/// Returns the first slot from this number on that has an item. There must be one, and the number must be 0 or that
/// behind another such slot. Looks at each slot up to that one. Does not allocate.
#[inline]
pub fn slot_from<T>(store: &ItemStore<T>, from: u32) -> u32
    requires { GoesOnAt (slots_in store.now) from }
    ensures found { FindsSlotFrom (slots_in store.now) (items_in store.now) from result }
    ensures fits { result < u32.MAX }
{
    store.occupied_from(from)
}
