//! An ordered map over an item store and an ordered index.
ghost use Rattle.std.specs.Prelude.{◌≡◌, ◌↔◌, ◌≤◌, [], length, IsTrue};
ghost use Rattle.iddqd_store.specs.Contents.{Ascends};
ghost use Rattle.iddqd_store.specs.SlotItems.{HaveSlots};

mod clone;
mod collect;
mod compact;
pub mod entry;
mod equality;
mod extend_unique;
mod first_last;
mod fmt;
mod get_mut;
mod insert;
mod insert_or_find;
mod into_iter;
mod iter;
pub mod iter_mut;
mod keys;
mod lookups;
mod positions;
mod range;
pub mod ref_mut;
mod remove_range;
mod retain;
mod room;
mod slots;
mod store_and_index;
mod validate;

pub use entry::{Entry, OccupiedEntry, VacantEntry};
pub use fmt::DebugWithKeys;
use iddqd_ord_index::OrdIndex;
pub use iddqd_store::IdOrdItem;
use iddqd_store::{ItemStore, MAX_ITEMS};
pub use into_iter::IntoIter;
pub use iter::Iter;
pub use iter_mut::IterMut;
pub use keys::Keys;
pub use ref_mut::{RefMut, Shown};
use std::alloc::Global;
use std::marker::Model;

/// Items of pairwise different keys, in ascending order of the keys that they show. Each item lies in a numbered slot
/// of a store, and an index lists the slots in the order of the keys. Contracts see the items in that order, the slot
/// of each, the number of vacant slots, the capacity and the limit.
pub struct IdOrdMap<T> {
    store: ItemStore<T>,
    index: OrdIndex,
    // What an insertion lends if it succeeds, so that its caller learns what the map is then.
    done: (),
}

// Not derived: wherever a function drops a map, its proof has a derived drop field by field, and this one as a call.
impl<T: Drop> Drop for IdOrdMap<T> {
    fn drop(self) {
        let IdOrdMap {
            store: _,
            index: _,
            done: _,
        } = self;
    }
}

impl<T> Model for IdOrdMap<T> {
    ghost use Rattle.iddqd_store.specs.Holding.{Holding};
    ghost use Rattle.iddqd_ord_index.specs.Listed.{listed_items};
    ghost use Rattle.iddqd_store.specs.Store.{vacant};
    ghost use Rattle.iddqd_ord.specs.StoreAndIndex.{ListsOccupied};

    ghost Value = { Holding T };

    ghost view = { λ m. record {
      items = listed_items m.store m.index.slots;
      slots = m.index.slots;
      vacant = vacant m.store;
      capacity = m.store.capacity;
      limit = m.store.limit;
    } };

    ghost invariant = { λ m. ListsOccupied m.store m.index.slots };
}

impl<T> IdOrdMap<T> {
    /// Returns the number of items, in constant time.
    #[inline]
    pub fn len(&self) -> usize
        ensures len { result ≡ length self.now.items }
        ensures within_limit { result ≤ self.now.limit }
        ensures slots { HaveSlots self.now.slots self.now.items }
    {
        self.store.len()
    }

    /// Returns true if the map has no items.
    #[inline]
    pub fn is_empty(&self) -> bool
        ensures { IsTrue result ↔ (self.now.items ≡ []) }
    {
        self.len() == 0
    }

    /// Returns the number of items that fit before the store allocates.
    #[inline]
    pub fn capacity(&self) -> usize
        ensures number { result ≡ self.now.capacity }
        ensures holds { length self.now.items ≤ result }
    {
        self.store.capacity()
    }

    /// Returns the number of vacant slots, which removed items left, in constant time.
    #[inline]
    pub fn vacant(&self) -> u32
        ensures { result ≡ self.now.vacant }
    {
        self.store.vacant()
    }

    /// Returns the greatest number of items that the map can hold.
    #[inline]
    pub fn limit(&self) -> u32
        ensures { result ≡ self.now.limit }
    {
        self.store.limit()
    }
}

impl<T: IdOrdItem> IdOrdMap<T> {
    ghost use Rattle.iddqd_ord.specs.OrdMap.{empty_map};

    /// Returns a map without items. Does not allocate.
    pub fn new(alloc: Global) -> Self
        ensures empty { result ≡ empty_map 0 MAX_ITEMS }
        ensures keyed { Ascends T.key T.Key.cmp result.items }
    {
        IdOrdMap::with_limit(alloc, MAX_ITEMS)
    }

    /// Returns a map without items that never holds more than `limit`. Does not allocate.
    pub fn with_limit(alloc: Global, limit: u32) -> Self
        ensures empty { result ≡ empty_map 0 limit }
        ensures keyed { Ascends T.key T.Key.cmp result.items }
    {
        IdOrdMap::over(ItemStore::new(alloc, limit), alloc)
    }

    // The map over a store without slots.
    fn over(store: ItemStore<T>, alloc: Global) -> Self
        requires empty { store.slots ≡ [] }
        ensures empty { result ≡ empty_map store.capacity store.limit }
        ensures keyed { Ascends T.key T.Key.cmp result.items }
    {
        IdOrdMap {
            store,
            index: OrdIndex::new(alloc),
            done: (),
        }
    }

    /// Drops every item and every slot, and keeps the capacity. Does not allocate.
    pub fn clear(&mut self)
    where
        T: Drop,
        ensures after { self.new ≡ record self.old { items = []; slots = []; vacant = 0 } }
        ensures keyed { Ascends T.key T.Key.cmp self.new.items }
    {
        self.store.clear();
        self.index.clear();
    }
}
