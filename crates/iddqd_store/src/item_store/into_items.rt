//! The items of a consumed store, by slot number. Contracts see the items to come.
ghost use Rattle.std.specs.Prelude.{◌≡◌};
ghost use Rattle.std.specs.Iterator.{YieldsFirst, item_count};

use super::ItemStore;
use super::chain::Slot;
use std::marker::Model;
use std::vec;

/// The items of a consumed store, in the order of their slots' numbers. All steps together look at each slot once. It
/// drops the items that it has not returned.
#[derive(Drop)]
pub struct IntoItems<T> {
    // The slots to come.
    slots: vec::IntoIter<Slot<T>>,
}

impl<T> Model for IntoItems<T> {
    ghost use Rattle.std.specs.Prelude.{◌≡◌, List, length};
    ghost use Rattle.std.specs.Vec.Iter.{into_iter_items, into_iter_len};
    ghost use Rattle.iddqd_store.specs.Slots.{items_held};

    ghost Value = { List T };

    ghost view = { λ it. items_held (into_iter_items it.slots) };

    ghost invariant = { λ it. into_iter_len it.slots ≡ length (into_iter_items it.slots) };
}

impl<T> ItemStore<T> {
    ghost use Rattle.iddqd_store.specs.Store.{items_present};

    /// Returns the items, in the order of their slots' numbers. Does not allocate.
    #[inline]
    pub fn into_items(self) -> IntoItems<T>
        ensures { result ≡ items_present self.slots }
    {
        let ItemStore {
            slots,
            len: _,
            first_vacant: _,
            limit: _,
        } = self;
        IntoItems {
            slots: slots.into_iter(),
        }
    }
}

impl<T: Drop> Iterator for IntoItems<T> {
    type Item = T;

    ghost next_gives = { YieldsFirst (λ rest. rest) };

    ghost remaining = { item_count (λ rest. rest) };

    #[inline]
    fn next(&mut self) -> Option<T> {
        'next: while let Some(slot) = self.slots.next() {
            if let Slot::Occupied(item) = slot {
                return Some(item);
            }
        }
        None
    }
}
