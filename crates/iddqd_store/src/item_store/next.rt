//! Insertion into a slot that is known before.
ghost use Rattle.std.specs.Prelude.{◌≡◌, ◌+◌, ◌-◌, ◌<◌, IfSome, IfNone, OnSome, Some};
ghost use Rattle.iddqd_store.specs.Store.{store_len, vacant, HasRoomFor, IsNextSlot, Updates};

use super::ItemStore;
use super::chain::{NO_SLOT, Slot, fill};

impl<T> ItemStore<T> {
    /// Returns the slot that the next item goes into, or `None` if there is no room for one. A vacant slot comes first.
    #[inline]
    pub fn next_slot(&self) -> Option<u32>
        ensures slot { IfSome result (IsNextSlot self.now) }
        ensures number { OnSome result (store_len self.now < u32.MAX) }
        ensures none { IfNone result (¬ HasRoomFor self.now 1) }
    {
        if self.first_vacant != NO_SLOT {
            return Some(self.first_vacant);
        }
        let next = self.slots.len();
        if next < self.slots.capacity() && next < self.limit as usize {
            return Some(next as u32);
        }
        None
    }

    /// Inserts the item into the slot that `next_slot` returned. Does not allocate.
    #[inline]
    pub fn insert_into(&mut self, slot: u32, item: T)
        requires { IsNextSlot self.old slot }

        // the slots
        ensures updates { Updates self.old self.new slot (Some item) }

        // the numbers
        ensures len { store_len self.new ≡ store_len self.old + 1 }
        ensures vacant { vacant self.new ≡ vacant self.old - 1 }
        ensures capacity { self.new.capacity ≡ self.old.capacity }
        ensures limit { self.new.limit ≡ self.old.limit }
    {
        self.len += 1;
        if slot as usize == self.slots.len() {
            self.slots.push_reserved(Slot::Occupied(item));
            return;
        }
        self.first_vacant = fill(self.slots.as_mut_slice(), self.first_vacant, slot, item);
    }
}
