//! Keeping some of the items.
ghost use Rattle.std.specs.Prelude.{◌≡◌, IsSome, Some};
ghost use Rattle.std.specs.Fn.{CalledAt};
ghost use Rattle.std.specs.List.Retain.{IsFiltered};
ghost use Rattle.iddqd_store.specs.Holding.{LeavesSlots};
ghost use Rattle.iddqd_store.specs.SlotItems.{item_of_slot};
ghost use Rattle.iddqd_store.specs.Visiting.{VisitsKeepKeys, kept_by, visitor_after};

use super::{IdHashMap, Keyed};
use iddqd_store::{IdHashItem, Visit};
use std::hash::BuildHasher;

impl<T: IdHashItem, S: BuildHasher> IdHashMap<T, S> {
    ghost use Rattle.iddqd_hash.specs.Guard.{VisitsSlot};
    ghost use Rattle.iddqd_hash_parts.specs.HashItems.{holding_of};
    ghost use Rattle.iddqd_hash.specs.HashMap.{HashStays};

    /// Calls the closure once for each item, and drops each item for which it returns false. It goes in no particular
    /// order. The closure only reads. Looks at every slot. Hashes the key of each removed item once, and compares none.
    /// Does not allocate.
    pub fn retain<F: FnMut(&T) -> bool>(&mut self, mut keep: F)
    where
        T: Drop,
        requires callable { F.IsAlwaysCallable keep }
        requires keyed { ⟦<Self as Keyed>⟧.keyed self.old }
        ensures filtered { IsFiltered (CalledAt F.FnMut) keep self.old.items self.new.items }
        ensures leaves { LeavesSlots (holding_of self.old) (holding_of self.new) }
        ensures stays { HashStays ⟦<Self as Keyed>⟧.keyed self.old self.new }
    {
        let mut next = 0;
        while let Some((slot, item)) = self.item_from(next) {
            if !keep(item) {
                let hash = self.hash_of(item);
                self.take_hashed(hash, slot);
            }
            next = slot + 1;
        }
    }

    /// Visits each item once, and drops each item for which the visit returns false. It goes in no particular order. No
    /// visit may change a key. Hashes the key of each removed item once, and compares none. Does not allocate.
    pub fn retain_mut<V: Visit<T>>(&mut self, visitor: &mut V)
    where
        T: Drop,
        requires keyed { ⟦<Self as Keyed>⟧.keyed self.old }
        requires keeps_keys { VisitsKeepKeys T.key T.Key.eq V.visits }

        // what is kept
        ensures items { self.new.items ≡ kept_by V.visits visitor.old self.old.items }
        ensures visitor { visitor.new ≡ visitor_after V.visits visitor.old self.old.items }
        ensures leaves { LeavesSlots (holding_of self.old) (holding_of self.new) }

        // what stays
        ensures stays { HashStays ⟦<Self as Keyed>⟧.keyed self.old self.new }
    {
        let mut next = 0;
        while let Some((slot, _)) = self.item_from(next) {
            if !self.visit_slot(slot, visitor) {
                self.take_slot(slot);
            }
            next = slot + 1;
        }
    }

    // Visits the item of the slot.
    fn visit_slot<V: Visit<T>>(&mut self, slot: u32, visitor: &mut V) -> bool
        requires keyed { ⟦<Self as Keyed>⟧.keyed self.old }
        requires keeps_keys { VisitsKeepKeys T.key T.Key.eq V.visits }
        requires there { IsSome (item_of_slot self.old.slots self.old.items slot) }
        ensures visits { VisitsSlot V.visits visitor.old visitor.new slot self.old self.new result }
        ensures keyed { ⟦<Self as Keyed>⟧.keyed self.new }
    {
        visitor.visit(self.item_in_slot_mut(slot))
    }
}
