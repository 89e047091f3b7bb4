//! Keeping some of the items.
ghost use Rattle.std.specs.Prelude.{◌≡◌, Some};
ghost use Rattle.std.specs.Fn.{CalledAt};
ghost use Rattle.std.specs.List.Retain.{IsFiltered};
ghost use Rattle.iddqd_store.specs.Holding.{LeavesSlots};
ghost use Rattle.iddqd_store.specs.Visiting.{VisitsKeepKeys, kept_by, visitor_after};

use super::{BiHashMap, Keyed};
use crate::items::BiHashItem;
use iddqd_store::Visit;
use std::hash::BuildHasher;

impl<T: BiHashItem, S: BuildHasher> BiHashMap<T, S> {
    ghost use Rattle.iddqd_bi_hash.specs.BiHashItems.{holding_of};
    ghost use Rattle.iddqd_bi_hash.specs.BiHashMap.{BiStays, IsOccupied};
    ghost use Rattle.iddqd_bi_hash.specs.Guard.{VisitsSlot};

    /// Calls the closure once for each item, and drops each item for which it returns false. It goes in no particular
    /// order. The closure only reads. Looks at every slot. Hashes both keys of each removed item once, and compares
    /// none. Does not allocate.
    pub fn retain<F: FnMut(&T) -> bool>(&mut self, mut keep: F)
    where
        T: Drop,
        requires callable { F.IsAlwaysCallable keep }
        requires keyed { ⟦<Self as Keyed>⟧.keyed self.old }
        ensures filtered { IsFiltered (CalledAt F.FnMut) keep self.old.items self.new.items }
        ensures leaves { LeavesSlots (holding_of self.old) (holding_of self.new) }
        ensures stays { BiStays ⟦<Self as Keyed>⟧.keyed self.old self.new }
    {
        let mut next = 0;
        while let Some((slot, item)) = self.item_from(next) {
            if !keep(item) {
                self.take_slot(slot);
            }
            next = slot + 1;
        }
    }

    /// Visits each item once, and drops each item for which the visit returns false. It goes in no particular order. No
    /// visit may change a key. Hashes both keys of each removed item once, and compares none. Does not allocate.
    pub fn retain_mut<V: Visit<T>>(&mut self, visitor: &mut V)
    where
        T: Drop,
        requires keyed { ⟦<Self as Keyed>⟧.keyed self.old }
        requires keeps_keys1 { VisitsKeepKeys T.key1 T.K1.eq V.visits }
        requires keeps_keys2 { VisitsKeepKeys T.key2 T.K2.eq V.visits }

        // what is kept
        ensures items { self.new.items ≡ kept_by V.visits visitor.old self.old.items }
        ensures visitor { visitor.new ≡ visitor_after V.visits visitor.old self.old.items }
        ensures leaves { LeavesSlots (holding_of self.old) (holding_of self.new) }

        // what stays
        ensures stays { BiStays ⟦<Self as Keyed>⟧.keyed self.old self.new }
    {
        let mut from = 0;
        while let Some((slot, _)) = self.item_from(from) {
            if !self.visit_slot(slot, visitor) {
                self.take_slot(slot);
            }
            from = slot + 1;
        }
    }

    // Visits the item of the slot.
    fn visit_slot<V: Visit<T>>(&mut self, slot: u32, visitor: &mut V) -> bool
        requires keyed { ⟦<Self as Keyed>⟧.keyed self.old }
        requires keeps_keys1 { VisitsKeepKeys T.key1 T.K1.eq V.visits }
        requires keeps_keys2 { VisitsKeepKeys T.key2 T.K2.eq V.visits }
        requires there { IsOccupied self.old slot }
        ensures visits { VisitsSlot V.visits visitor.old visitor.new slot self.old self.new result }
        ensures keyed { ⟦<Self as Keyed>⟧.keyed self.new }
    {
        visitor.visit(self.item_in_slot_mut(slot))
    }
}
