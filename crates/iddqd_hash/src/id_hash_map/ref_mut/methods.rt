//! Reading, writing and spending a guard.
ghost use Rattle.std.specs.Prelude.{◌≡◌, Some};
ghost use Rattle.std.specs.Borrow.{sem};
ghost use Rattle.iddqd_hash.specs.Guard.{lent_map, lent_item, item_follows, guard_follows};

use super::RefMut;
use std::ops::{Deref, DerefMut};

impl<'a, T, S> RefMut<'a, T, S> {
    /// Spends the guard. The item stays in the map as it was written.
    #[inline]
    pub fn finish(self)
        ensures { self.exit.0.now ≡ lent_map self.entry }
    {
        let RefMut {
            map: _,
            slot: _,
            spent: _,
        } = self;
    }

    /// Lends the guard itself. When that loan is over, this guard has still to be spent.
    #[inline]
    pub fn reborrow(&mut self) -> &mut RefMut<'a, T, S>
        ensures same { result.ghost_name ≡ self.entry.ghost_name }
        ensures guard { result.now ≡ self.old }
    {
        self
    }

    /// Spends the guard, and returns the item for writing.
    #[inline]
    pub fn into_mut(self) -> &'a mut T
        ensures* writes_back { sem 𝓛 (item_follows S.row T.row self.entry result) }
        ensures value { lent_item self.entry ≡ Some result.now }
    {
        let RefMut {
            map,
            slot,
            spent: _,
        } = self;
        map.item_in_slot_mut(slot)
    }
}

impl<T, S> Deref for RefMut<'_, T, S> {
    type Target = T;

    ghost deref_gives = { λ r x. lent_item r ≡ Some x };

    #[inline]
    fn deref(&self) -> &T
        ensures { lent_item self.now ≡ Some result.now }
    {
        self.map.item_in_slot(self.slot)
    }
}

impl<T, S> DerefMut for RefMut<'_, T, S> {
    ghost deref_mut_gives = { λ r x. lent_item r ≡ Some x };

    #[inline]
    fn deref_mut(&mut self) -> &mut T
        ensures* writes_back { sem 𝓛 (guard_follows S.row T.row self.entry result) }
        ensures value { lent_item self.old ≡ Some result.now }
    {
        let slot = self.slot;
        self.map.item_in_slot_mut(slot)
    }
}
