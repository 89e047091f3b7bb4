//! Reading the item of a guard that was spent.
ghost use Rattle.std.specs.Prelude.{◌≡◌, Some};
ghost use Rattle.iddqd_bi_hash.specs.Guard.{lent_map, lent_item, guard_lender, shown_map, shown_item, shown_lender};

use super::{RefMut, Shown};
use std::ops::Deref;

impl<'a, T, S> RefMut<'a, T, S> {
    /// Spends the guard, and returns the item for reading.
    #[inline]
    pub fn into_ref(self) -> Shown<'a, T, S>
        ensures same_map { shown_lender result ≡ guard_lender self.entry }
        ensures map { shown_map result ≡ lent_map self.entry }
        ensures item { shown_item result ≡ lent_item self.entry }
    {
        let RefMut {
            map,
            slot,
            spent: _,
        } = self;
        Shown { map, slot }
    }
}

impl<T, S> Deref for Shown<'_, T, S> {
    type Target = T;

    ghost deref_gives = { λ s x. shown_item s ≡ Some x };

    #[inline]
    fn deref(&self) -> &T
        ensures { shown_item self.now ≡ Some result.now }
    {
        self.map.item_in_slot(self.slot)
    }
}
