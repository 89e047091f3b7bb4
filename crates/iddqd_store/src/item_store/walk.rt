//! A walk over the items of a store, by slot number. Contracts see the items to come.
ghost use Rattle.std.specs.Prelude.{◌≡◌, [], ◌∷◌, IfSome, IfNone};
ghost use Rattle.iddqd_store.specs.Slots.{items_held};
ghost use Rattle.std.specs.Iterator.{YieldsFirstRef, item_count};

use super::ItemStore;
use super::chain::Slot;
use std::marker::Model;

/// References to the items of a store, in the order of their slots' numbers. The whole walk looks at each slot once.
#[derive(Drop)]
pub struct Items<'a, T> {
    // The slots to come.
    slots: &'a [Slot<T>],
}

impl<'a, T> Model for Items<'a, T> {
    ghost use Rattle.std.specs.Prelude.{List};
    ghost use Rattle.iddqd_store.specs.Slots.{items_held};

    ghost Value = { List T };

    ghost view = { λ it. items_held it.slots.now };
}

impl<T> ItemStore<T> {
    ghost use Rattle.iddqd_store.specs.Store.{items_present};

    /// Returns a walk over the items, in the order of their slots' numbers. Does not allocate.
    #[inline]
    pub fn items(&self) -> Items<'_, T>
        ensures { result ≡ items_present self.now.slots }
    {
        Items {
            slots: self.slots.as_slice(),
        }
    }
}

impl<'a, T> Iterator for Items<'a, T> {
    type Item = &'a T;

    ghost next_gives = { YieldsFirstRef (λ rest. rest) };

    ghost remaining = { item_count (λ rest. rest) };

    #[inline]
    fn next(&mut self) -> Option<&'a T> {
        let (slot, behind) = self.slots.split_first()?;
        if let Slot::Occupied(item) = slot {
            self.slots = behind;
            return Some(item);
        }
        self.skip_vacant(behind)
    }
}

impl<'a, T> Items<'a, T> {
    ghost use Rattle.iddqd_store.specs.Slots.{items_held};

    // Goes on at these slots. A function of its own, since the compiler clears the room for what `first_occupied`
    // returns at the head of the function that it stands in.
    #[inline]
    fn skip_vacant(&mut self, slots: &'a [Slot<T>]) -> Option<&'a T>
        ensures item { IfSome result (λ item. items_held slots.now ≡ item.now ∷ self.new) }
        ensures none { IfNone result (items_held slots.now ≡ []) }
        ensures unchanged { IfNone result (self.new ≡ self.old) }
    {
        let (item, behind) = first_occupied(slots)?;
        self.slots = behind;
        Some(item)
    }
}

// Returns the first item of these slots, and the slots behind it.
#[inline(never)]
fn first_occupied<T>(slots: &[Slot<T>]) -> Option<(&T, &[Slot<T>])>
    ensures found { IfSome result (λ f. items_held slots.now ≡ f.0.now ∷ items_held f.1.now) }
    ensures none { IfNone result (items_held slots.now ≡ []) }
{
    let mut rest = slots;
    'next: while let Some((slot, behind)) = rest.split_first() {
        rest = behind;
        if let Slot::Occupied(item) = slot {
            return Some((item, behind));
        }
    }
    None
}
