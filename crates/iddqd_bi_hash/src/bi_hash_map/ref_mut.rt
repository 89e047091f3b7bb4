//! What lends one item of a hash map of two keys for writing.
ghost use Rattle.std.specs.Prelude.{IsSome, IsTrue};
ghost use Rattle.iddqd_store.specs.SlotItems.{item_of_slot};

mod methods;
mod reading;

use super::{BiHashMap, DefaultHashBuilder};

/// One item, lent for writing. Each read and each write of it is one access to the store. Spend it by `finish`,
/// `into_ref` or `into_mut`: the prover refuses a program that drops one unspent.
pub struct RefMut<'a, T, S = DefaultHashBuilder> {
    pub(super) map: &'a mut BiHashMap<T, S>,
    pub(super) slot: u32,
    // Always false, so nothing can show that a guard may be dropped.
    pub(super) spent: bool,
    ghost there: { IsSome (item_of_slot map.now.slots map.now.items slot) },
}

impl<'a, T, S> Drop for RefMut<'a, T, S> {
    fn drop(self)
        requires { IsTrue self.spent }
    {
        let RefMut {
            map: _,
            slot: _,
            spent: _,
        } = self;
    }
}

/// The item of a guard that was spent, for reading. The map stays as it is until this is dropped.
#[derive(Drop)]
pub struct Shown<'a, T, S = DefaultHashBuilder> {
    pub(super) map: &'a mut BiHashMap<T, S>,
    pub(super) slot: u32,
    ghost there: { IsSome (item_of_slot map.now.slots map.now.items slot) },
}
