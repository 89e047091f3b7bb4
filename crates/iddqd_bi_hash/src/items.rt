//! Items that hold two keys of their own.
ghost use Rattle.std.specs.Prelude.{◌≡◌};

use std::hash::Hash;
use std::rc::Rc;

/// An item of a hash map of two keys, which shows each by a reference into itself.
pub trait BiHashItem {
    /// What tells the item from others, and what a lookup by the first key asks for.
    type K1: Eq + Hash;

    /// What tells the item from others too, and what a lookup by the second key asks for.
    type K2: Eq + Hash;

    // The keys that an item shows. They depend on the item's value alone.
    ghost key1: { Self → Self.K1 };

    ghost key2: { Self → Self.K2 };

    /// Returns the item's first key.
    fn key1(&self) -> &Self::K1
        ensures { result.now ≡ key1 self.now };

    /// Returns the item's second key.
    fn key2(&self) -> &Self::K2
        ensures { result.now ≡ key2 self.now };
}

impl<T: BiHashItem> BiHashItem for &T {
    type K1 = T::K1;

    type K2 = T::K2;

    ghost key1 = { λ item. T.key1 item.now };

    ghost key2 = { λ item. T.key2 item.now };

    fn key1(&self) -> &T::K1 {
        (**self).key1()
    }

    fn key2(&self) -> &T::K2 {
        (**self).key2()
    }
}

impl<T: BiHashItem> BiHashItem for Box<T> {
    type K1 = T::K1;

    type K2 = T::K2;

    ghost key1 = { λ item. T.key1 item.value };

    ghost key2 = { λ item. T.key2 item.value };

    fn key1(&self) -> &T::K1 {
        (**self).key1()
    }

    fn key2(&self) -> &T::K2 {
        (**self).key2()
    }
}

impl<T: BiHashItem> BiHashItem for Rc<T> {
    type K1 = T::K1;

    type K2 = T::K2;

    ghost key1 = { λ item. T.key1 item.value };

    ghost key2 = { λ item. T.key2 item.value };

    fn key1(&self) -> &T::K1 {
        (**self).key1()
    }

    fn key2(&self) -> &T::K2 {
        (**self).key2()
    }
}
