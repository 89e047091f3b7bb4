//! Items that hold their own key.
ghost use Rattle.std.specs.Prelude.{◌≡◌};

use std::hash::Hash;
use std::rc::Rc;

/// An item of a hash map, which shows its key by a reference into itself.
pub trait IdHashItem {
    /// What tells the item from others, and what a lookup asks for.
    type Key: Eq + Hash;

    // The key that an item shows. It depends on the item's value alone.
    ghost key: { Self → Self.Key };

    /// Returns the item's key.
    fn key(&self) -> &Self::Key
        ensures { result.now ≡ key self.now };
}

/// An item of an ordered map, which shows its key by a reference into itself.
pub trait IdOrdItem {
    /// What tells the item from others, and orders it among them.
    type Key: Ord;

    // The key that an item shows. It depends on the item's value alone.
    ghost key: { Self → Self.Key };

    /// Returns the item's key.
    fn key(&self) -> &Self::Key
        ensures { result.now ≡ key self.now };
}

/// One of the keys that an item shows. It has no values: as a type argument it tells a search which key it goes by.
pub trait KeyOf<T> {
    /// What a lookup by this key asks for.
    type Key: Eq;

    // The key that an item shows. It depends on the item's value alone.
    ghost key: { T → Self.Key };

    /// Returns this key of the item.
    fn key_of(item: &T) -> &Self::Key
        ensures { result.now ≡ key item.now };
}

/// The one key of an `IdHashItem`.
pub struct OwnKey;

impl<T: IdHashItem> KeyOf<T> for OwnKey {
    type Key = T::Key;

    ghost key = { T.key };

    #[inline]
    fn key_of(item: &T) -> &T::Key {
        item.key()
    }
}

impl<T: IdHashItem> IdHashItem for &T {
    type Key = T::Key;

    ghost key = { λ item. T.key item.now };

    fn key(&self) -> &T::Key {
        (**self).key()
    }
}

impl<T: IdHashItem> IdHashItem for Box<T> {
    type Key = T::Key;

    ghost key = { λ item. T.key item.value };

    fn key(&self) -> &T::Key {
        (**self).key()
    }
}

impl<T: IdHashItem> IdHashItem for Rc<T> {
    type Key = T::Key;

    ghost key = { λ item. T.key item.value };

    fn key(&self) -> &T::Key {
        (**self).key()
    }
}

impl<T: IdOrdItem> IdOrdItem for &T {
    type Key = T::Key;

    ghost key = { λ item. T.key item.now };

    fn key(&self) -> &T::Key {
        (**self).key()
    }
}

impl<T: IdOrdItem> IdOrdItem for Box<T> {
    type Key = T::Key;

    ghost key = { λ item. T.key item.value };

    fn key(&self) -> &T::Key {
        (**self).key()
    }
}

impl<T: IdOrdItem> IdOrdItem for Rc<T> {
    type Key = T::Key;

    ghost key = { λ item. T.key item.value };

    fn key(&self) -> &T::Key {
        (**self).key()
    }
}
