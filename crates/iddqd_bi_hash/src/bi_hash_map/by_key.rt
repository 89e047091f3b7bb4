//! The two keys, each as the one that a search or a walk goes by.
use crate::items::BiHashItem;
use iddqd_store::KeyOf;

/// The first key of an item.
pub struct First;

/// The second key of an item.
pub struct Second;

impl<T: BiHashItem> KeyOf<T> for First {
    type Key = T::K1;

    ghost key = { T.key1 };

    #[inline]
    fn key_of(item: &T) -> &T::K1 {
        item.key1()
    }
}

impl<T: BiHashItem> KeyOf<T> for Second {
    type Key = T::K2;

    ghost key = { T.key2 };

    #[inline]
    fn key_of(item: &T) -> &T::K2 {
        item.key2()
    }
}
