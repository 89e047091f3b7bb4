//! Equality of two maps.
ghost use Rattle.std.specs.Prelude.{◌↔◌, IsTrue};

use super::{BiHashMap, Keyed};
use crate::items::BiHashItem;
use std::hash::BuildHasher;

impl<T: BiHashItem, S: BuildHasher> BiHashMap<T, S> {
    ghost use Rattle.iddqd_store.specs.Contents.{FindsEqual, HaveEqualItems};

    /// Returns true if both maps have as many items, and each item's key finds an equal item in the other, by the
    /// items' own `==`. That is the first key. No order and no hasher plays a part. It is a function, since the trait
    /// `PartialEq` cannot require a keyed map. Hashes each item's first key once, and searches once for it. Does not
    /// allocate.
    pub fn eq(&self, other: &Self) -> bool
    where
        T: PartialEq,
        requires keyed { ⟦<Self as Keyed>⟧.keyed other.now }
        ensures { IsTrue result ↔ HaveEqualItems T.key1 T.K1.eq T.eq self.now.items other.now.items }
    {
        if self.len() != other.len() {
            return false;
        }
        for item in self.iter() {
            if !other.has_equal(item) {
                return false;
            }
        }
        true
    }

    // Returns true if the item's first key finds an equal one.
    fn has_equal(&self, item: &T) -> bool
    where
        T: PartialEq,
        requires keyed { ⟦<Self as Keyed>⟧.keyed self.now }
        ensures { IsTrue result ↔ FindsEqual T.key1 T.K1.eq T.eq self.now.items item.now }
    {
        match self.get1(item.key1()) {
            Some(found) => *item == *found,
            None => false,
        }
    }
}
