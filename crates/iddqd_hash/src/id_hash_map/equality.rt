//! Equality of two maps.
ghost use Rattle.std.specs.Prelude.{◌↔◌, IsTrue};

use super::{IdHashMap, Keyed};
use iddqd_store::IdHashItem;
use std::hash::BuildHasher;

impl<T: IdHashItem, S: BuildHasher> IdHashMap<T, S> {
    ghost use Rattle.iddqd_store.specs.Contents.{FindsEqual, HaveEqualItems};

    /// Returns true if both maps have as many items, and each item's key finds an equal item in the other, by the
    /// items' own `==`. No order and no hasher plays a part. It is a function, since the trait `PartialEq` cannot
    /// require a keyed map. Hashes each item's key once, and searches once for it. Does not allocate.
    pub fn eq(&self, other: &Self) -> bool
    where
        T: PartialEq,
        requires keyed { ⟦<Self as Keyed>⟧.keyed other.now }
        ensures { IsTrue result ↔ HaveEqualItems T.key T.Key.eq T.eq self.now.items other.now.items }
    {
        if self.len() != other.len() {
            return false;
        }
        for item in self.iter() {
            if !other.has_equal(item) {
                return false;
            }
        }
        true
    }

    // Returns true if the item's key finds an equal one.
    fn has_equal(&self, item: &T) -> bool
    where
        T: PartialEq,
        requires keyed { ⟦<Self as Keyed>⟧.keyed self.now }
        ensures { IsTrue result ↔ FindsEqual T.key T.Key.eq T.eq self.now.items item.now }
    {
        match self.get(item.key()) {
            Some(found) => *item == *found,
            None => false,
        }
    }
}
