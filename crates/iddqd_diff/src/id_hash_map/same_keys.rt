//! Whether two hash maps have the same keys.
ghost use Rattle.std.specs.Prelude.{◌↔◌, IsTrue};
ghost use Rattle.iddqd_diff.specs.Applying.{HaveEqualKeysInSomeOrder, HaveSameKeys};

use crate::diffable::Diffable;
use crate::difference::Difference;
use iddqd::{IdHashItem, IdHashMap, Keyed};
use std::hash::BuildHasher;

/// Returns true if no item is removed from `before` to `after` and none is added, and else false. Stops at the first
/// such item. Hashes each key of either map at most once. Does not allocate. The two hashers may differ.
pub fn have_same_keys<T: IdHashItem, S: BuildHasher, U: BuildHasher>(
    before: &IdHashMap<T, S>,
    after: &IdHashMap<T, U>,
) -> bool
    requires before_keyed { ⟦<IdHashMap<T, S> as Keyed>⟧.keyed before.now }
    requires after_keyed { ⟦<IdHashMap<T, U> as Keyed>⟧.keyed after.now }
    ensures same { IsTrue result
        ↔ HaveSameKeys T.key T.Key.eq before.now.items after.now.items }
    ensures equal { IsTrue result
        → HaveEqualKeysInSomeOrder T.key T.Key.eq before.now.items after.now.items }
{
    let mut differences = before.diff(after);
    while let Some(difference) = differences.next() {
        match difference {
            Difference::Removed(_) | Difference::Added(_) => return false,
            Difference::Kept(_, _) => {}
        }
    }
    true
}
