//! Whether two ordered maps have the same keys.
ghost use Rattle.std.specs.Prelude.{◌↔◌, IsTrue};
ghost use Rattle.iddqd.specs.Contents.{Ascends};
ghost use Rattle.iddqd_diff.specs.Applying.{HaveEqualKeys, HaveSameKeys};

use crate::diffable::Diffable;
use crate::difference::Difference;
use iddqd::{IdOrdItem, IdOrdMap};

/// Returns true if no item is removed from `before` to `after` and none is added, and else false. Stops at the first
/// such item. Makes at most one comparison for each item of either map. Does not allocate.
pub fn have_same_keys<T: IdOrdItem>(before: &IdOrdMap<T>, after: &IdOrdMap<T>) -> bool
    requires before_keyed { Ascends T.key T.Key.cmp before.now.items }
    requires after_keyed { Ascends T.key T.Key.cmp after.now.items }
    ensures same { IsTrue result
        ↔ HaveSameKeys T.key T.Key.eq before.now.items after.now.items }
    ensures equal { IsTrue result
        → HaveEqualKeys T.key T.Key.eq before.now.items after.now.items }
{
    for difference in before.diff(after) {
        match difference {
            Difference::Removed(_) | Difference::Added(_) => return false,
            Difference::Kept(_, _) => {}
        }
    }
    true
}
