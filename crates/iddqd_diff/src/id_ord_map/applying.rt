//! Applying the difference of two ordered maps to a third.
ghost use Rattle.std.specs.Prelude.{◌≡◌, IfErr, OnErr, OnOk};
ghost use Rattle.std.specs.List.{AllZip};
ghost use Rattle.iddqd.specs.Contents.{Ascends, ClonesKeepKeys};
ghost use Rattle.iddqd_diff.specs.Applying.{AppliesFirstInOrder, AppliesOne, HaveEqualKeys, IsFullAtLimit, PutsClone};
ghost use Rattle.iddqd_diff.specs.Difference.{shown};

use crate::diffable::Diffable;
use crate::difference::Difference;
use iddqd::errors::TryReserveError;
use iddqd::{IdOrdItem, IdOrdMap};

/// Applies the difference from `before` to `after` to `map`, whose keys are those of `before`. A clone of `before` is such
/// a map.
/// Removed items are removed. Clones of added items are inserted. If both maps have an item, a clone of the newer one
/// replaces it. Then `map` has a clone of each item of `after`, and no other.
/// Returns an error if a clone or an insertion is refused memory, or if `map` is full. What was done stays. The
/// differences before some key are applied then, and the items from that key on are as they were.
/// Makes at most one comparison for each item of `before` and `after`, and one search in `map` for each difference.
/// Allocates for the clones, and for insertions that find no room.
pub fn apply<T: IdOrdItem + Clone + Drop>(
    map: &mut IdOrdMap<T>,
    before: &IdOrdMap<T>,
    after: &IdOrdMap<T>,
) -> Result<(), TryReserveError>
    requires keyed { Ascends T.key T.Key.cmp map.old.items }
    requires before_keyed { Ascends T.key T.Key.cmp before.now.items }
    requires after_keyed { Ascends T.key T.Key.cmp after.now.items }
    requires same_keys { HaveEqualKeys T.key T.Key.eq before.now.items map.old.items }
    requires keeps_keys { ClonesKeepKeys T.key T.Key.eq T.is_clone }

    // on success
    ensures applied { OnOk result (AllZip T.is_clone after.now.items map.new.items) }

    // on refusal
    ensures stopped { OnErr result (AppliesFirstInOrder T.key T.Key.eq T.Key.cmp T.is_clone
        before.now.items after.now.items map.old.items map.new.items) }
    ensures kind { IfErr result (IsFullAtLimit map.new.limit map.new.items) }

    // either way
    ensures limit { map.new.limit ≡ map.old.limit }
    ensures keyed { Ascends T.key T.Key.cmp map.new.items }
{
    for difference in before.diff(after) {
        apply_one(map, difference)?;
    }
    Ok(())
}

// Applies what two maps have at one key.
fn apply_one<T: IdOrdItem + Clone + Drop>(
    map: &mut IdOrdMap<T>,
    difference: Difference<&T, &T>,
) -> Result<(), TryReserveError>
    requires keyed { Ascends T.key T.Key.cmp map.old.items }
    ensures applied { OnOk result (AppliesOne T.key T.Key.eq T.is_clone (shown difference.entry)
        map.old.items map.new.items) }
    ensures kept { OnErr result (map.new.items ≡ map.old.items) }
    ensures kind { IfErr result (IsFullAtLimit map.new.limit map.new.items) }
    ensures limit { map.new.limit ≡ map.old.limit }
    ensures keyed { Ascends T.key T.Key.cmp map.new.items }
{
    match difference {
        Difference::Removed(item) => {
            map.remove(item.key());
            Ok(())
        }
        Difference::Added(item) | Difference::Kept(_, item) => put_clone(map, item),
    }
}

// Puts a clone of the item in place of the item of an equal key, or inserts it if there is none.
fn put_clone<T: IdOrdItem + Clone + Drop>(
    map: &mut IdOrdMap<T>,
    item: &T,
) -> Result<(), TryReserveError>
    requires keyed { Ascends T.key T.Key.cmp map.old.items }
    ensures put { OnOk result (PutsClone T.key T.Key.eq T.is_clone item.now
        map.old.items map.new.items) }
    ensures kept { OnErr result (map.new.items ≡ map.old.items) }
    ensures kind { IfErr result (IsFullAtLimit map.new.limit map.new.items) }
    ensures limit { map.new.limit ≡ map.old.limit }
    ensures keyed { Ascends T.key T.Key.cmp map.new.items }
{
    let Ok(clone) = item.clone() else {
        return Err(TryReserveError::alloc_error());
    };
    match map.insert_overwrite(clone) {
        Ok(_replaced) => Ok(()),
        Err(refused) => Err(refused.error),
    }
}
