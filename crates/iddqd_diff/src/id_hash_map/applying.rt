//! Applying the difference of two hash maps to a third.
ghost use Rattle.std.specs.Prelude.{◌≡◌, IfErr, OnErr, OnOk};
ghost use Rattle.iddqd.specs.Contents.{ClonesKeepKeys};
ghost use Rattle.iddqd_diff.specs.Applying.{AppliesFirstInSomeOrder, AppliesOne, HaveEqualKeysInSomeOrder, HoldsClones, IsFullAtLimit, PutsClone};
ghost use Rattle.iddqd_diff.specs.Difference.{shown};

use crate::diffable::Diffable;
use crate::difference::Difference;
use iddqd::errors::TryReserveError;
use iddqd::{IdHashItem, IdHashMap, Keyed};
use std::hash::BuildHasher;

/// Applies the difference from `before` to `after` to `map`, whose keys are those of `before`. A clone of `before` is such
/// a map. The three hashers may differ.
/// Removed items are removed. Clones of added items are inserted. If both maps have an item, a clone of the newer one
/// replaces it. Then `map` has a clone of each item of `after`, and no other.
/// Returns an error if a clone or an insertion is refused memory, or if `map` is full. What was done stays. The first
/// differences are applied then, in the order of `diff`, and the other items are as they were.
/// Hashes each key of `before` and of `after` once, and once more for each difference. Allocates for the clones, and
/// for insertions that find no room.
pub fn apply<T: IdHashItem + Clone + Drop, R: BuildHasher, S: BuildHasher, U: BuildHasher>(
    map: &mut IdHashMap<T, R>,
    before: &IdHashMap<T, S>,
    after: &IdHashMap<T, U>,
) -> Result<(), TryReserveError>
    requires keyed { ⟦<IdHashMap<T, R> as Keyed>⟧.keyed map.old }
    requires before_keyed { ⟦<IdHashMap<T, S> as Keyed>⟧.keyed before.now }
    requires after_keyed { ⟦<IdHashMap<T, U> as Keyed>⟧.keyed after.now }
    requires same_keys { HaveEqualKeysInSomeOrder T.key T.Key.eq before.now.items map.old.items }
    requires keeps_keys { ClonesKeepKeys T.key T.Key.eq T.is_clone }

    // on success
    ensures applied { OnOk result (HoldsClones T.is_clone after.now.items map.new.items) }

    // on refusal
    ensures stopped { OnErr result (AppliesFirstInSomeOrder T.key T.Key.eq T.is_clone
        before.now.items after.now.items map.old.items map.new.items) }
    ensures kind { IfErr result (IsFullAtLimit map.new.limit map.new.items) }

    // either way
    ensures limit { map.new.limit ≡ map.old.limit }
    ensures keyed { ⟦<IdHashMap<T, R> as Keyed>⟧.keyed map.new }
{
    let mut differences = before.diff(after);
    while let Some(difference) = differences.next() {
        apply_one(map, difference)?;
    }
    Ok(())
}

// Applies what two maps have at one key.
fn apply_one<T: IdHashItem + Clone + Drop, S: BuildHasher>(
    map: &mut IdHashMap<T, S>,
    difference: Difference<&T, &T>,
) -> Result<(), TryReserveError>
    requires keyed { ⟦<IdHashMap<T, S> as Keyed>⟧.keyed map.old }
    ensures applied { OnOk result (AppliesOne T.key T.Key.eq T.is_clone (shown difference.entry)
        map.old.items map.new.items) }
    ensures kept { OnErr result (map.new.items ≡ map.old.items) }
    ensures kind { IfErr result (IsFullAtLimit map.new.limit map.new.items) }
    ensures limit { map.new.limit ≡ map.old.limit }
    ensures keyed { ⟦<IdHashMap<T, S> as Keyed>⟧.keyed map.new }
{
    match difference {
        Difference::Removed(item) => {
            map.remove(item.key());
            Ok(())
        }
        Difference::Added(item) | Difference::Kept(_, item) => put_clone(map, item),
    }
}

// Puts a clone of the item in place of the item of an equal key, or inserts it if there is none.
fn put_clone<T: IdHashItem + Clone + Drop, S: BuildHasher>(
    map: &mut IdHashMap<T, S>,
    item: &T,
) -> Result<(), TryReserveError>
    requires keyed { ⟦<IdHashMap<T, S> as Keyed>⟧.keyed map.old }
    ensures put { OnOk result (PutsClone T.key T.Key.eq T.is_clone item.now
        map.old.items map.new.items) }
    ensures kept { OnErr result (map.new.items ≡ map.old.items) }
    ensures kind { IfErr result (IsFullAtLimit map.new.limit map.new.items) }
    ensures limit { map.new.limit ≡ map.old.limit }
    ensures keyed { ⟦<IdHashMap<T, S> as Keyed>⟧.keyed map.new }
{
    let Ok(clone) = item.clone() else {
        return Err(TryReserveError::alloc_error());
    };
    match map.insert_overwrite(clone) {
        Ok(_replaced) => Ok(()),
        Err(refused) => Err(refused.error),
    }
}
