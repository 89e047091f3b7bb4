//! Maps that are brought up to others by `apply`.
ghost use Rattle.iddqd.specs.Contents.{ClonesKeepKeys};

use super::cases::hundreds;
use super::held::{count_changes, have_same_keys};
use crate::prelude::*;
use iddqd_diff::{id_hash_map, id_ord_map};

/// A map, and whether a call was refused.
pub(crate) type BroughtUp<M> = Result<(M, bool), TryReserveError>;

// A copy of the old map, brought up to the new one. Requests count from the end of the copying on.
#[tactic(auto, using(iddqd_diff::proofs::SameKeysLemmas::keys_of_clones))]
fn brought_up_in_order<T: IdOrdItem + Clone + Drop>(
    alloc: Global,
    before: &Ordered<T>,
    after: &Ordered<T>,
) -> BroughtUp<Ordered<T>>
    requires keeps { ClonesKeepKeys T.key T.Key.eq T.is_clone }
{
    let before = before.map();
    let mut copy = before.clone()?;
    arm(alloc);
    let is_refused = id_ord_map::apply(&mut copy, before, after.map()).is_err();
    Ok((Ordered::new(copy), is_refused))
}

// The same of a hash map.
#[tactic(auto, using(iddqd_diff::proofs::SameKeysLemmas::keys_of_clones))]
fn brought_up_by_hash<T: IdHashItem + Clone + Drop>(
    alloc: Global,
    before: &Hashed<T>,
    after: &Hashed<T>,
) -> BroughtUp<Hashed<T>>
    requires keeps { ClonesKeepKeys T.key T.Key.eq T.is_clone }
{
    let before = before.map();
    let mut copy = before.clone()?;
    arm(alloc);
    let is_refused = id_hash_map::apply(&mut copy, before, after.map()).is_err();
    Ok((Hashed::new(copy), is_refused))
}

// The same of maps of either kind. Of maps of two kinds it is an error.
macro_rules! brought_up {
    ($alloc:ident, $before:ident, $after:ident) => {
        match ($before, $after) {
            (Either::Ordered(before), Either::Ordered(after)) => {
                let (copy, is_refused) = brought_up_in_order($alloc, before, after)?;
                Ok((Either::Ordered(copy), is_refused))
            }
            (Either::Hashed(before), Either::Hashed(after)) => {
                let (copy, is_refused) = brought_up_by_hash($alloc, before, after)?;
                Ok((Either::Hashed(copy), is_refused))
            }
            _ => Err(TryReserveError::capacity_overflow()),
        }
    };
}

fn numbers_brought_up(
    alloc: Global,
    before: &Either<Numbered>,
    after: &Either<Numbered>,
) -> BroughtUp<Either<Numbered>> {
    brought_up!(alloc, before, after)
}

/// A copy of the old map, brought up to the new one, of items whose clones ask for memory.
pub(crate) fn kept_brought_up(
    alloc: Global,
    before: &Either<Kept>,
    after: &Either<Kept>,
) -> BroughtUp<Either<Kept>> {
    brought_up!(alloc, before, after)
}

// With memory at hand the copy has the items of the new map, and no other.
fn applied(rt: &impl Host, kind: Kind) {
    let (before, after) = hundreds(rt, kind);
    let (copy, is_refused) = numbers_brought_up(rt.alloc(), &before, &after).expect(rt, "memory");
    check(rt, !is_refused);
    check(
        rt,
        have_same_keys(&copy, &after) && count_changes(&copy, &after) == 0,
    );
    check(rt, copy.len() == after.len());
}

#[test]
fn hundreds_in_order(rt: HostRuntime) {
    applied(&rt, Kind::Ordered);
}

#[test]
fn hundreds_by_hash(rt: HostRuntime) {
    applied(&rt, Kind::Hashed);
}
