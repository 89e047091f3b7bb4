//! `into_owned` with a request refused: it returns the error itself, and then succeeds.
use crate::prelude::*;
use iddqd::errors::{DuplicateItem, Few};

// Whether the values are those of the new item and of the three in its way.
fn is_whole<D, F: Fn(&D) -> u32>(duplicate: &DuplicateItem<Kept, D>, value: F) -> bool
    requires { F.IsAlwaysCallable value }
{
    let Few::Three(a, b, c) = duplicate.duplicates() else {
        return false;
    };
    [*duplicate.new_item().value, value(a), value(b), value(c)] == [4, 1, 2, 3]
}

// The word for what a refusal left.
fn owned_or_back(alloc: Global, lent: DuplicateItem<Kept, &Kept>) -> Word {
    arm(alloc);
    let outcome = lent.into_owned();
    let is_met = is_met(alloc);
    let (owned, is_right) = match outcome {
        Ok(owned) => (owned, !is_met),
        Err(lent) => {
            let is_kept = is_whole(&lent, |kept| *kept.value);
            let owned = lent.into_owned().ok().ok_or("it is refused again")?;
            (owned, is_met && is_kept)
        }
    };
    let is_well = is_right && is_whole(&owned, |kept| *kept.value);
    word_by_refusal(is_well, is_met, ["owned", "handed_back"])
}

#[test]
fn into_owned(rt: HostRuntime) -> Result<(), Fail> {
    let (first, second) = (make_kept(rt.alloc(), 1)?, make_kept(rt.alloc(), 2)?);
    let (third, new) = (make_kept(rt.alloc(), 3)?, make_kept(rt.alloc(), 4)?);
    let lent = DuplicateItem::internal_new(new, Few::Three(&first, &second, &third));
    tell(&rt, owned_or_back(rt.alloc(), lent))
}
