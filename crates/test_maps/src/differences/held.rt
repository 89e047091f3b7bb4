//! What the difference of two maps under test shows. Of maps of two kinds it shows nothing.
use crate::prelude::*;
use iddqd_diff::{Diffable, Difference, id_hash_map, id_ord_map};
use std::hash::Hash;

/// What the old map has at a key, and the new one.
pub(crate) type Sides<T> = (Option<T>, Option<T>);

fn sides<T: Copy>(difference: &Difference<&T>) -> Sides<T> {
    match difference {
        Difference::Removed(old) => (Some(**old), None),
        Difference::Added(new) => (None, Some(**new)),
        Difference::Kept(old, new) => (Some(**old), Some(**new)),
    }
}

// What is made of two maps of one kind, or else of others.
macro_rules! both {
    ($map:ident, $other:ident, ($before:ident, $after:ident) => $made:expr, $else:expr) => {
        match ($map, $other) {
            (Either::Ordered($before), Either::Ordered($after)) => $made,
            (Either::Hashed($before), Either::Hashed($after)) => $made,
            _ => $else,
        }
    };
}

/// The differences, in the order in which they come.
pub(crate) fn differences<K: Ord + Hash, T>(
    before: &Either<T>,
    after: &Either<T>,
    alloc: Global,
) -> Result<Vec<Sides<T>>, AllocError>
where
    T: IdOrdItem<Key = K> + IdHashItem<Key = K> + Copy + PartialEq + Drop,
{
    let mut all = Vec::new(alloc);
    both!(before, after, (old, new) => {
        for difference in old.map().diff(new.map()) {
            all.push(sides(&difference))?;
        }
    }, ());
    Ok(all)
}

/// The `size_hint` before the first difference.
pub(crate) fn hint<K: Ord + Hash, T>(
    before: &Either<T>,
    after: &Either<T>,
) -> (usize, Option<usize>)
where
    T: IdOrdItem<Key = K> + IdHashItem<Key = K> + Copy + PartialEq + Drop,
{
    both!(before, after, (old, new) => old.map().diff(new.map()).size_hint(), (0, None))
}

/// `have_same_keys`.
pub(crate) fn have_same_keys<K: Ord + Hash, T>(before: &Either<T>, after: &Either<T>) -> bool
where
    T: IdOrdItem<Key = K> + IdHashItem<Key = K> + Copy + PartialEq + Drop,
{
    match (before, after) {
        (Either::Ordered(old), Either::Ordered(new)) => {
            id_ord_map::have_same_keys(old.map(), new.map())
        }
        (Either::Hashed(old), Either::Hashed(new)) => {
            id_hash_map::have_same_keys(old.map(), new.map())
        }
        _ => false,
    }
}

/// How many differences are changes.
pub(crate) fn count_changes<K: Ord + Hash, T>(before: &Either<T>, after: &Either<T>) -> usize
where
    T: IdOrdItem<Key = K> + IdHashItem<Key = K> + Copy + PartialEq + Drop,
{
    let mut count = 0usize;
    both!(before, after, (old, new) => {
        for difference in old.map().diff(new.map()) {
            count = count.saturating_add(usize::from(difference.is_changed()));
        }
    }, ());
    count
}
