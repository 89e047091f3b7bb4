//! The kind of a refusal, out of the errors of the maps.

use iddqd::IdHashMap;
use iddqd::errors::{
    ExtendError, ExtendUniqueError, FromIterError, InsertError, Refused, TryReserveError,
};
use std::alloc::{AllocError, Global};
use test_writers::items::Named;

/// Prints it out of what makes a hash map, beside a duplicate that is not moved out.
fn collected(alloc: Global, items: Vec<Named>) -> Result<String, AllocError> {
    match IdHashMap::<Named>::from_iter_unique(alloc, items) {
        Ok(all) => format!(in alloc; "{}", all.len()),
        Err(FromIterError::Duplicate(_)) => format!(in alloc; "twice"),
        Err(FromIterError::Refused(error)) => format!(in alloc; "{error}"),
    }
}

/// Prints it out of an insertion's error.
fn inserted(alloc: Global, error: InsertError<'_, Named>) -> Result<String, AllocError> {
    match error {
        InsertError::Duplicate(_) => format!(in alloc; "there"),
        InsertError::Refused(refused) => format!(in alloc; "{}", refused.error),
    }
}

/// Compares it, out of the errors that own an item.
fn same(one: Refused<Named>, other: ExtendError<Named>) -> bool {
    one.error == other.error
}

/// Compares it with another, out of `extend_unique`'s error.
fn is_kind(error: ExtendUniqueError<'_, Named>, kind: TryReserveError) -> bool {
    match error {
        ExtendUniqueError::Duplicate(_) => false,
        ExtendUniqueError::Refused(refused) => refused.error == kind,
    }
}
