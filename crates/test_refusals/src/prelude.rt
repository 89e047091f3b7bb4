//! What most tests here name.
use iddqd::errors::FromIterError;
pub(crate) use iddqd::errors::TryReserveError;
pub(crate) use iddqd::{DefaultHashBuilder, IdHashMap, IdOrdMap};
pub(crate) use std::alloc::{AllocError, Global};
pub(crate) use std::test::Fail;
pub(crate) use test_support::caseless::{Caseless, Coarse, item_of, spelled};
pub(crate) use test_support::coarse::Put;
pub(crate) use test_support::either::{Either, Kind, by_hash, in_order};
pub(crate) use test_support::heap::{arm, has_leaked, is_met};
pub(crate) use test_support::items::Numbered;
pub(crate) use test_support::kept::{Kept, make_kept};
pub(crate) use test_support::maps::{Hashed, Inserted, Ordered};
pub(crate) use test_support::new_items::numbered;
pub(crate) use test_support::rows;
pub(crate) use test_support::visitors::Change;
pub(crate) use test_support::words::{Word, tell, word_by_refusal, word_of, word_without_memory};

/// Whether a call did what it should, or was refused memory because a request was.
pub(crate) fn is_due(outcome: Result<bool, TryReserveError>, is_met: bool) -> bool {
    match outcome {
        Ok(is_well) => is_well && !is_met,
        Err(error) => is_met && error == TryReserveError::alloc_error(),
    }
}

/// What `from_iter_unique` made, where no key repeats: a duplicate counts as a full map, which no row allows.
pub(crate) fn unique<M, T: Drop>(made: Result<M, FromIterError<T>>) -> Result<M, TryReserveError> {
    match made {
        Ok(map) => Ok(map),
        Err(FromIterError::Refused(error)) => Err(error),
        Err(FromIterError::Duplicate(_both)) => Err(TryReserveError::capacity_overflow()),
    }
}
