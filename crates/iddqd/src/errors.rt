//! The errors of both maps.
pub use iddqd_store::{
    DuplicateItem, ExtendError, ExtendUniqueError, Few, FromIterError, InsertError, Refused,
    TryReserveError,
};
