//! The errors of calls that insert or make room.
pub use iddqd_store::{
    DuplicateItem, ExtendError, ExtendUniqueError, Few, FromIterError, InsertError, Refused,
    TryReserveError,
};
