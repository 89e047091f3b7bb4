//! A hash map whose keys live in its items.
#![tactic(auto)]

pub mod id_hash_map;

pub use id_hash_map::{DefaultHashBuilder, IdHashItem, IdHashMap, Keyed};
pub use iddqd_store::{
    DuplicateItem, Equivalent, ExtendError, ExtendUniqueError, Few, FromIterError, InsertError,
    MAX_ITEMS, Refused, Steps, Text, TryReserveError, ValidateCompact, ValidationError, Visit,
};
