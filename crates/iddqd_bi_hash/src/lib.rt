//! A hash map of two keys, which live in its items.
#![tactic(auto)]

pub mod bi_hash_map;
mod both;
mod items;

pub use bi_hash_map::{BiHashMap, DefaultHashBuilder, Keyed};
pub use both::Both;
pub use iddqd_store::{
    DuplicateItem, Equivalent, ExtendError, ExtendUniqueError, Few, FromIterError, InsertError,
    MAX_ITEMS, Refused, Text, TryReserveError, ValidateCompact, ValidationError, Visit,
};
pub use items::BiHashItem;
