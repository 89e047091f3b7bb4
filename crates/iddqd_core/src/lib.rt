//! What both maps stand on, by one name: errors, items, queries, steps, the item store and both indexes.
#![tactic(auto)]

pub mod errors;
pub mod laws;

pub use errors::{
    DuplicateItem, ExtendError, ExtendUniqueError, Few, FromIterError, InsertError, Refused,
    TryReserveError,
};
pub use iddqd_hash_index::HashIndex;
pub use iddqd_ord_index::{Insertion, IntoWalk, OrdIndex, Place, Walk};
pub use iddqd_store::{
    Comparable, Equivalent, Gives, IdHashItem, IdOrdItem, ItemStore, Items, KeyOf, MAX_ITEMS,
    NotInserted, OwnKey, Steps, Text, ValidateCompact, ValidationError, Visit, room_to_reserve,
};
