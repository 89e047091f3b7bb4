//! Maps whose keys live in their items, by the Rust crate's paths: the hash map and the ordered one of the crates below.
#![tactic(auto)]

pub mod errors;
pub mod internal;

pub use iddqd_hash::{DefaultHashBuilder, IdHashItem, IdHashMap, Keyed, id_hash_map};
pub use iddqd_ord::{IdOrdItem, IdOrdMap, MAX_ITEMS, id_ord_map};
pub use iddqd_store::{Comparable, Equivalent, Steps, Text, Visit};
