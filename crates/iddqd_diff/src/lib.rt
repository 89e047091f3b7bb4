//! The difference of two maps by key: which items were removed, which were added, and which keys both maps have.
#![tactic(auto)]

mod diffable;
mod difference;
pub mod id_hash_map;
pub mod id_ord_map;

pub use diffable::Diffable;
pub use difference::Difference;
