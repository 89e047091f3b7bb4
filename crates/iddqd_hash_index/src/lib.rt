//! The hash index: pairs of a hash and a slot, found by hash.
#![tactic(auto)]

mod hash_index;

pub use hash_index::HashIndex;
