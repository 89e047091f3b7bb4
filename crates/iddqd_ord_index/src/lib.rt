//! The ordered index: slots in an order that its caller keeps, searched by the keys of their items.
#![tactic(auto)]

pub mod laws;
mod ord_index;
mod tree;

pub use ord_index::{Insertion, IntoWalk, OrdIndex, Place, Walk};
