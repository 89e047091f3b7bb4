//! A B-tree of slots: a list that is changed by position, and searched by the keys of the slots' items.
mod cells;
pub(crate) mod node;
pub(crate) mod pool;
pub(crate) mod root;
mod search;
mod slots;
