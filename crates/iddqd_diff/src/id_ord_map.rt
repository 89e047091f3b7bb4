//! The difference of two ordered maps, and what it takes to make one of the other.
mod applying;
mod diff;
mod peeked;
mod same_keys;

pub use applying::apply;
pub use diff::Diff;
pub use same_keys::have_same_keys;
