//! What checks a map's structure, under the Rust crate's path, and what crates above both maps share.
pub use iddqd_store::{ValidateCompact, ValidationError, room_to_reserve};
