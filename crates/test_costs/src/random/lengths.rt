//! How long the lists of calls are. `./test quick` divides each number.

/// The calls of a list.
pub(crate) const CALLS: u32 = 10_000;

/// The calls of a list over many names.
pub(crate) const MANY_CALLS: u32 = 20_000;

/// How many maps are made of many items.
pub(crate) const MAPS: u32 = 2_000;
