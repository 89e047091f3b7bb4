//! Commands over a map of either kind: what each returns, and what both kinds return alike.
#![tactic(auto)]

mod commands;
mod keyed_map;
pub mod laws;
mod running;

pub use commands::{Command, Reply, RunStop};
pub use keyed_map::KeyedMap;
pub use running::run;
