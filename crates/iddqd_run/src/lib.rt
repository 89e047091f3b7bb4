//! Maps whose keys live in their items, run by commands and by lines of text.
#![tactic(auto)]

mod adding;
mod answering;
mod by_name;
mod entries;
mod first_last;
mod requests;
mod serving;
mod statuses;
mod table;

pub use iddqd::errors::{DuplicateItem, Few, InsertError, Refused, TryReserveError};
pub use iddqd::{IdHashItem, IdHashMap, IdOrdItem, IdOrdMap, MAX_ITEMS};
pub use idtable_commands::{Command, KeyedMap, Reply, RunStop, laws, run};
pub use idtable_lines::{FailingReader, FailingWriter, Kind, after_name, kind_of};
pub use serving::{Fault, fault_text, serve};
pub use statuses::{Stop, exit_status};
