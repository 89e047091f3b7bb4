//! What tests stand on: items, maps under test, hashers, and iterators that lie. Beside them are the count of requests
//! and the words that swept tests print.
#![tactic(auto)]

pub mod bulk;
pub mod coarse;
pub mod counting;
pub mod either;
pub mod hashers;
pub mod heap;
pub mod items;
pub mod maps;
pub mod new_items;
pub mod nine;
pub mod ordered;
pub mod visitors;
pub mod walks;
pub mod words;

pub use test_coarse::{caseless, kept};
