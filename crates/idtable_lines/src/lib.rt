//! What the program reads: the lines of a text and the words that it is called by, read as what they ask for. Beside
//! them a reader and a writer in memory that fail at one call. It names no map.
#![tactic(auto)]

mod arguments;
mod failing;
mod lines;

pub use arguments::{Kind, after_name, kind_of};
pub use failing::{FailingReader, FailingWriter};
pub use lines::{End, Line, NamedValue, Pair, Request, first_line, first_pair, parse};
