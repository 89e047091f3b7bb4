//! Items of tests that have laws to keep. The keys of one are equal in any case, and it is written whole over an
//! existing one. The clone of the other can be refused.
#![tactic(auto)]

pub mod caseless;
pub mod kept;
pub mod writes;
