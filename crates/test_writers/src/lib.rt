//! What writes through guards, entries and walks of the maps. These are right programs, which the edits of this
//! crate turn into programs that must be refused.
#![tactic(auto)]

pub mod hash;
pub mod items;
pub mod ord;
