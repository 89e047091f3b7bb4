//! What a hash map knows of its store and of an index, and the walks over the store. Maps of one key and of several stand
//! on it.
#![tactic(auto)]

mod into_iter;
mod iter;
mod keyed;
mod next_slot;
mod slots_found;
mod store_and_index;

pub use into_iter::IntoIter;
pub use iter::Iter;
pub use keyed::Keyed;
pub use next_slot::{item_from, slot_from};
pub use slots_found::rising_slots;
pub use store_and_index::{
    find_slot, insert_in_both, remove_found, remove_from_both, reserve_one, reserve_room,
    shrink_room,
};
