//! What both indexes and both maps stand on: errors, items, queries, steps and the item store.
#![tactic(auto)]

mod errors;
mod gives;
mod hints;
mod item_store;
mod items;
pub mod laws;
mod not_inserted;
mod queries;
mod steps;
mod text;
mod validation;
mod visits;

pub use errors::{
    DuplicateItem, ExtendError, ExtendUniqueError, Few, FromIterError, InsertError, Refused,
    TryReserveError,
};
pub use gives::Gives;
pub use hints::room_to_reserve;
pub use item_store::{IntoItems, ItemStore, Items, MAX_ITEMS};
pub use items::{IdHashItem, IdOrdItem, KeyOf, OwnKey};
pub use not_inserted::NotInserted;
pub use queries::{Comparable, Equivalent};
pub use steps::Steps;
pub use text::Text;
pub use validation::{ValidateCompact, ValidationError};
pub use visits::Visit;
