//! Why an item was not inserted, before the existing item is lent.

/// Why an item was not inserted. `R` is what a refusal returns.
#[doc(hidden)]
#[derive(Drop)]
pub enum NotInserted<T, R> {
    /// An item of an equal key exists: the new item, and the slot of that one.
    Akin(T, u32),
    /// There was no room.
    NoRoom(R),
}
