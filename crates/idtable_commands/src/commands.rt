//! Commands of a map, and their replies.
use iddqd::errors::TryReserveError;

/// One call on a map of items `T` with keys `K`. A visitor is a `V`.
#[derive(Clone, Debug, PartialEq, Eq, Drop)]
pub enum Command<T, K, V> {
    /// `insert_unique`.
    InsertUnique(T),
    /// `insert_overwrite`.
    InsertOverwrite(T),
    /// `get`. The reply has a clone.
    Get(K),
    /// `remove`.
    Remove(K),
    /// `visit`: the item stays as the visit made it, whatever the visit returns.
    Visit(K, V),
    /// `retain_mut`.
    RetainMut(V),
    /// `clear`.
    Clear,
    /// `reserve`.
    Reserve(usize),
    /// `shrink`.
    Shrink,
    /// `len`.
    Len,
    /// `extend_unique`.
    ExtendUnique(Vec<T>),
}

/// The reply to one command.
#[derive(Debug, PartialEq, Eq, Drop)]
pub enum Reply<T> {
    /// The item is in.
    Inserted,
    /// An item of its key is there: a clone of that one, `None` only where memory for the clone was refused.
    Duplicate {
        /// The item, which comes back.
        new: T,
        /// A clone of the one that is there.
        existing: Option<T>,
    },
    /// The item is in, in the place of this one of its key.
    Replaced(T),
    /// A clone of the item.
    Found(T),
    /// The item, taken out.
    Removed(T),
    /// No item has the key.
    Absent,
    /// What the visit returned.
    Visited(bool),
    /// How many items stay.
    Kept(usize),
    /// It was done.
    Done,
    /// How many items there are.
    Length(usize),
    /// There was no room: for the item, which is returned, for the clone of `Get`'s item, or for what `Reserve` or
    /// `Shrink` needs.
    Refused {
        /// The item, where one comes back.
        item: Option<T>,
        /// Why.
        error: TryReserveError,
    },
    /// All of the items are in: their number.
    Extended(usize),
    /// The first items are in, this many, and an item of an equal key exists for the next one. A clone of it is
    /// returned, or `None` if memory for the clone was refused.
    Conflict {
        /// The next item, which comes back.
        new: T,
        /// A clone of the one that is there.
        existing: Option<T>,
        /// How many items are in.
        after: usize,
    },
    /// The first items are in, this many, and there was no room for the next one, which is returned. Or none is in,
    /// since room to begin with was refused.
    Stopped {
        /// The next item, or `None` where room was refused.
        item: Option<T>,
        /// Why.
        error: TryReserveError,
        /// How many items are in.
        after: usize,
    },
}

/// Commands that were not run, because memory for the replies was refused.
#[derive(Debug, Drop)]
pub struct RunStop<T, K, V> {
    /// All of them, as they were passed.
    pub commands: Vec<Command<T, K, V>>,
}
