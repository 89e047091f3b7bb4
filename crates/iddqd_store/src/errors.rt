//! The errors of calls that insert or make room.
ghost use Rattle.std.specs.Prelude.{◌≡◌, ◌↔◌, IsTrue, IsOk, IfOk, IfErr, Some, map, length, slice_get, option_copied};
ghost use Rattle.std.specs.Iterator.{YieldsFirstRef, item_count};
ghost use Rattle.iddqd_store.specs.Contents.{ClonesAreEqual, ClonesSucceed};
ghost use Rattle.iddqd_store.specs.Errors.{OwnsDuplicatesOf, new_item_of, duplicates_of, values_of};
ghost use Rattle.iddqd_store.specs.Refusal.{limit_refused, memory_refused};

use std::error::Error;
use std::fmt::{self, Debug, Display, Formatter, Write};
use std::marker::Model;
use std::{alloc, io};

/// Why room was refused.
#[derive(Clone, Copy, Debug, PartialEq, Eq, thiserror::Error)]
pub(crate) enum TryReserveErrorKind {
    #[error("capacity overflow")]
    CapacityOverflow,
    #[error("memory allocation failed")]
    AllocError,
}

/// Room that was refused: by the map's limit, or because memory was refused. Contracts say which by *limit_refused*
/// and *memory_refused*.
#[derive(Clone, Copy, Debug, PartialEq, Eq, thiserror::Error)]
#[error(transparent)]
pub struct TryReserveError {
    kind: TryReserveErrorKind,
}

impl TryReserveError {
    /// The refusal of a full map. Public, for other maps over the store.
    #[doc(hidden)]
    pub fn capacity_overflow() -> Self
        ensures { result ≡ limit_refused }
    {
        TryReserveError {
            kind: TryReserveErrorKind::CapacityOverflow,
        }
    }

    /// The refusal of memory. Public, for other maps over the store.
    #[doc(hidden)]
    pub fn alloc_error() -> Self
        ensures { result ≡ memory_refused }
    {
        TryReserveError {
            kind: TryReserveErrorKind::AllocError,
        }
    }

    /// Returns whether the map's limit refused it.
    pub fn is_capacity_overflow(&self) -> bool
        ensures { IsTrue result ↔ (self.now ≡ limit_refused) }
    {
        self.kind == TryReserveErrorKind::CapacityOverflow
    }
}

impl From<TryReserveError> for alloc::AllocError {
    /// Returns a refusal of memory, whichever it was.
    fn from(_refused: TryReserveError) -> Self {
        alloc::AllocError
    }
}

impl From<TryReserveError> for io::Error {
    /// Returns an error of the kind `OutOfMemory`, whichever it was, as std does for its own.
    fn from(_refused: TryReserveError) -> Self {
        io::Error::from(alloc::AllocError)
    }
}

/// One, two or three values, in place. It does not allocate. Contracts see a list.
#[derive(Clone, Copy, Debug, Drop)]
pub enum Few<D> {
    /// One value.
    One(D),
    /// Two, in order.
    Two(D, D),
    /// Three, in order.
    Three(D, D, D),
}

impl<D> Few<D> {
    /// Returns the number of values.
    pub fn len(&self) -> usize
        ensures { result ≡ length (values_of self.now) }
    {
        match self {
            Few::One(_) => 1,
            Few::Two(_, _) => 2,
            Few::Three(_, _, _) => 3,
        }
    }

    /// Returns the first value.
    pub fn first(&self) -> &D
        ensures { slice_get (values_of self.now) 0 ≡ Some result.now }
    {
        match self {
            Few::One(a) | Few::Two(a, _) | Few::Three(a, _, _) => a,
        }
    }

    /// Returns the value at the position, counted from 0, or `None` past the end.
    pub fn get(&self, at: usize) -> Option<&D>
        ensures { option_copied result ≡ slice_get (values_of self.now) at }
    {
        match (self, at) {
            (Few::One(a) | Few::Two(a, _) | Few::Three(a, _, _), 0) => Some(a),
            (Few::Two(_, b) | Few::Three(_, b, _), 1) => Some(b),
            (Few::Three(_, _, c), 2) => Some(c),
            _ => None,
        }
    }
}

impl<D> Few<D> {
    /// Returns an iterator over the values, in order. Does not allocate.
    pub fn iter(&self) -> FewIter<'_, D>
        ensures { result ≡ values_of self.now }
    {
        FewIter { few: self, at: 0 }
    }
}

impl<'a, D> IntoIterator for &'a Few<D> {
    type Item = &'a D;

    type IntoIter = FewIter<'a, D>;

    ghost into_iter_gives = { λ few it. it ≡ values_of few.now };

    fn into_iter(self) -> FewIter<'a, D> {
        self.iter()
    }
}

/// An iterator over the values of a `Few`. Contracts see the values that are still to come.
#[derive(Drop)]
pub struct FewIter<'a, D> {
    few: &'a Few<D>,
    at: usize,
}

impl<'a, D> Model for FewIter<'a, D> {
    ghost use Rattle.std.specs.Prelude.{List, drop};
    ghost use Rattle.iddqd_store.specs.Errors.{values_of};

    ghost Value = { List D };

    ghost view = { λ it. drop it.at (values_of it.few.now) };
}

impl<'a, D> Iterator for FewIter<'a, D> {
    type Item = &'a D;

    ghost next_gives = { YieldsFirstRef (λ rest. rest) };

    ghost remaining = { item_count (λ rest. rest) };

    fn next(&mut self) -> Option<&'a D> {
        let value = self.few.get(self.at)?;
        self.at += 1;
        Some(value)
    }
}

/// A new item, and the items that have its key.
#[derive(Clone, Debug, Drop)]
pub struct DuplicateItem<T, D = T> {
    new: T,
    duplicates: Few<D>,
}

impl<T, D> DuplicateItem<T, D> {
    /// A new item and the existing items of an equal key.
    #[doc(hidden)]
    pub fn internal_new(new: T, duplicates: Few<D>) -> Self
        ensures new { new_item_of result ≡ new }
        ensures duplicates { duplicates_of result ≡ values_of duplicates }
    {
        DuplicateItem { new, duplicates }
    }

    /// Returns the item that was passed to the call.
    pub fn new_item(&self) -> &T
        ensures { result.now ≡ new_item_of self.now }
    {
        &self.new
    }

    /// Returns the existing items of an equal key.
    pub fn duplicates(&self) -> &Few<D>
        ensures { values_of result.now ≡ duplicates_of self.now }
    {
        &self.duplicates
    }

    /// Returns the item that was passed to the call, and the existing items of an equal key.
    pub fn into_parts(self) -> (T, Few<D>)
        ensures new { result.0 ≡ new_item_of self }
        ensures duplicates { values_of result.1 ≡ duplicates_of self }
    {
        let DuplicateItem { new, duplicates } = self;
        (new, duplicates)
    }
}

impl<'a, T: Clone> DuplicateItem<T, &'a T> {
    /// Returns the same error with clones of the existing items. If memory for a clone is refused, it returns the
    /// error itself. So it succeeds if the items' clones do not allocate.
    /// A clone has to equal its item, as contracts see it. An item that holds a `String` does, by a model that
    /// shows the text's bytes.
    pub fn into_owned(self) -> Result<DuplicateItem<T>, Self>
        requires clones { ClonesAreEqual T.is_clone }
        ensures new { IfOk result (λ owned. new_item_of owned ≡ new_item_of self.entry) }
        ensures duplicates { IfOk result (OwnsDuplicatesOf self.entry) }
        ensures back { IfErr result (λ back. back ≡ self.entry) }
        ensures succeeds { ClonesSucceed T.is_infallible → IsOk result }
    {
        match self.duplicates.cloned() {
            Ok(duplicates) => Ok(DuplicateItem {
                new: self.new,
                duplicates,
            }),
            Err(_) => Err(self),
        }
    }
}

impl<T: Clone> Few<&T> {
    // Returns a clone of each value.
    fn cloned(&self) -> Result<Few<T>, alloc::AllocError>
        requires clones { ClonesAreEqual T.is_clone }
        ensures values { IfOk result (λ few. values_of few ≡ map (λ lent. lent.now) (values_of self.now)) }
        ensures succeeds { ClonesSucceed T.is_infallible → IsOk result }
    {
        match self {
            Few::One(a) => Ok(Few::One((**a).clone()?)),
            Few::Two(a, b) => Ok(Few::Two((**a).clone()?, (**b).clone()?)),
            Few::Three(a, b, c) => Ok(Few::Three((**a).clone()?, (**b).clone()?, (**c).clone()?)),
        }
    }
}

impl<T: Debug, D: Debug> Display for DuplicateItem<T, D> {
    fn fmt<W: Write>(&self, f: &mut Formatter<W>) -> fmt::Result {
        write!(f, "new item: {:?} conflicts with existing: ", self.new)?;
        self.duplicates.fmt_listed(f)
    }
}

impl<D: Debug> Few<D> {
    // Writes the values as `Debug` writes a list.
    fn fmt_listed<W: Write>(&self, f: &mut Formatter<W>) -> fmt::Result {
        match self {
            Few::One(a) => write!(f, "[{a:?}]"),
            Few::Two(a, b) => write!(f, "[{a:?}, {b:?}]"),
            Few::Three(a, b, c) => write!(f, "[{a:?}, {b:?}, {c:?}]"),
        }
    }
}

impl<T: Debug + Drop, D: Debug + Drop> Error for DuplicateItem<T, D> {}

/// An item that was refused, and why.
#[derive(Debug, Drop)]
pub struct Refused<T> {
    /// The item that was passed to the call.
    pub item: T,
    /// Whether the map is full or memory was refused.
    pub error: TryReserveError,
}

impl<T: Debug> Display for Refused<T> {
    fn fmt<W: Write>(&self, f: &mut Formatter<W>) -> fmt::Result {
        write!(f, "item {:?} was refused: {}", self.item, self.error)
    }
}

impl<T: Debug + Drop> Error for Refused<T> {}

/// Why an item was not inserted.
#[derive(Debug, Drop)]
pub enum InsertError<'a, T> {
    /// An equal key exists: the new item, and the existing one. A map of two keys shows both items that it meets.
    Duplicate(DuplicateItem<T, &'a T>),
    /// There was no room.
    Refused(Refused<T>),
}

impl<'a, T: Debug> Display for InsertError<'a, T> {
    fn fmt<W: Write>(&self, f: &mut Formatter<W>) -> fmt::Result {
        match self {
            InsertError::Duplicate(duplicate) => write!(f, "{duplicate}"),
            InsertError::Refused(refused) => write!(f, "{refused}"),
        }
    }
}

impl<'a, T: Debug + Drop> Error for InsertError<'a, T> {}

/// Why the items of an iterator were not all inserted.
#[derive(Debug, Drop)]
pub struct ExtendError<T> {
    /// The first item that was refused. `None` if room was refused before the iterator was asked for an item.
    pub item: Option<T>,
    /// Whether the map is full or memory was refused.
    pub error: TryReserveError,
}

impl<T: Debug> Display for ExtendError<T> {
    fn fmt<W: Write>(&self, f: &mut Formatter<W>) -> fmt::Result {
        match &self.item {
            Some(item) => write!(f, "item {item:?} was refused: {}", self.error),
            None => write!(f, "room was refused: {}", self.error),
        }
    }
}

impl<T: Debug + Drop> Error for ExtendError<T> {}

/// Why no map was made of an iterator's items.
#[derive(Debug, Drop)]
pub enum FromIterError<T> {
    /// An item has a key of an earlier one: the later item as the new one, and the earlier one. Of a map of two keys it
    /// has both earlier items that the later one meets.
    Duplicate(DuplicateItem<T>),
    /// There was no room.
    Refused(TryReserveError),
}

impl<T: Debug> Display for FromIterError<T> {
    fn fmt<W: Write>(&self, f: &mut Formatter<W>) -> fmt::Result {
        match self {
            FromIterError::Duplicate(duplicate) => write!(f, "{duplicate}"),
            FromIterError::Refused(error) => write!(f, "room was refused: {error}"),
        }
    }
}

impl<T: Debug + Drop> Error for FromIterError<T> {}

/// Why the items of an iterator were not all inserted by a call that replaces none.
#[derive(Debug, Drop)]
pub enum ExtendUniqueError<'a, T> {
    /// An item of an equal key exists, from before or from the iterator: the new item, and the existing one. Of a map
    /// of two keys it has both existing items that the new one meets.
    Duplicate(DuplicateItem<T, &'a T>),
    /// There was no room.
    Refused(ExtendError<T>),
}

impl<'a, T: Debug> Display for ExtendUniqueError<'a, T> {
    fn fmt<W: Write>(&self, f: &mut Formatter<W>) -> fmt::Result {
        match self {
            ExtendUniqueError::Duplicate(duplicate) => write!(f, "{duplicate}"),
            ExtendUniqueError::Refused(refused) => write!(f, "{refused}"),
        }
    }
}

impl<'a, T: Debug + Drop> Error for ExtendUniqueError<'a, T> {}
