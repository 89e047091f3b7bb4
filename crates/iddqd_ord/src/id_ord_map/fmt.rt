//! `Debug` of a map, its entries and its guards. No text of these is in a contract.
use super::{Entry, IdOrdMap, IterMut, OccupiedEntry, RefMut, Shown, VacantEntry};
use iddqd_store::IdOrdItem;
use std::fmt::{self, Debug, Formatter, Write};

/// Written as a set of the items, in the order of their keys: `{first, second}`.
impl<T: Debug> Debug for IdOrdMap<T> {
    fn fmt<W: Write>(&self, f: &mut Formatter<W>) -> fmt::Result {
        f.debug_set().entries(self.iter()).finish()
    }
}

/// A map that is written with its keys, by `IdOrdMap::debug_with_keys`.
#[derive(Drop)]
pub struct DebugWithKeys<'a, T> {
    map: &'a IdOrdMap<T>,
}

impl<T> IdOrdMap<T> {
    /// Returns a value that `Debug` writes as the keys and their items: `{key: item}`. They stand in the order of the
    /// keys.
    pub fn debug_with_keys(&self) -> DebugWithKeys<'_, T> {
        DebugWithKeys { map: self }
    }
}

impl<'a, T: IdOrdItem + Debug> Debug for DebugWithKeys<'a, T>
where
    T::Key: Debug,
{
    fn fmt<W: Write>(&self, f: &mut Formatter<W>) -> fmt::Result {
        let mut out = f.debug_map();
        for item in self.map {
            out.entry(item.key(), item);
        }
        out.finish()
    }
}

impl<'a, T: Debug> Debug for Entry<'a, T> {
    fn fmt<W: Write>(&self, f: &mut Formatter<W>) -> fmt::Result {
        match self {
            Entry::Vacant(entry) => f.debug_tuple("Vacant").field(entry).finish(),
            Entry::Occupied(entry) => f.debug_tuple("Occupied").field(entry).finish(),
        }
    }
}

impl<'a, T> Debug for VacantEntry<'a, T> {
    fn fmt<W: Write>(&self, f: &mut Formatter<W>) -> fmt::Result {
        f.debug_struct("VacantEntry").finish_non_exhaustive()
    }
}

impl<'a, T: Debug> Debug for OccupiedEntry<'a, T> {
    fn fmt<W: Write>(&self, f: &mut Formatter<W>) -> fmt::Result {
        f.debug_struct("OccupiedEntry")
            .field("item", self.get())
            .finish_non_exhaustive()
    }
}

/// Written as its item.
impl<'a, T: Debug> Debug for RefMut<'a, T> {
    fn fmt<W: Write>(&self, f: &mut Formatter<W>) -> fmt::Result {
        (**self).fmt(f)
    }
}

/// Written as its item.
impl<'a, T: Debug> Debug for Shown<'a, T> {
    fn fmt<W: Write>(&self, f: &mut Formatter<W>) -> fmt::Result {
        (**self).fmt(f)
    }
}

impl<'a, T> Debug for IterMut<'a, T> {
    fn fmt<W: Write>(&self, f: &mut Formatter<W>) -> fmt::Result {
        f.debug_struct("IterMut").finish_non_exhaustive()
    }
}
