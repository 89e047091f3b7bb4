//! `Debug` of a map, its entries and its guards. No text of these is in a contract.
use super::{Entry, IdHashMap, IterMut, OccupiedEntry, RefMut, Shown, VacantEntry};
use iddqd_store::IdHashItem;
use std::fmt::{self, Debug, Formatter, Write};

/// Written as a set of the items, in no particular order: `{one, another}`.
impl<T: Debug, S> Debug for IdHashMap<T, S> {
    fn fmt<W: Write>(&self, f: &mut Formatter<W>) -> fmt::Result {
        f.debug_set().entries(self.iter()).finish()
    }
}

/// A map that is written with its keys, by `IdHashMap::debug_with_keys`.
#[derive(Drop)]
pub struct DebugWithKeys<'a, T, S> {
    map: &'a IdHashMap<T, S>,
}

impl<T, S> IdHashMap<T, S> {
    /// Returns a value that `Debug` writes as the keys and their items: `{key: item}`. They stand in no particular
    /// order.
    pub fn debug_with_keys(&self) -> DebugWithKeys<'_, T, S> {
        DebugWithKeys { map: self }
    }
}

impl<'a, T: IdHashItem + Debug, S> Debug for DebugWithKeys<'a, T, S>
where
    T::Key: Debug,
{
    fn fmt<W: Write>(&self, f: &mut Formatter<W>) -> fmt::Result {
        let mut out = f.debug_map();
        for item in self.map {
            out.entry(item.key(), item);
        }
        out.finish()
    }
}

impl<'a, T: Debug, S> Debug for Entry<'a, T, S> {
    fn fmt<W: Write>(&self, f: &mut Formatter<W>) -> fmt::Result {
        match self {
            Entry::Vacant(entry) => f.debug_tuple("Vacant").field(entry).finish(),
            Entry::Occupied(entry) => f.debug_tuple("Occupied").field(entry).finish(),
        }
    }
}

impl<'a, T, S> Debug for VacantEntry<'a, T, S> {
    fn fmt<W: Write>(&self, f: &mut Formatter<W>) -> fmt::Result {
        f.debug_struct("VacantEntry").finish_non_exhaustive()
    }
}

impl<'a, T: Debug, S> Debug for OccupiedEntry<'a, T, S> {
    fn fmt<W: Write>(&self, f: &mut Formatter<W>) -> fmt::Result {
        f.debug_struct("OccupiedEntry")
            .field("item", self.get())
            .finish_non_exhaustive()
    }
}

/// Written as its item.
impl<'a, T: Debug, S> Debug for RefMut<'a, T, S> {
    fn fmt<W: Write>(&self, f: &mut Formatter<W>) -> fmt::Result {
        (**self).fmt(f)
    }
}

/// Written as its item.
impl<'a, T: Debug, S> Debug for Shown<'a, T, S> {
    fn fmt<W: Write>(&self, f: &mut Formatter<W>) -> fmt::Result {
        (**self).fmt(f)
    }
}

impl<'a, T, S> Debug for IterMut<'a, T, S> {
    fn fmt<W: Write>(&self, f: &mut Formatter<W>) -> fmt::Result {
        f.debug_struct("IterMut").finish_non_exhaustive()
    }
}
