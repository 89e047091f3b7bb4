//! `Debug` of a map, its entries, its walks and its guards. No text of these is in a contract.
use super::{BiHashMap, Entry, IterMut, OccupiedEntry, RefMut, Shown, VacantEntry};
use crate::items::BiHashItem;
use std::fmt::{self, Debug, Formatter, Write};

/// Written as a set of the items, in no particular order: `{one, another}`.
impl<T: Debug, S> Debug for BiHashMap<T, S> {
    fn fmt<W: Write>(&self, f: &mut Formatter<W>) -> fmt::Result {
        f.debug_set().entries(self.iter()).finish()
    }
}

/// A map that is written with its keys, by `BiHashMap::debug_with_keys`.
#[derive(Drop)]
pub struct DebugWithKeys<'a, T, S> {
    map: &'a BiHashMap<T, S>,
}

impl<T, S> BiHashMap<T, S> {
    /// Returns a value that `Debug` writes as the keys and their items: `{key: item}`. They stand in no particular
    /// order. The key is the pair of both: `{(key1, key2): item}`.
    pub fn debug_with_keys(&self) -> DebugWithKeys<'_, T, S> {
        DebugWithKeys { map: self }
    }
}

impl<'a, T: BiHashItem + Debug, S> Debug for DebugWithKeys<'a, T, S>
where
    T::K1: Debug,
    T::K2: Debug,
{
    fn fmt<W: Write>(&self, f: &mut Formatter<W>) -> fmt::Result {
        let mut out = f.debug_map();
        for item in self.map {
            out.entry(&(item.key1(), item.key2()), item);
        }
        out.finish()
    }
}

impl<'a, T: Debug, S> Debug for Entry<'a, T, S> {
    fn fmt<W: Write>(&self, f: &mut Formatter<W>) -> fmt::Result {
        match self {
            Entry::Vacant(entry) => f.debug_tuple("Vacant").field(entry).finish(),
            Entry::Occupied(entry) => f.debug_tuple("Occupied").field(entry).finish(),
        }
    }
}

impl<'a, T, S> Debug for VacantEntry<'a, T, S> {
    fn fmt<W: Write>(&self, f: &mut Formatter<W>) -> fmt::Result {
        f.debug_struct("VacantEntry").finish_non_exhaustive()
    }
}

impl<'a, T: Debug, S> Debug for OccupiedEntry<'a, T, S> {
    fn fmt<W: Write>(&self, f: &mut Formatter<W>) -> fmt::Result {
        f.debug_struct("OccupiedEntry")
            .field("items", &self.items())
            .finish_non_exhaustive()
    }
}

/// Written as its item.
impl<'a, T: Debug, S> Debug for RefMut<'a, T, S> {
    fn fmt<W: Write>(&self, f: &mut Formatter<W>) -> fmt::Result {
        (**self).fmt(f)
    }
}

/// Written as its item.
impl<'a, T: Debug, S> Debug for Shown<'a, T, S> {
    fn fmt<W: Write>(&self, f: &mut Formatter<W>) -> fmt::Result {
        (**self).fmt(f)
    }
}

impl<'a, T, S> Debug for IterMut<'a, T, S> {
    fn fmt<W: Write>(&self, f: &mut Formatter<W>) -> fmt::Result {
        f.debug_struct("IterMut").finish_non_exhaustive()
    }
}
