//! Walks over a map of either kind that write.
use crate::maps::{Hashed, Ordered};
use iddqd::{IdHashItem, IdHashMap, IdOrdItem, IdOrdMap};
use std::hash::BuildHasher;

impl<T: IdOrdItem> Ordered<T> {
    /// Writes items by `iter_mut`, which is dropped after this many. Returns the map, and how many the walk had
    /// left.
    pub fn written<F: Fn(&mut T)>(self, most: usize, write: F) -> (IdOrdMap<T>, usize)
        requires { F.IsAlwaysCallable write }
    {
        let mut map = self.map;
        let mut walk = map.iter_mut();
        for _ in 0..most {
            if let Some(item) = walk.next() {
                write(item);
            }
        }
        let left = walk.len();
        (map, left)
    }
}

impl<T: IdHashItem, S: BuildHasher> Hashed<T, S> {
    /// Writes items by `iter_mut`, which is dropped after this many. Returns the map, and how many the walk had
    /// left.
    pub fn written<F: Fn(&mut T)>(self, most: usize, write: F) -> (IdHashMap<T, S>, usize)
        requires { F.IsAlwaysCallable write }
    {
        let mut map = self.map;
        let mut walk = map.iter_mut();
        for _ in 0..most {
            if let Some(item) = walk.next() {
                write(item);
            }
        }
        let left = walk.len();
        (map, left)
    }
}
