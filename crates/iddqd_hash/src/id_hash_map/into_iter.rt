//! The items of a consumed map, in no particular order.
ghost use Rattle.std.specs.Prelude.{◌≡◌};

use super::IdHashMap;
use iddqd_hash_parts::IntoIter;

impl<T: Drop, S: Drop> IntoIterator for IdHashMap<T, S> {
    type Item = T;

    type IntoIter = IntoIter<T>;

    ghost into_iter_gives = { λ map it. it ≡ map.items };

    fn into_iter(self) -> IntoIter<T> {
        let IdHashMap {
            store,
            index: _,
            hasher: _,
            done: _,
        } = self;
        IntoIter::over(store)
    }
}
