//! The ordered map, which visits its items in order and keeps no spare.
ghost use Rattle.iddqd.specs.Contents.{Ascends};
ghost use Rattle.iddqd.specs.Query.{differ_from_ascends};
ghost use Rattle.idtable_commands.specs.Step.{Ordered, spareless};

use super::KeyedMap;
use iddqd::errors::{InsertError, Refused, TryReserveError};
use iddqd::{IdOrdItem, IdOrdMap, Visit};

// Each call is the map's own of that name.
impl<T: IdOrdItem> KeyedMap for IdOrdMap<T> {
    type Item = T;

    type Key = T::Key;

    ghost key = { T.key };

    ghost state = { λ m. spareless m.items };

    ghost limit = { λ m. m.limit };

    ghost rule = { Ordered T.Key.cmp };

    ghost keyed = { λ m. Ascends T.key T.Key.cmp m.items };

    ghost differ = { λ m ascends. differ_from_ascends T.key T.Key.cmp T.Key.matches_eq m.items ascends };

    ghost lie = { λ m ascends. ascends };

    fn insert_unique(&mut self, item: T) -> Result<&mut (), InsertError<'_, T>> {
        self.insert_unique(item)
    }

    fn insert_overwrite(&mut self, item: T) -> Result<Option<T>, Refused<T>> {
        self.insert_overwrite(item)
    }

    fn get(&self, query: &T::Key) -> Option<&T> {
        self.get(query)
    }

    fn remove(&mut self, query: &T::Key) -> Option<T> {
        self.remove(query)
    }

    fn visit<V: Visit<T>>(&mut self, query: &T::Key, visitor: &mut V) -> Option<bool> {
        let mut found = self.get_mut(query)?;
        let answer = visitor.visit(&mut found);
        found.finish();
        Some(answer)
    }

    fn retain_mut<V: Visit<T>>(&mut self, visitor: &mut V)
    where
        T: Drop,
    {
        self.retain_mut(visitor);
    }

    fn clear(&mut self)
    where
        T: Drop,
    {
        self.clear();
    }

    fn reserve(&mut self, additional: usize) -> Result<(), TryReserveError> {
        self.reserve(additional)
    }

    fn shrink(&mut self) -> Result<(), TryReserveError> {
        self.shrink_to_fit()
    }

    fn len(&self) -> usize {
        self.len()
    }

    fn akin(&self, item: &T) -> Option<&T> {
        self.get(item.key())
    }

    fn lend_nothing(&mut self) -> &mut () {
        self.lend_nothing()
    }
}
