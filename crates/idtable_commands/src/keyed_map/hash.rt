//! The hash map, which visits its items in any order and keeps its spare.
ghost use Rattle.iddqd.specs.IdHashMap.{IsKeyed, differ_from_keyed};
ghost use Rattle.iddqd.specs.Hashing.{hash_under};
ghost use Rattle.idtable_commands.specs.Step.{Hashed};

use super::KeyedMap;
use iddqd::errors::{InsertError, Refused, TryReserveError};
use iddqd::{IdHashItem, IdHashMap, Visit};
use std::hash::BuildHasher;

// Each call is the map's own of that name.
impl<T: IdHashItem, S: BuildHasher> KeyedMap for IdHashMap<T, S> {
    type Item = T;

    type Key = T::Key;

    ghost key = { T.key };

    ghost state = { λ m. record { items = m.items; spare = m.spare } };

    ghost limit = { λ m. m.limit };

    ghost rule = { Hashed };

    ghost keyed = { IsKeyed T.key T.Key.eq T.Key.hash_input (hash_under S.BuildHasher S.Hasher.Hasher) };

    ghost differ = { differ_from_keyed T.key T.Key.eq T.Key.hash_input (hash_under S.BuildHasher S.Hasher.Hasher) };

    ghost lie = { differ_from_keyed T.key T.Key.eq T.Key.hash_input (hash_under S.BuildHasher S.Hasher.Hasher) };

    fn insert_unique(&mut self, item: T) -> Result<&mut (), InsertError<'_, T>> {
        self.insert_unique(item)
    }

    fn insert_overwrite(&mut self, item: T) -> Result<Option<T>, Refused<T>> {
        self.insert_overwrite(item)
    }

    fn get(&self, query: &T::Key) -> Option<&T> {
        self.get(query)
    }

    fn remove(&mut self, query: &T::Key) -> Option<T> {
        self.remove(query)
    }

    fn visit<V: Visit<T>>(&mut self, query: &T::Key, visitor: &mut V) -> Option<bool> {
        let mut found = self.get_mut(query)?;
        let answer = visitor.visit(&mut found);
        found.finish();
        Some(answer)
    }

    fn retain_mut<V: Visit<T>>(&mut self, visitor: &mut V)
    where
        T: Drop,
    {
        self.retain_mut(visitor);
    }

    fn clear(&mut self)
    where
        T: Drop,
    {
        self.clear();
    }

    fn reserve(&mut self, additional: usize) -> Result<(), TryReserveError> {
        self.reserve(additional)
    }

    fn shrink(&mut self) -> Result<(), TryReserveError> {
        self.shrink_to_fit()
    }

    fn len(&self) -> usize {
        self.len()
    }

    fn akin(&self, item: &T) -> Option<&T> {
        self.get(item.key())
    }

    fn lend_nothing(&mut self) -> &mut () {
        self.lend_nothing()
    }
}
