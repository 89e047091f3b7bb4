//! A map of either kind under test. A row over it is proved once, and each test that names the row costs a call. Of a
//! row that is generic in the map each test would prove what the kind of its map has to offer.
ghost use Rattle.std.specs.Iterator.{IsFiniteIterable as IsFinite};

use crate::caseless::{Caseless, Coarse, spelled};
use crate::coarse::{Copied, Put, Way};
use crate::items::Numbered;
use crate::maps::{Added, ByEntry, Hashed, Inserted, Ordered};
use crate::visitors::{Change, Untouched};
use iddqd::errors::{ExtendError, FromIterError, Refused, TryReserveError};
use iddqd::internal::ValidateCompact;
use iddqd::{DefaultHashBuilder, IdHashItem, IdHashMap, IdOrdItem, IdOrdMap, Text};
use std::alloc::{AllocError, Global};
use std::hash::{BuildHasher, Hash};
use std::process::Abort;

/// The kinds of map.
#[derive(Clone, Copy)]
pub enum Kind {
    Ordered,
    Hashed,
}

/// An ordered map or a hash map, which is keyed. A call without a comment is the map's of that name, or that of `Ordered`
/// and `Hashed`.
#[derive(Drop)]
pub enum Either<T: IdOrdItem + IdHashItem, S: BuildHasher = DefaultHashBuilder> {
    Ordered(Ordered<T>),
    Hashed(Hashed<T, S>),
}

// What is made of what holds the map, of either kind.
macro_rules! either {
    ($self:ident, $held:ident => $made:expr) => {
        match $self {
            Either::Ordered($held) => $made,
            Either::Hashed($held) => $made,
        }
    };
}

/// An empty ordered map.
pub fn in_order<T: IdOrdItem + IdHashItem>(alloc: Global) -> Either<T> {
    Either::Ordered(Ordered::new(IdOrdMap::new(alloc)))
}

/// An empty hash map.
pub fn by_hash<T: IdOrdItem + IdHashItem>(alloc: Global) -> Either<T> {
    Either::Hashed(Hashed::new(IdHashMap::new(alloc)))
}

/// An empty ordered map that never holds more items than the limit.
pub fn in_order_of<T: IdOrdItem + IdHashItem>(alloc: Global, limit: u32) -> Either<T> {
    Either::Ordered(Ordered::new(IdOrdMap::with_limit(alloc, limit)))
}

/// An empty hash map that never holds more items than the limit.
pub fn by_hash_of<T: IdOrdItem + IdHashItem>(alloc: Global, limit: u32) -> Either<T> {
    let hasher = DefaultHashBuilder::new();
    Either::Hashed(Hashed::new(IdHashMap::with_limit(alloc, limit, hasher)))
}

impl<K: Ord + Hash, T, S> Either<T, S>
where
    T: IdOrdItem<Key = K> + IdHashItem<Key = K> + Drop,
    S: BuildHasher,
{
    pub fn is_put(&mut self, item: T) -> bool {
        either!(self, held => held.is_put(item))
    }

    /// `insert_overwrite`.
    pub fn overwrite(&mut self, item: T) -> Result<Option<T>, Refused<T>> {
        either!(self, held => held.map.insert_overwrite(item))
    }

    pub fn extend<U: IntoIterator<Item = T>>(&mut self, items: U) -> Result<(), ExtendError<T>>
        requires ends { IsFinite U.into_iter_gives U.IntoIter.can_next U.IntoIter.remaining items }
    {
        either!(self, held => held.extend(items))
    }

    pub fn get(&self, key: &K) -> Option<&T> {
        either!(self, held => held.map.get(key))
    }

    /// `contains_key`.
    pub fn contains(&self, key: &K) -> bool {
        either!(self, held => held.map.contains_key(key))
    }

    pub fn get_counted(&self, key: &K) -> (Option<&T>, u32) {
        either!(self, held => held.get_counted(key))
    }

    pub fn remove(&mut self, key: &K) -> Option<T> {
        either!(self, held => held.map.remove(key))
    }

    pub fn retain<F: FnMut(&T) -> bool>(&mut self, keep: F)
        requires { F.IsAlwaysCallable keep }
    {
        either!(self, held => held.map.retain(keep))
    }

    pub fn clear(&mut self) {
        either!(self, held => held.map.clear())
    }

    pub fn len(&self) -> usize {
        either!(self, held => held.map.len())
    }

    /// Whether `iter` has these items, in this order.
    pub fn lists(&self, items: &[T]) -> bool
    where
        T: PartialEq,
    {
        either!(self, held => held.map.iter().eq(items))
    }

    /// Whether the map has these items, and no others.
    pub fn has_only(&self, items: &[T]) -> bool
    where
        T: PartialEq,
    {
        let are_there = items
            .iter()
            .all(|item| self.get(IdOrdItem::key(item)) == Some(item));
        are_there && self.len() == items.len()
    }

    pub fn reserve(&mut self, additional: usize) -> Result<(), TryReserveError> {
        either!(self, held => held.map.reserve(additional))
    }

    /// `try_reserve` of a hash map, and `reserve` of an ordered one, which has no such call.
    pub fn try_reserve(&mut self, additional: usize) -> Result<(), TryReserveError> {
        match self {
            Either::Ordered(held) => held.map.reserve(additional),
            Either::Hashed(held) => held.map.try_reserve(additional),
        }
    }

    pub fn shrink_to(&mut self, min: usize) -> Result<(), TryReserveError> {
        either!(self, held => held.map.shrink_to(min))
    }

    pub fn shrink_to_fit(&mut self) -> Result<(), TryReserveError> {
        either!(self, held => held.map.shrink_to_fit())
    }

    /// How many items fit, by the numbers that the map shows.
    pub fn room(&self) -> usize {
        match self {
            Either::Ordered(held) => held.map.capacity(),
            Either::Hashed(held) => held.map.spare(),
        }
    }

    pub fn capacity(&self) -> usize {
        either!(self, held => held.map.capacity())
    }

    pub fn vacant(&self) -> u32 {
        either!(self, held => held.map.vacant())
    }

    /// Whether `validate` finds no error, and whether `validate_structural` finds none.
    pub fn validates(&self, compact: ValidateCompact) -> (bool, bool) {
        either!(self, held => {
            let is_valid = held.map.validate(compact).is_ok();
            (is_valid, held.map.validate_structural(compact).is_ok())
        })
    }

    /// Whether there is no error, where slots may be vacant.
    pub fn is_sound(&self) -> bool {
        self.validates(ValidateCompact::NonCompact) == (true, true)
    }

    /// The same where none may be.
    pub fn is_compact(&self) -> bool {
        self.validates(ValidateCompact::Compact) == (true, true)
    }
}

impl<K: Ord + Hash, T, S> Either<T, S>
where
    T: IdOrdItem<Key = K> + IdHashItem<Key = K> + Copy + Drop,
    S: BuildHasher + Drop,
{
    /// Whether each of the items is inserted.
    pub fn are_put(&mut self, items: &[T]) -> bool {
        for item in items {
            if !self.is_put(*item) {
                return false;
            }
        }
        true
    }

    pub fn insert(&mut self, item: T) -> Inserted<T> {
        either!(self, held => held.insert(item))
    }

    pub fn add_each<U: IntoIterator<Item = T>>(&mut self, items: U) -> Added<T>
        requires ends { IsFinite U.into_iter_gives U.IntoIter.can_next U.IntoIter.remaining items }
    {
        either!(self, held => held.add_each(items))
    }

    /// The items of `iter`.
    pub fn listed(&self, alloc: Global) -> Result<Vec<T>, AllocError> {
        either!(self, held => held.map.iter().copied().collect(alloc))
    }

    /// How many items `iter` shows.
    pub fn walk(&self) -> usize {
        either!(self, held => held.map.iter().count())
    }

    /// `retain_mut`, which keeps each item, or none.
    pub fn visit_all(&mut self, keeps: bool) {
        either!(self, held => held.map.retain_mut(&mut Untouched { keeps }))
    }

    pub fn spend(&mut self, key: &K) -> bool {
        either!(self, held => held.spend(key))
    }

    /// `written`: how many items the walk had left. The map is dropped.
    pub fn written<F: Fn(&mut T)>(self, most: usize, write: F) -> usize
        requires { F.IsAlwaysCallable write }
    {
        either!(self, held => held.written(most, write).1)
    }

    pub fn enter(self, item: T, call: ByEntry) -> bool {
        either!(self, held => held.enter(item, call))
    }
}

impl<K: Ord + Hash, T: IdOrdItem<Key = K> + IdHashItem<Key = K> + Drop> Either<T> {
    /// `from_iter`, as a map of this kind.
    pub fn collected<U: IntoIterator<Item = T>>(
        kind: Kind,
        alloc: Global,
        items: U,
    ) -> Result<Self, TryReserveError>
        requires ends { IsFinite U.into_iter_gives U.IntoIter.can_next U.IntoIter.remaining items }
    {
        Either::collected_by(kind, alloc, items)
    }

    /// `from_iter_unique`, as a map of this kind.
    pub fn collected_unique<U: IntoIterator<Item = T>>(
        kind: Kind,
        alloc: Global,
        items: U,
    ) -> Result<Self, FromIterError<T>>
        requires ends { IsFinite U.into_iter_gives U.IntoIter.can_next U.IntoIter.remaining items }
    {
        Either::collected_unique_by(kind, alloc, items)
    }
}

impl<T: IdOrdItem<Key = String> + IdHashItem<Key = String>> Either<T> {
    /// `get` by a text.
    pub fn find(&self, name: &str) -> Option<&T> {
        either!(self, held => held.map.get(&Text(name)))
    }

    /// `contains_key` by a text.
    pub fn has_name(&self, name: &str) -> bool {
        either!(self, held => held.map.contains_key(&Text(name)))
    }

    /// `remove` by a text.
    pub fn take_out(&mut self, name: &str) -> Option<T> {
        either!(self, held => held.map.remove(&Text(name)))
    }
}

impl Either<Numbered> {
    pub fn visit(&mut self, number: u32, visitor: &mut Change) -> Option<bool> {
        either!(self, held => held.visit(number, visitor))
    }

    pub fn retain_mut(&mut self, visitor: &mut Change) {
        either!(self, held => held.map.retain_mut(visitor))
    }
}

impl<S: BuildHasher + Drop> Either<Coarse, S> {
    pub fn limit(&self) -> u32 {
        either!(self, held => held.map.limit())
    }

    /// The items of `into_iter`.
    pub fn walked_out(self, alloc: Global) -> Result<Vec<Coarse>, AllocError> {
        either!(self, held => held.map.into_iter().collect(alloc))
    }

    /// Whether both are of one kind and equal.
    pub fn equals(&self, other: &Self) -> bool {
        match (self, other) {
            (Either::Ordered(one), Either::Ordered(other)) => one.map.eq(&other.map),
            (Either::Hashed(one), Either::Hashed(other)) => one.map.eq(&other.map),
            _ => false,
        }
    }

    pub fn write_by_reborrow(&mut self, name: &Caseless, value: u32) -> Option<[Coarse; 3]> {
        either!(self, held => held.write_by_reborrow(name, value))
    }

    pub fn write_by_entry(self, name: &Caseless, value: u32) -> Option<(Coarse, Coarse)> {
        either!(self, held => held.write_by_entry(name, value))
    }

    pub fn remove_by_entry(&mut self, name: &Caseless) -> Option<Coarse> {
        either!(self, held => held.remove_by_entry(name))
    }

    pub fn put_vacant(&mut self, asked: &Caseless, item: Coarse) -> Put {
        either!(self, held => held.put_vacant(asked, item))
    }

    pub fn put_and_remove(&mut self, item: Coarse) -> Put {
        either!(self, held => held.put_and_remove(item))
    }

    pub fn insert_occupied(&mut self, item: Coarse) -> Option<Coarse> {
        either!(self, held => held.insert_occupied(item))
    }

    pub fn write(&mut self, name: &Caseless, value: u32) -> bool {
        either!(self, held => held.write(name, value))
    }

    pub fn double_or_put(&mut self, item: Coarse) -> Put {
        either!(self, held => held.double_or_put(item))
    }

    pub fn insert_and_write(&mut self, item: Coarse, value: u32) -> bool {
        either!(self, held => held.insert_and_write(item, value))
    }

    pub fn find_or_put(&mut self, item: Coarse, asked: &mut u32) -> Put {
        either!(self, held => held.find_or_put(item, asked))
    }

    pub fn respell(&mut self, asked: &Caseless, item: Coarse, way: Way) -> bool {
        either!(self, held => held.respell(asked, item, way))
    }

    /// The spelling and the value of the item of the name.
    pub fn spelled_at(&self, name: [u8; 3]) -> Option<([u8; 3], u32)> {
        self.get(&Caseless(name)).map(spelled)
    }

    /// Whether `validate` and `validate_structural` return the same: an error exactly if slots are vacant and none may
    /// be.
    pub fn is_valid(&self) -> bool {
        let is_compact = self.vacant() == 0;
        self.is_sound() && self.validates(ValidateCompact::Compact) == (is_compact, is_compact)
    }
}

impl<S: BuildHasher + Drop> Either<Coarse, S>
where
    Hashed<Coarse, S>: Copied,
{
    /// `clone`.
    pub fn copied(&self) -> Result<Self, TryReserveError> {
        match self {
            Either::Ordered(map) => Ok(Either::Ordered(map.copied()?)),
            Either::Hashed(map) => Ok(Either::Hashed(map.copied()?)),
        }
    }
}

impl<K: Ord + Hash, T, S> Either<T, S>
where
    T: IdOrdItem<Key = K> + IdHashItem<Key = K> + Drop,
    S: BuildHasher + Default + Drop,
{
    /// `from_iter`, by a hasher of any type.
    pub fn collected_by<U: IntoIterator<Item = T>>(
        kind: Kind,
        alloc: Global,
        items: U,
    ) -> Result<Self, TryReserveError>
        requires ends { IsFinite U.into_iter_gives U.IntoIter.can_next U.IntoIter.remaining items }
    {
        match kind {
            Kind::Ordered => Ok(Either::Ordered(Ordered::new(IdOrdMap::from_iter(alloc, items)?))),
            Kind::Hashed => Ok(Either::Hashed(Hashed::new(IdHashMap::from_iter(alloc, items)?))),
        }
    }

    /// `from_iter_unique`, by a hasher of any type.
    pub fn collected_unique_by<U: IntoIterator<Item = T>>(
        kind: Kind,
        alloc: Global,
        items: U,
    ) -> Result<Self, FromIterError<T>>
        requires ends { IsFinite U.into_iter_gives U.IntoIter.can_next U.IntoIter.remaining items }
    {
        match kind {
            Kind::Ordered => {
                let map = IdOrdMap::from_iter_unique(alloc, items)?;
                Ok(Either::Ordered(Ordered::new(map)))
            }
            Kind::Hashed => {
                let map = IdHashMap::from_iter_unique(alloc, items)?;
                Ok(Either::Hashed(Hashed::new(map)))
            }
        }
    }
}
