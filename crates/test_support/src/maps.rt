//! Maps under test, one of each kind. Their calls are the maps', and say nothing of what they leave. A test shows
//! that by what it finds, so that its proof carries no contract of the maps along.
ghost use Rattle.std.specs.Iterator.{IsFiniteIterable as IsFinite};
ghost use Rattle.iddqd.specs.Contents.{Ascends};
ghost use Rattle.iddqd.specs.IdHashMap.{HashItems, IsKeyed};
ghost use Rattle.iddqd.specs.Hashing.{hash_under};
ghost use Rattle.iddqd.specs.Holding.{Holding};

use crate::visitors::Untouched;
use iddqd::errors::{DuplicateItem, ExtendError, ExtendUniqueError, InsertError, TryReserveError};
use iddqd::{
    DefaultHashBuilder, IdHashItem, IdHashMap, IdOrdItem, IdOrdMap, Keyed, Steps, id_hash_map,
    id_ord_map,
};
use std::alloc::{AllocError, Global};
use std::hash::BuildHasher;
use std::marker::{Model, PhantomData};

/// What an insertion left: nothing in its way, the new item and the one that is there, or a refusal.
#[derive(Drop, PartialEq, Eq)]
pub enum Inserted<T> {
    Done,
    Duplicate(T, Option<T>),
    Refused(T, TryReserveError),
}

// The new item of a duplicate and the one that is there, copied.
fn both<T: Copy>(duplicate: &DuplicateItem<T, &T>) -> (T, Option<T>) {
    (
        *duplicate.new_item(),
        Some(**duplicate.duplicates().first()),
    )
}

// What an insertion with this error left, with what is lent copied.
pub(crate) fn outcome<T: Copy>(error: Option<InsertError<T>>) -> Inserted<T> {
    match error {
        None => Inserted::Done,
        Some(InsertError::Duplicate(duplicate)) => {
            let (new, there) = both(&duplicate);
            Inserted::Duplicate(new, there)
        }
        Some(InsertError::Refused(refused)) => Inserted::Refused(refused.item, refused.error),
    }
}

/// What adding many items left: all of them, the first conflict's new item and the one that is there, or a refusal.
#[derive(Drop, PartialEq, Eq)]
pub enum Added<T> {
    All,
    Conflict(T, Option<T>),
    Stopped(Option<T>, TryReserveError),
}

// The same of adding many.
fn ending<T: Copy>(error: Option<ExtendUniqueError<T>>) -> Added<T> {
    match error {
        None => Added::All,
        Some(ExtendUniqueError::Duplicate(conflict)) => {
            let (new, there) = both(&conflict);
            Added::Conflict(new, there)
        }
        Some(ExtendUniqueError::Refused(stopped)) => Added::Stopped(stopped.item, stopped.error),
    }
}

/// An ordered map under test. It is keyed. It names the keys' type for the borrow checker, which else does not cover
/// keys that hold references.
#[derive(Drop)]
pub struct Ordered<T: IdOrdItem> {
    /// The map.
    pub map: IdOrdMap<T>,
    keys: PhantomData<T::Key>,
}

impl<T: IdOrdItem> Model for Ordered<T> {
    ghost Value = { Holding T };

    ghost view = { λ ordered. ordered.map };

    ghost invariant = { λ ordered. Ascends T.key T.Key.cmp ordered.map.items };
}

/// A hash map under test. It is keyed.
#[derive(Drop)]
pub struct Hashed<T: IdHashItem, S: BuildHasher = DefaultHashBuilder> {
    /// The map.
    pub map: IdHashMap<T, S>,
    keys: PhantomData<T::Key>,
}

impl<T: IdHashItem, S: BuildHasher> Model for Hashed<T, S> {
    ghost Value = { HashItems S T };

    ghost view = { λ hashed. hashed.map };

    ghost invariant = { λ hashed. IsKeyed T.key T.Key.eq T.Key.hash_input (hash_under S.BuildHasher S.Hasher.Hasher) hashed.map };
}

/// An empty ordered map, under test.
pub fn in_order<T: IdOrdItem>(alloc: Global) -> Ordered<T> {
    Ordered::new(IdOrdMap::new(alloc))
}

/// An empty hash map, under test.
pub fn by_hash<T: IdHashItem>(alloc: Global) -> Hashed<T> {
    Hashed::new(IdHashMap::new(alloc))
}

impl<T: IdOrdItem> Ordered<T> {
    /// The map, under test.
    pub fn new(map: IdOrdMap<T>) -> Ordered<T>
        requires keyed { Ascends T.key T.Key.cmp map.items }
    {
        Ordered {
            map,
            keys: PhantomData,
        }
    }

    /// The map, for calls that take any.
    pub fn map(&self) -> &IdOrdMap<T>
        ensures keyed { Ascends T.key T.Key.cmp result.now.items }
    {
        &self.map
    }

    /// The map itself.
    pub fn into_map(self) -> IdOrdMap<T>
        ensures keyed { Ascends T.key T.Key.cmp result.items }
    {
        self.map
    }
}

impl<T: IdHashItem, S: BuildHasher> Hashed<T, S> {
    /// The map, under test.
    pub fn new(map: IdHashMap<T, S>) -> Hashed<T, S>
        requires keyed { ⟦<IdHashMap<T, S> as Keyed>⟧.keyed map }
    {
        Hashed {
            map,
            keys: PhantomData,
        }
    }

    /// The map, for calls that take any.
    pub fn map(&self) -> &IdHashMap<T, S>
        ensures keyed { ⟦<IdHashMap<T, S> as Keyed>⟧.keyed result.now }
    {
        &self.map
    }

    /// The map itself.
    pub fn into_map(self) -> IdHashMap<T, S>
        ensures keyed { ⟦<IdHashMap<T, S> as Keyed>⟧.keyed result }
    {
        self.map
    }
}

/// A call without a comment is the map's of that name.
impl<T: IdOrdItem + Drop> Ordered<T> {
    /// Whether `insert_unique` inserts the item.
    pub fn is_put(&mut self, item: T) -> bool {
        self.map.insert_unique(item).is_ok()
    }

    pub fn extend<U: IntoIterator<Item = T>>(&mut self, items: U) -> Result<(), ExtendError<T>>
        requires ends { IsFinite U.into_iter_gives U.IntoIter.can_next U.IntoIter.remaining items }
    {
        self.map.extend(items)
    }

    /// `get_counted`, and how many comparisons it took.
    pub fn get_counted(&self, key: &T::Key) -> (Option<&T>, u32) {
        let mut steps = Steps::new();
        let found = self.map.get_counted(key, &mut steps);
        (found, steps.count())
    }

    pub fn remove(&mut self, key: &T::Key) -> Option<T> {
        self.map.remove(key)
    }

    pub fn len(&self) -> usize {
        self.map.len()
    }
}

/// The same of a hash map.
impl<T: IdHashItem + Drop, S: BuildHasher> Hashed<T, S> {
    pub fn is_put(&mut self, item: T) -> bool {
        self.map.insert_unique(item).is_ok()
    }

    pub fn extend<U: IntoIterator<Item = T>>(&mut self, items: U) -> Result<(), ExtendError<T>>
        requires ends { IsFinite U.into_iter_gives U.IntoIter.can_next U.IntoIter.remaining items }
    {
        self.map.extend(items)
    }

    pub fn get_counted(&self, key: &T::Key) -> (Option<&T>, u32) {
        let mut steps = Steps::new();
        let found = self.map.get_counted(key, &mut steps);
        (found, steps.count())
    }
}

/// What is called on an entry.
#[derive(Clone, Copy)]
pub enum ByEntry {
    Nothing,
    /// `insert` if it is vacant, `insert` and `remove` if it is occupied.
    Insert,
    /// `and_modify`, and `insert_entry` if it is vacant.
    ModifyOrInsert,
    OrInsert,
    OrInsertWith,
}

// Whether nothing was refused. The guard that is lent is spent so.
macro_rules! is_lent {
    ($lent:expr, $spend:ident) => {
        match $lent {
            Ok(lent) => {
                let _ = lent.$spend();
                true
            }
            Err(_refused) => false,
        }
    };
}

// What `enter` does with the entry of the item's key.
macro_rules! entered {
    ($entry:expr, $module:ident, $item:ident, $call:ident) => {
        match $call {
            ByEntry::Nothing => matches!($entry, $module::Entry::Occupied(_)),
            ByEntry::Insert => match $entry {
                $module::Entry::Occupied(mut entry) => {
                    drop(entry.insert($item));
                    drop(entry.remove());
                    true
                }
                $module::Entry::Vacant(entry) => is_lent!(entry.insert($item), finish),
            },
            ByEntry::ModifyOrInsert => match $entry.and_modify(&mut Untouched { keeps: true }) {
                $module::Entry::Occupied(_) => true,
                $module::Entry::Vacant(entry) => entry.insert_entry($item).is_ok(),
            },
            ByEntry::OrInsert => is_lent!($entry.or_insert($item), finish),
            ByEntry::OrInsertWith => is_lent!($entry.or_insert_with(|| $item), into_ref),
        }
    };
}

/// Items are copied where a call lends or takes some.
impl<T: IdOrdItem + Copy + Drop> Ordered<T> {
    /// `insert_unique`.
    pub fn insert(&mut self, item: T) -> Inserted<T> {
        outcome(self.map.insert_unique(item).err())
    }

    /// `extend_unique`.
    pub fn add_each<U: IntoIterator<Item = T>>(&mut self, items: U) -> Added<T>
        requires ends { IsFinite U.into_iter_gives U.IntoIter.can_next U.IntoIter.remaining items }
    {
        ending(self.map.extend_unique(items).err())
    }

    /// The items of `iter`.
    pub fn listed(&self, alloc: Global) -> Result<Vec<T>, AllocError> {
        self.map.iter().copied().collect(alloc)
    }

    /// `get_mut`, and the guard is spent. Whether there was one.
    #[tactic(auto, using(iddqd::proofs::GuardLemmas::same_key_kept))]
    pub fn spend(&mut self, key: &T::Key) -> bool {
        let Some(lent) = self.map.get_mut(key) else {
            return false;
        };
        lent.finish();
        true
    }

    /// The call on the entry of the item's key. Whether nothing was refused, or whether the entry is occupied if nothing
    /// is called. The map is dropped then.
    pub fn enter(self, item: T, call: ByEntry) -> bool {
        let mut map = self.map;
        entered!(map.entry(item.key()), id_ord_map, item, call)
    }
}

/// The same of a hash map.
impl<T: IdHashItem + Copy + Drop, S: BuildHasher + Drop> Hashed<T, S> {
    pub fn insert(&mut self, item: T) -> Inserted<T> {
        outcome(self.map.insert_unique(item).err())
    }

    pub fn add_each<U: IntoIterator<Item = T>>(&mut self, items: U) -> Added<T>
        requires ends { IsFinite U.into_iter_gives U.IntoIter.can_next U.IntoIter.remaining items }
    {
        ending(self.map.extend_unique(items).err())
    }

    #[tactic(auto, using(iddqd::proofs::GuardLemmas::same_key_kept))]
    pub fn spend(&mut self, key: &T::Key) -> bool {
        let Some(lent) = self.map.get_mut(key) else {
            return false;
        };
        lent.finish();
        true
    }

    pub fn enter(self, item: T, call: ByEntry) -> bool {
        let mut map = self.map;
        entered!(map.entry(item.key()), id_hash_map, item, call)
    }
}
