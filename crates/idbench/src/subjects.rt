//! The maps that are timed, under one trait: this library's, and std's with each key beside its item.
use crate::differences::{
    sum_changes_hashed, sum_changes_ordered, sum_lacking_hashed, sum_lacking_sorted,
};
use crate::items::{BenchKey, Item, Valued, item_of};
use iddqd::{IdHashMap, IdOrdMap};
use std::alloc::{AllocError, Global};
use std::collections::{BTreeMap, HashMap};
use std::hash::Hash;
use test_support::maps::{Hashed, Ordered};

/// A map that is timed.
pub(crate) trait Subject: Drop {
    /// What its items are found by.
    type Key: BenchKey;

    /// What goes in: it is made before the clock runs.
    type Load: Drop;

    /// The map once its items are written.
    type Written: Drop;

    /// Whether the map keeps its items in order.
    fn is_ordered() -> bool;

    /// A map without items.
    fn empty(alloc: Global) -> Self;

    /// A map without items that has room for this many; `None` if there is no such call, or no memory.
    fn with_room(_alloc: Global, _size: usize) -> Option<Self> {
        None
    }

    /// What goes in for the number.
    fn load(alloc: Global, number: u64) -> Result<Self::Load, AllocError>;

    /// Inserts the load, and returns whether its key was new.
    fn put(&mut self, load: Self::Load) -> bool;

    /// The value of the key's item.
    fn value(&self, key: &Self::Key) -> Option<u64>;

    /// Removes the key's item, and returns its value.
    fn take(&mut self, key: &Self::Key) -> Option<u64>;

    /// The sum of all values, by a walk.
    fn sum(&self) -> u64;

    /// How many items a clone has, which is dropped; 0 if memory was refused.
    fn copied(&self) -> usize;

    /// Adds one to the value of each item, by a walk that writes.
    fn raised(self) -> Self::Written;

    /// Moves the items out, in their order, into a vector.
    fn move_out(map: Self::Written, loads: &mut Vec<Self::Load>) -> Result<(), AllocError>;

    /// Removes the first item, and returns its value; `None` if there is none, or the map has no order.
    fn pop_first(&mut self) -> Option<u64> {
        None
    }

    /// Keeps the items whose value is even.
    fn keep_even(&mut self);

    /// The sum of the values of the items whose keys the other map lacks, of both maps.
    fn sum_changes(&self, later: &Self) -> u64;
}

impl<K: BenchKey> Subject for Hashed<Item<K>> {
    type Key = K;

    type Load = Item<K>;

    type Written = IdHashMap<Item<K>>;

    fn is_ordered() -> bool {
        false
    }

    fn empty(alloc: Global) -> Hashed<Item<K>> {
        Hashed::new(IdHashMap::new(alloc))
    }

    fn with_room(alloc: Global, size: usize) -> Option<Hashed<Item<K>>> {
        let map = IdHashMap::with_capacity(alloc, size).ok()?;
        Some(Hashed::new(map))
    }

    fn load(alloc: Global, number: u64) -> Result<Item<K>, AllocError> {
        item_of(alloc, number)
    }

    fn put(&mut self, load: Item<K>) -> bool {
        self.is_put(load)
    }

    fn value(&self, key: &K) -> Option<u64> {
        Some(self.map.get(key)?.value)
    }

    fn take(&mut self, key: &K) -> Option<u64> {
        Some(self.map.remove(key)?.value)
    }

    fn sum(&self) -> u64 {
        let mut sum = 0u64;
        for item in self.map().iter() {
            sum = sum.wrapping_add(item.value);
        }
        sum
    }

    fn copied(&self) -> usize {
        self.map().clone().map_or(0, |copy| copy.len())
    }

    fn raised(self) -> IdHashMap<Item<K>> {
        let size = self.map.len();
        self.written(size, |item| item.value = item.value.wrapping_add(1))
            .0
    }

    fn move_out(map: IdHashMap<Item<K>>, loads: &mut Vec<Item<K>>) -> Result<(), AllocError> {
        for load in map {
            loads.push(load)?;
        }
        Ok(())
    }

    fn keep_even(&mut self) {
        self.map.retain(|item| item.is_even());
    }

    fn sum_changes(&self, later: &Self) -> u64 {
        sum_changes_hashed(self, later)
    }
}

impl<K: BenchKey> Subject for Ordered<Item<K>> {
    type Key = K;

    type Load = Item<K>;

    type Written = IdOrdMap<Item<K>>;

    fn is_ordered() -> bool {
        true
    }

    fn empty(alloc: Global) -> Ordered<Item<K>> {
        Ordered::new(IdOrdMap::new(alloc))
    }

    fn load(alloc: Global, number: u64) -> Result<Item<K>, AllocError> {
        item_of(alloc, number)
    }

    fn put(&mut self, load: Item<K>) -> bool {
        self.is_put(load)
    }

    fn value(&self, key: &K) -> Option<u64> {
        Some(self.map.get(key)?.value)
    }

    fn take(&mut self, key: &K) -> Option<u64> {
        Some(self.map.remove(key)?.value)
    }

    fn sum(&self) -> u64 {
        let mut sum = 0u64;
        for item in self.map().iter() {
            sum = sum.wrapping_add(item.value);
        }
        sum
    }

    fn copied(&self) -> usize {
        self.map().clone().map_or(0, |copy| copy.len())
    }

    fn raised(self) -> IdOrdMap<Item<K>> {
        let size = self.map.len();
        self.written(size, |item| item.value = item.value.wrapping_add(1))
            .0
    }

    fn move_out(map: IdOrdMap<Item<K>>, loads: &mut Vec<Item<K>>) -> Result<(), AllocError> {
        for load in map {
            loads.push(load)?;
        }
        Ok(())
    }

    fn pop_first(&mut self) -> Option<u64> {
        Some(self.pop_first()?.value)
    }

    fn keep_even(&mut self) {
        self.map.retain(|item| item.is_even());
    }

    fn sum_changes(&self, later: &Self) -> u64 {
        sum_changes_ordered(self, later)
    }
}

// Keeps the items whose value is even. It is generic in what the map holds, since the borrow checker does not cover a
// closure over items that name the key's type.
fn keep_even_hashed<K: Eq + Hash + Drop, V: Valued + Drop>(map: &mut HashMap<K, V>) {
    map.retain(|_, item| item.is_even());
}

// The same of a sorted map.
fn keep_even_sorted<K: Ord + Drop, V: Valued + Drop>(map: &mut BTreeMap<K, V>) {
    map.retain(|_, item| item.is_even());
}

impl<K: BenchKey> Subject for HashMap<K, Item<K>> {
    type Key = K;

    type Load = (K, Item<K>);

    type Written = HashMap<K, Item<K>>;

    fn is_ordered() -> bool {
        false
    }

    fn empty(alloc: Global) -> HashMap<K, Item<K>> {
        HashMap::new(alloc)
    }

    fn with_room(alloc: Global, size: usize) -> Option<HashMap<K, Item<K>>> {
        HashMap::with_capacity(alloc, size).ok()
    }

    fn load(alloc: Global, number: u64) -> Result<(K, Item<K>), AllocError> {
        Ok((K::of_number(alloc, number)?, item_of(alloc, number)?))
    }

    fn put(&mut self, load: (K, Item<K>)) -> bool {
        matches!(self.insert(load.0, load.1), Ok(None))
    }

    fn value(&self, key: &K) -> Option<u64> {
        Some(self.get(key)?.value)
    }

    fn take(&mut self, key: &K) -> Option<u64> {
        Some(self.remove(key)?.value)
    }

    fn sum(&self) -> u64 {
        let mut sum = 0u64;
        for item in self.values() {
            sum = sum.wrapping_add(item.value);
        }
        sum
    }

    fn copied(&self) -> usize {
        self.clone().map_or(0, |copy| copy.len())
    }

    fn raised(mut self) -> HashMap<K, Item<K>> {
        for item in self.values_mut() {
            item.value = item.value.wrapping_add(1);
        }
        self
    }

    fn move_out(map: HashMap<K, Item<K>>, loads: &mut Vec<(K, Item<K>)>) -> Result<(), AllocError> {
        for load in map {
            loads.push(load)?;
        }
        Ok(())
    }

    fn keep_even(&mut self) {
        keep_even_hashed(self);
    }

    fn sum_changes(&self, later: &Self) -> u64 {
        sum_lacking_hashed(self, later).wrapping_add(sum_lacking_hashed(later, self))
    }
}

impl<K: BenchKey> Subject for BTreeMap<K, Item<K>> {
    type Key = K;

    type Load = (K, Item<K>);

    type Written = BTreeMap<K, Item<K>>;

    fn is_ordered() -> bool {
        true
    }

    fn empty(alloc: Global) -> BTreeMap<K, Item<K>> {
        BTreeMap::new(alloc)
    }

    fn load(alloc: Global, number: u64) -> Result<(K, Item<K>), AllocError> {
        Ok((K::of_number(alloc, number)?, item_of(alloc, number)?))
    }

    fn put(&mut self, load: (K, Item<K>)) -> bool {
        matches!(self.insert(load.0, load.1), Ok(None))
    }

    fn value(&self, key: &K) -> Option<u64> {
        Some(self.get(key)?.value)
    }

    fn take(&mut self, key: &K) -> Option<u64> {
        Some(self.remove(key)?.value)
    }

    fn sum(&self) -> u64 {
        let mut sum = 0u64;
        for item in self.values() {
            sum = sum.wrapping_add(item.value);
        }
        sum
    }

    fn copied(&self) -> usize {
        self.clone().map_or(0, |copy| copy.len())
    }

    fn raised(mut self) -> BTreeMap<K, Item<K>> {
        for item in self.values_mut() {
            item.value = item.value.wrapping_add(1);
        }
        self
    }

    fn move_out(
        map: BTreeMap<K, Item<K>>,
        loads: &mut Vec<(K, Item<K>)>,
    ) -> Result<(), AllocError> {
        for load in map {
            loads.push(load)?;
        }
        Ok(())
    }

    fn pop_first(&mut self) -> Option<u64> {
        Some(self.pop_first()?.1.value)
    }

    fn keep_even(&mut self) {
        keep_even_sorted(self);
    }

    fn sum_changes(&self, later: &Self) -> u64 {
        sum_lacking_sorted(self, later).wrapping_add(sum_lacking_sorted(later, self))
    }
}
