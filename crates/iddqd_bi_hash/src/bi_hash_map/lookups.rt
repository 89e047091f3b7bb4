//! Lookups and removals by one of the keys.
ghost use Rattle.std.specs.Prelude.{◌≡◌, IfNone, IfSome, Some, is_some};
ghost use Rattle.iddqd_store.specs.Contents.{AddsItem, Finds, IsAbsent, RemovesFound, find_item};
ghost use Rattle.iddqd_store.specs.Holding.{Removes};

use super::{BiHashMap, Keyed};
use crate::items::BiHashItem;
use iddqd_store::Equivalent;
use std::hash::{BuildHasher, Hash};

impl<T: BiHashItem, S: BuildHasher> BiHashMap<T, S> {
    ghost use Rattle.iddqd_hash_parts.specs.HashItems.{HasHash, HashesAsKeys};
    ghost use Rattle.iddqd_bi_hash.specs.BiHashItems.{holding_of};
    ghost use Rattle.iddqd_bi_hash.specs.BiHashMap.{BiStays, SpareFits};

    /// Returns the item that the query finds by the first key, or `None`. Hashes the query once, and compares at most as
    /// many keys as have its hash. Does not allocate.
    #[inline]
    pub fn get1<Q: Hash + Equivalent<T::K1>>(&self, query: &Q) -> Option<&T>
        requires keyed { ⟦<Self as Keyed>⟧.keyed self.now }
        requires hashes { HashesAsKeys Q.equivalent Q.hash_input T.K1.hash_input query.now }
        ensures found { Finds T.key1 (Q.equivalent query.now) self.now.items result }
        ensures spare_fits { SpareFits self.now }
    {
        let hash = self.hasher.hash_one(query);
        let found = self.slot_by_key1(hash, query)?;
        Some(self.item_in_slot(found))
    }

    /// Returns the item that the query finds by the second key, or `None`. Hashes the query once, and compares at most as
    /// many keys as have its hash. Does not allocate.
    #[inline]
    pub fn get2<Q: Hash + Equivalent<T::K2>>(&self, query: &Q) -> Option<&T>
        requires keyed { ⟦<Self as Keyed>⟧.keyed self.now }
        requires hashes { HashesAsKeys Q.equivalent Q.hash_input T.K2.hash_input query.now }
        ensures found { Finds T.key2 (Q.equivalent query.now) self.now.items result }
        ensures spare_fits { SpareFits self.now }
    {
        let hash = self.hasher.hash_one(query);
        let found = self.slot_by_key2(hash, query)?;
        Some(self.item_in_slot(found))
    }

    /// Returns true if the query finds an item by the first key, by as many comparisons as `get1`. Hashes the query
    /// once. Does not allocate.
    #[inline]
    pub fn contains_key1<Q: Hash + Equivalent<T::K1>>(&self, query: &Q) -> bool
        requires keyed { ⟦<Self as Keyed>⟧.keyed self.now }
        requires hashes { HashesAsKeys Q.equivalent Q.hash_input T.K1.hash_input query.now }
        ensures { result ≡ is_some (find_item T.key1 (Q.equivalent query.now) self.now.items) }
    {
        self.get1(query).is_some()
    }

    /// Returns true if the query finds an item by the second key, by as many comparisons as `get2`. Hashes the query
    /// once. Does not allocate.
    #[inline]
    pub fn contains_key2<Q: Hash + Equivalent<T::K2>>(&self, query: &Q) -> bool
        requires keyed { ⟦<Self as Keyed>⟧.keyed self.now }
        requires hashes { HashesAsKeys Q.equivalent Q.hash_input T.K2.hash_input query.now }
        ensures { result ≡ is_some (find_item T.key2 (Q.equivalent query.now) self.now.items) }
    {
        self.get2(query).is_some()
    }

    /// Removes and returns the item that the query finds by the first key. Its slot becomes vacant, and its room is
    /// spare. If there is none, it returns `None` and changes nothing. Hashes the query once, and the item's other key
    /// once. Does not allocate.
    pub fn remove1<Q: Hash + Equivalent<T::K1>>(&mut self, query: &Q) -> Option<T>
        requires keyed { ⟦<Self as Keyed>⟧.keyed self.old }
        requires hashes { HashesAsKeys Q.equivalent Q.hash_input T.K1.hash_input query.now }

        // what is removed
        ensures value { result ≡ find_item T.key1 (Q.equivalent query.now) self.old.items }
        ensures items { RemovesFound T.key1 (Q.equivalent query.now) self.old.items self.new.items }
        ensures removed { Removes result (holding_of self.old) (holding_of self.new) }
        ensures alone { IfSome result (λ y. AddsItem y self.new.items self.old.items) }
        ensures gone1 { IfSome result (λ y. IsAbsent T.key1 (T.K1.eq (T.key1 y)) self.new.items) }
        ensures gone2 { IfSome result (λ y. IsAbsent T.key2 (T.K2.eq (T.key2 y)) self.new.items) }
        ensures unchanged { IfNone result (self.new ≡ self.old) }

        // what stays
        ensures stays { BiStays ⟦<Self as Keyed>⟧.keyed self.old self.new }
    {
        let hash = self.hasher.hash_one(query);
        self.remove_hashed1(hash, query)
    }

    /// Removes and returns the item that the query finds by the second key. Its slot becomes vacant, and its room is
    /// spare. If there is none, it returns `None` and changes nothing. Hashes the query once, and the item's other key
    /// once. Does not allocate.
    pub fn remove2<Q: Hash + Equivalent<T::K2>>(&mut self, query: &Q) -> Option<T>
        requires keyed { ⟦<Self as Keyed>⟧.keyed self.old }
        requires hashes { HashesAsKeys Q.equivalent Q.hash_input T.K2.hash_input query.now }

        // what is removed
        ensures value { result ≡ find_item T.key2 (Q.equivalent query.now) self.old.items }
        ensures items { RemovesFound T.key2 (Q.equivalent query.now) self.old.items self.new.items }
        ensures removed { Removes result (holding_of self.old) (holding_of self.new) }
        ensures alone { IfSome result (λ y. AddsItem y self.new.items self.old.items) }
        ensures gone1 { IfSome result (λ y. IsAbsent T.key1 (T.K1.eq (T.key1 y)) self.new.items) }
        ensures gone2 { IfSome result (λ y. IsAbsent T.key2 (T.K2.eq (T.key2 y)) self.new.items) }
        ensures unchanged { IfNone result (self.new ≡ self.old) }

        // what stays
        ensures stays { BiStays ⟦<Self as Keyed>⟧.keyed self.old self.new }
    {
        let hash = self.hasher.hash_one(query);
        self.remove_hashed2(hash, query)
    }

    // As `remove1`. The hash is that of each key for which the query stands.
    pub(super) fn remove_hashed1<Q: Equivalent<T::K1>>(&mut self, hash: u64, query: &Q) -> Option<T>
        requires keyed { ⟦<Self as Keyed>⟧.keyed self.old }
        requires hash { HasHash ⟦<Self as Keyed>⟧.hash self.old (Q.equivalent query.now) T.K1.hash_input hash }

        // what is removed
        ensures value { result ≡ find_item T.key1 (Q.equivalent query.now) self.old.items }
        ensures items { RemovesFound T.key1 (Q.equivalent query.now) self.old.items self.new.items }
        ensures removed { Removes result (holding_of self.old) (holding_of self.new) }
        ensures alone { IfSome result (λ y. AddsItem y self.new.items self.old.items) }
        ensures gone1 { IfSome result (λ y. IsAbsent T.key1 (T.K1.eq (T.key1 y)) self.new.items) }
        ensures gone2 { IfSome result (λ y. IsAbsent T.key2 (T.K2.eq (T.key2 y)) self.new.items) }
        ensures unchanged { IfNone result (self.new ≡ self.old) }

        // what stays
        ensures stays { BiStays ⟦<Self as Keyed>⟧.keyed self.old self.new }
    {
        let slot = self.slot_by_key1(hash, query)?;
        let other = self.hasher.hash_one(self.item_in_slot(slot).key2());
        Some(self.take_hashed(hash, other, slot))
    }

    // As `remove2`. The hash is that of each key for which the query stands.
    pub(super) fn remove_hashed2<Q: Equivalent<T::K2>>(&mut self, hash: u64, query: &Q) -> Option<T>
        requires keyed { ⟦<Self as Keyed>⟧.keyed self.old }
        requires hash { HasHash ⟦<Self as Keyed>⟧.hash self.old (Q.equivalent query.now) T.K2.hash_input hash }

        // what is removed
        ensures value { result ≡ find_item T.key2 (Q.equivalent query.now) self.old.items }
        ensures items { RemovesFound T.key2 (Q.equivalent query.now) self.old.items self.new.items }
        ensures removed { Removes result (holding_of self.old) (holding_of self.new) }
        ensures alone { IfSome result (λ y. AddsItem y self.new.items self.old.items) }
        ensures gone1 { IfSome result (λ y. IsAbsent T.key1 (T.K1.eq (T.key1 y)) self.new.items) }
        ensures gone2 { IfSome result (λ y. IsAbsent T.key2 (T.K2.eq (T.key2 y)) self.new.items) }
        ensures unchanged { IfNone result (self.new ≡ self.old) }

        // what stays
        ensures stays { BiStays ⟦<Self as Keyed>⟧.keyed self.old self.new }
    {
        let slot = self.slot_by_key2(hash, query)?;
        let other = self.hasher.hash_one(self.item_in_slot(slot).key1());
        Some(self.take_hashed(other, hash, slot))
    }
}
