//! Lookups and removals by both keys of one item.
ghost use Rattle.std.specs.Prelude.{◌≡◌, IfNone, IfSome, is_some};
ghost use Rattle.iddqd_store.specs.Contents.{AddsItem, IsAbsent};
ghost use Rattle.iddqd_store.specs.Holding.{Removes};
ghost use Rattle.iddqd_bi_hash.specs.TwoKeys.{FindsByBoth, RemovesByBoth, find_by_both};

use super::{BiHashMap, Keyed};
use crate::items::BiHashItem;
use iddqd_store::Equivalent;
use std::hash::{BuildHasher, Hash};

impl<T: BiHashItem, S: BuildHasher> BiHashMap<T, S> {
    ghost use Rattle.iddqd_hash_parts.specs.HashItems.{HashesAsKeys};
    ghost use Rattle.iddqd_bi_hash.specs.BiHashItems.{holding_of};
    ghost use Rattle.iddqd_bi_hash.specs.BiHashMap.{BiStays, SpareFits};

    /// Returns the item that both queries find, or `None`. Searches by the first key, by as many comparisons as `get1`,
    /// and compares the second key of the item that this finds. Hashes the first query once. Does not allocate.
    pub fn get_unique<Q: Hash + Equivalent<T::K1>, R: Equivalent<T::K2>>(
        &self,
        query1: &Q,
        query2: &R,
    ) -> Option<&T>
        requires keyed { ⟦<Self as Keyed>⟧.keyed self.now }
        requires hashes { HashesAsKeys Q.equivalent Q.hash_input T.K1.hash_input query1.now }
        ensures found { FindsByBoth T.key1 T.key2 (Q.equivalent query1.now) (R.equivalent query2.now) self.now.items result }
        ensures spare_fits { SpareFits self.now }
    {
        let hash = self.hasher.hash_one(query1);
        let found = self.slot_by_both(hash, query1, query2)?;
        Some(self.item_in_slot(found))
    }

    /// Returns true if both queries find one item, by as many comparisons as `get_unique`. Hashes the first query once.
    /// Does not allocate.
    pub fn contains_key_unique<Q: Hash + Equivalent<T::K1>, R: Equivalent<T::K2>>(
        &self,
        query1: &Q,
        query2: &R,
    ) -> bool
        requires keyed { ⟦<Self as Keyed>⟧.keyed self.now }
        requires hashes { HashesAsKeys Q.equivalent Q.hash_input T.K1.hash_input query1.now }
        ensures found { result ≡ is_some (find_by_both T.key1 T.key2 (Q.equivalent query1.now) (R.equivalent query2.now) self.now.items) }
        ensures spare_fits { SpareFits self.now }
    {
        self.get_unique(query1, query2).is_some()
    }

    /// Removes and returns the item that both queries find. Its slot becomes vacant, and its room is spare. If there is
    /// none, it returns `None` and changes nothing. Makes as many comparisons as `get_unique`. Hashes the first query
    /// once, and the second key of the removed item once. Does not allocate.
    pub fn remove_unique<Q: Hash + Equivalent<T::K1>, R: Equivalent<T::K2>>(
        &mut self,
        query1: &Q,
        query2: &R,
    ) -> Option<T>
        requires keyed { ⟦<Self as Keyed>⟧.keyed self.old }
        requires hashes { HashesAsKeys Q.equivalent Q.hash_input T.K1.hash_input query1.now }

        // what is removed
        ensures value { result ≡ find_by_both T.key1 T.key2 (Q.equivalent query1.now) (R.equivalent query2.now) self.old.items }
        ensures items { RemovesByBoth T.key1 T.key2 (Q.equivalent query1.now) (R.equivalent query2.now) self.old.items self.new.items }
        ensures removed { Removes result (holding_of self.old) (holding_of self.new) }
        ensures alone { IfSome result (λ y. AddsItem y self.new.items self.old.items) }
        ensures gone1 { IfSome result (λ y. IsAbsent T.key1 (T.K1.eq (T.key1 y)) self.new.items) }
        ensures gone2 { IfSome result (λ y. IsAbsent T.key2 (T.K2.eq (T.key2 y)) self.new.items) }
        ensures unchanged { IfNone result (self.new ≡ self.old) }

        // what stays
        ensures stays { BiStays ⟦<Self as Keyed>⟧.keyed self.old self.new }
    {
        let hash = self.hasher.hash_one(query1);
        let slot = self.slot_by_both(hash, query1, query2)?;
        let other = self.hasher.hash_one(self.item_in_slot(slot).key2());
        Some(self.take_hashed(hash, other, slot))
    }
}
