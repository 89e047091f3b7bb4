//! Lookups and removals.
ghost use Rattle.std.specs.Prelude.{◌≡◌, IfNone, is_some};
ghost use Rattle.iddqd_store.specs.Contents.{Finds, RemovesFound, find_item};
ghost use Rattle.iddqd_store.specs.Counting.{CountsAtMost};
ghost use Rattle.iddqd_store.specs.Holding.{Removes};

use super::{IdHashMap, Keyed};
use iddqd_hash_parts::remove_found;
use iddqd_store::{Equivalent, IdHashItem, OwnKey, Steps};
use std::hash::{BuildHasher, Hash};

impl<T: IdHashItem, S: BuildHasher> IdHashMap<T, S> {
    ghost use Rattle.iddqd_hash_parts.specs.HashItems.{HashesAsKeys, holding_of, of_same_hash};
    ghost use Rattle.iddqd_hash.specs.HashMap.{HashStays, SpareFits};

    /// Returns the item that the query finds, or `None`, by as many comparisons as `get_counted`. Hashes the query
    /// once. Does not allocate. `String` keys are asked for by a `Text`, as in `get(&Text("web"))`.
    #[inline]
    pub fn get<Q: Hash + Equivalent<T::Key>>(&self, query: &Q) -> Option<&T>
        requires keyed { ⟦<Self as Keyed>⟧.keyed self.now }
        requires hashes { HashesAsKeys Q.equivalent Q.hash_input T.Key.hash_input query.now }
        ensures found { Finds T.key (Q.equivalent query.now) self.now.items result }
        ensures spare_fits { SpareFits self.now }
    {
        self.get_counted(query, &mut Steps::new())
    }

    /// As `get`, with the comparisons counted: at most as many as the items whose keys have the query's hash. Does not
    /// allocate.
    #[inline]
    pub fn get_counted<Q: Hash + Equivalent<T::Key>>(
        &self,
        query: &Q,
        steps: &mut Steps,
    ) -> Option<&T>
        requires keyed { ⟦<Self as Keyed>⟧.keyed self.now }
        requires hashes { HashesAsKeys Q.equivalent Q.hash_input T.Key.hash_input query.now }

        // what is found
        ensures found { Finds T.key (Q.equivalent query.now) self.now.items result }
        ensures spare_fits { SpareFits self.now }

        // what it costs
        ensures steps { CountsAtMost steps.old steps.new (of_same_hash ⟦<Self as Keyed>⟧.hash self.now (Q.hash_input query.now)) }
    {
        let hash = self.hasher.hash_one(query);
        let slot = self.slot_by_key(hash, query, steps)?;
        Some(self.item_in_slot(slot))
    }

    /// Returns true if the query finds an item, by as many comparisons as `get`. Hashes the query once. Does not
    /// allocate.
    #[inline]
    pub fn contains_key<Q: Hash + Equivalent<T::Key>>(&self, query: &Q) -> bool
        requires keyed { ⟦<Self as Keyed>⟧.keyed self.now }
        requires hashes { HashesAsKeys Q.equivalent Q.hash_input T.Key.hash_input query.now }
        ensures { result ≡ is_some (find_item T.key (Q.equivalent query.now) self.now.items) }
    {
        self.get(query).is_some()
    }

    /// Removes and returns the item that the query finds. Its slot becomes vacant, and its room is spare. If there is
    /// none, it returns `None` and changes nothing. Hashes the query once, and makes as many comparisons as `get`. Does
    /// not allocate.
    pub fn remove<Q: Hash + Equivalent<T::Key>>(&mut self, query: &Q) -> Option<T>
        requires keyed { ⟦<Self as Keyed>⟧.keyed self.old }
        requires hashes { HashesAsKeys Q.equivalent Q.hash_input T.Key.hash_input query.now }

        // what is removed
        ensures value { result ≡ find_item T.key (Q.equivalent query.now) self.old.items }
        ensures items { RemovesFound T.key (Q.equivalent query.now) self.old.items self.new.items }
        ensures removed { Removes result (holding_of self.old) (holding_of self.new) }
        ensures unchanged { IfNone result (self.new ≡ self.old) }

        // what stays
        ensures stays { HashStays ⟦<Self as Keyed>⟧.keyed self.old self.new }
    {
        let hash = self.hasher.hash_one(query);
        let (_, item) = remove_found::<T, OwnKey, Q>(
            &mut self.store,
            &mut self.index,
            hash,
            query,
        )?;
        Some(item)
    }
}
