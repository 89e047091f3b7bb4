//! Lookups and removals.
ghost use Rattle.std.specs.Prelude.{◌≡◌, ◌+◌, ◌*◌, length, is_some};
ghost use Rattle.iddqd_store.specs.Contents.{Ascends, Finds, RemovesFound, find_item};
ghost use Rattle.iddqd_store.specs.Counting.{CountsAtMost};
ghost use Rattle.iddqd_ord_index.specs.Digits.{digits};
ghost use Rattle.iddqd_store.specs.Holding.{Removes};

use super::IdOrdMap;
use iddqd_store::{Comparable, IdOrdItem, Steps};

impl<T: IdOrdItem> IdOrdMap<T> {
    /// Returns the item that the query finds, or `None`, by as many comparisons as `get_counted`. It goes down the
    /// index once, and fetches the item once more to lend it. Does not allocate.
    /// `String` keys are asked for by a `Text`, as in `get(&Text("web"))`.
    #[inline]
    pub fn get<Q: Comparable<T::Key>>(&self, query: &Q) -> Option<&T>
        requires keyed { Ascends T.key T.Key.cmp self.now.items }
        ensures { Finds T.key (Q.equivalent query.now) self.now.items result }
    {
        self.get_counted(query, &mut Steps::new())
    }

    /// As `get`, with the comparisons counted: at most 4 + 2 d, d the number of binary digits of `len`. Does not
    /// allocate.
    #[inline]
    pub fn get_counted<Q: Comparable<T::Key>>(&self, query: &Q, steps: &mut Steps) -> Option<&T>
        requires keyed { Ascends T.key T.Key.cmp self.now.items }
        ensures found { Finds T.key (Q.equivalent query.now) self.now.items result }
        ensures steps { CountsAtMost steps.old steps.new (4 + 2 * digits (length self.now.items)) }
    {
        let slot = self.index.get(&self.store, query, steps)?;
        Some(self.store.item(slot))
    }

    /// Returns true if the query finds an item, by as many comparisons as `get`. Does not allocate.
    #[inline]
    pub fn contains_key<Q: Comparable<T::Key>>(&self, query: &Q) -> bool
        requires keyed { Ascends T.key T.Key.cmp self.now.items }
        ensures { result ≡ is_some (find_item T.key (Q.equivalent query.now) self.now.items) }
    {
        self.get(query).is_some()
    }

    /// Removes and returns the item that the query finds. Its slot becomes vacant. If there is none, it returns `None`
    /// and changes nothing. It makes as many comparisons as `remove_counted`. Does not allocate.
    #[inline]
    pub fn remove<Q: Comparable<T::Key>>(&mut self, query: &Q) -> Option<T>
        requires keyed { Ascends T.key T.Key.cmp self.old.items }
        ensures value { result ≡ find_item T.key (Q.equivalent query.now) self.old.items }
        ensures items { RemovesFound T.key (Q.equivalent query.now) self.old.items self.new.items }
        ensures removed { Removes result self.old self.new }
        ensures keyed { Ascends T.key T.Key.cmp self.new.items }
    {
        self.remove_counted(query, &mut Steps::new())
    }

    /// As `remove`, with the comparisons counted: at most 4 + 2 d, d the number of binary digits of `len` before the
    /// call.
    pub fn remove_counted<Q: Comparable<T::Key>>(
        &mut self,
        query: &Q,
        steps: &mut Steps,
    ) -> Option<T>
        requires keyed { Ascends T.key T.Key.cmp self.old.items }
        ensures value { result ≡ find_item T.key (Q.equivalent query.now) self.old.items }
        ensures items { RemovesFound T.key (Q.equivalent query.now) self.old.items self.new.items }
        ensures removed { Removes result self.old self.new }
        ensures keyed { Ascends T.key T.Key.cmp self.new.items }

        // what it costs
        ensures steps { CountsAtMost steps.old steps.new (4 + 2 * digits (length self.old.items)) }
    {
        let slot = self.index.remove_by_key(&self.store, query, steps)?;
        Some(self.store.remove(slot))
    }
}
