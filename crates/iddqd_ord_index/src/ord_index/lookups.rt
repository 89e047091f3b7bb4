//! Lookups: what looks at the keys of items.
ghost use Rattle.std.specs.Prelude.{◌≡◌, ◌+◌, ◌*◌, ◌<◌, ◌≤◌, drop, length, IfSome, IfOk, Contains};
ghost use Rattle.iddqd_store.specs.Contents.{Ascends};
ghost use Rattle.iddqd_store.specs.Counting.{CountsAtMost};
ghost use Rattle.iddqd_ord_index.specs.Digits.{digits};
ghost use Rattle.iddqd_ord_index.specs.Listed.{listed_items, AreOccupied};
ghost use Rattle.iddqd_ord_index.specs.Search.{FindsNext, FindsPlace, FindsPlaced, FindsSlot, HasSlotAt, IsPlaceIn, place_of, position_of};

use super::{OrdIndex, Place, Walk};
use iddqd_store::{Comparable, IdOrdItem, ItemStore, Steps};

impl OrdIndex {
    /// Returns `Ok` of the place of the slot whose item has the query's key, or `Err` of the place where such a
    /// slot belongs. It makes at most 4 + 2 d comparisons, d the number of binary digits of `len`.
    pub fn find<T: IdOrdItem, Q: Comparable<T::Key>>(
        &self,
        store: &ItemStore<T>,
        query: &Q,
        steps: &mut Steps,
    ) -> Result<Place, Place>
        requires occupied { AreOccupied store.now self.now.slots }
        requires ascending { Ascends T.key T.Key.cmp (listed_items store.now self.now.slots) }

        // what it finds
        ensures place { FindsPlace T.key (Q.compare query.now) store.now self.now.slots result }
        ensures in_list { IsPlaceIn self.now.slots result }

        // what it costs
        ensures steps { CountsAtMost steps.old steps.new (4 + 2 * digits (length self.now.slots)) }
    {
        match self.find_slot(store, query, steps) {
            Ok((place, _)) => Ok(place),
            Err(place) => Err(place),
        }
    }

    /// Returns what `find` returns, and by as many comparisons; with the place of a slot the slot itself.
    pub fn find_slot<T: IdOrdItem, Q: Comparable<T::Key>>(
        &self,
        store: &ItemStore<T>,
        query: &Q,
        steps: &mut Steps,
    ) -> Result<(Place, u32), Place>
        requires occupied { AreOccupied store.now self.now.slots }
        requires ascending { Ascends T.key T.Key.cmp (listed_items store.now self.now.slots) }

        // what it finds
        ensures place { FindsPlaced T.key (Q.compare query.now) store.now self.now.slots result }
        ensures in_list { IsPlaceIn self.now.slots (place_of result) }
        ensures slot { IfOk result (HasSlotAt self.now.slots) }

        // what it costs
        ensures steps { CountsAtMost steps.old steps.new (4 + 2 * digits (length self.now.slots)) }
    {
        match self.root.find(store, query, steps) {
            Ok((position, slot)) => Ok((Place { position }, slot)),
            Err(position) => Err(Place { position }),
        }
    }

    /// Returns what `find` returns, by as many comparisons, and an iterator over the slots from that place on. The
    /// iterator goes on where the search ended.
    pub fn walk_from<T: IdOrdItem, Q: Comparable<T::Key>>(
        &self,
        store: &ItemStore<T>,
        query: &Q,
        steps: &mut Steps,
    ) -> (Result<Place, Place>, Walk<'_>)
        requires occupied { AreOccupied store.now self.now.slots }
        requires ascending { Ascends T.key T.Key.cmp (listed_items store.now self.now.slots) }

        // what it finds
        ensures place { FindsPlace T.key (Q.compare query.now) store.now self.now.slots result.0 }
        ensures in_list { IsPlaceIn self.now.slots result.0 }
        ensures slots { result.1 ≡ drop (position_of result.0) self.now.slots }
        ensures fits { length result.1 ≤ u32.MAX }

        // what it costs
        ensures steps { CountsAtMost steps.old steps.new (4 + 2 * digits (length self.now.slots)) }
    {
        match self.root.find_leaves(store, query, steps) {
            (Ok(position), leaves) => {
                let walk = Walk::with_leaves(&self.root, leaves, position, self.len);
                (Ok(Place { position }), walk)
            }
            (Err(position), leaves) => {
                let walk = Walk::with_leaves(&self.root, leaves, position, self.len);
                (Err(Place { position }), walk)
            }
        }
    }

    /// Returns the slot whose item has the query's key, or `None`, by as many comparisons as `find`.
    pub fn get<T: IdOrdItem, Q: Comparable<T::Key>>(
        &self,
        store: &ItemStore<T>,
        query: &Q,
        steps: &mut Steps,
    ) -> Option<u32>
        requires occupied { AreOccupied store.now self.now.slots }
        requires ascending { Ascends T.key T.Key.cmp (listed_items store.now self.now.slots) }

        // what it finds
        ensures item { FindsSlot T.key (Q.equivalent query.now) store.now self.now.slots result }
        ensures slot { IfSome result (Contains self.now.slots) }

        // what it costs
        ensures steps { CountsAtMost steps.old steps.new (4 + 2 * digits (length self.now.slots)) }
    {
        self.root.get(store, query, steps)
    }

    /// Returns the slot of the least key that is greater than the query, or `None`, by as many comparisons as
    /// `find`.
    pub fn after<T: IdOrdItem, Q: Comparable<T::Key>>(
        &self,
        store: &ItemStore<T>,
        query: &Q,
        steps: &mut Steps,
    ) -> Option<u32>
        requires occupied { AreOccupied store.now self.now.slots }
        requires ascending { Ascends T.key T.Key.cmp (listed_items store.now self.now.slots) }

        // what it finds
        ensures item { FindsNext T.key (Q.compare query.now) store.now self.now.slots result }
        ensures slot { IfSome result (Contains self.now.slots) }

        // what it costs
        ensures steps { CountsAtMost steps.old steps.new (4 + 2 * digits (length self.now.slots)) }
    {
        let next = match self.find(store, query, steps) {
            Ok(place) => place.position as usize + 1,
            Err(place) => place.position as usize,
        };
        if next < self.len as usize {
            Some(self.root.slot_at(next as u32))
        } else {
            None
        }
    }
}
