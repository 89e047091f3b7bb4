//! The items between two bounds, which are queries.
ghost use Rattle.std.specs.Prelude.{◌≡◌, ◌+◌, ◌*◌, ◌≤◌, length};
ghost use Rattle.iddqd_store.specs.Contents.{Ascends, Finds};
ghost use Rattle.iddqd_store.specs.Counting.{CountsAtMost};
ghost use Rattle.iddqd_store.specs.SlotItems.{HaveSlots};
ghost use Rattle.iddqd_ord_index.specs.Digits.{digits};
ghost use Rattle.iddqd_ord.specs.Ranges.{FindsLast, FindsRange, StopsAt, WalksFrom, WalksPart, bound_now, is_from, is_up_to};

use super::{IdOrdMap, Iter};
use iddqd_ord_index::Walk;
use iddqd_store::{Comparable, IdOrdItem, Steps};
use std::ops::{Bound, RangeBounds};

impl<T: IdOrdItem> IdOrdMap<T> {
    /// Returns the items whose keys lie in the range, in ascending order. Its bounds are queries of one type. A range
    /// that runs backwards has no items. It makes as many comparisons as `range_counted`, and a step of the walk makes
    /// none. Does not allocate.
    pub fn range<Q: Comparable<T::Key>, R: RangeBounds<Q>>(&self, range: R) -> Iter<'_, T>
        requires keyed { Ascends T.key T.Key.cmp self.now.items }
        ensures items { FindsRange R.RangeBounds Q.compare T.key range self.now.items result }
        ensures part { WalksPart result self.now.items }
    {
        self.range_counted(range, &mut Steps::new())
    }

    /// As `range`, with the comparisons counted: at most 4 + 2 d for each bound, and none for an unbounded end. Here d
    /// is the number of binary digits of `len`.
    pub fn range_counted<Q: Comparable<T::Key>, R: RangeBounds<Q>>(
        &self,
        range: R,
        steps: &mut Steps,
    ) -> Iter<'_, T>
        requires keyed { Ascends T.key T.Key.cmp self.now.items }
        ensures items { FindsRange R.RangeBounds Q.compare T.key range self.now.items result }
        ensures part { WalksPart result self.now.items }

        // what it costs
        ensures steps { CountsAtMost steps.old steps.new (8 + 4 * digits (length self.now.items)) }
    {
        let mut walk = self.walk_from(range.start_bound(), steps);
        let high = self.end_of(range.end_bound(), steps);
        let low = self.len() - walk.len();
        walk.truncate(high.saturating_sub(low));
        Iter {
            store: &self.store,
            walk,
        }
    }

    /// Returns the item of the least key that is not before the bound, or `None` if there is none. It makes as many
    /// comparisons as `get`, and none if it is unbounded. Does not allocate.
    pub fn lower_bound<Q: Comparable<T::Key>>(&self, from: Bound<&Q>) -> Option<&T>
        requires keyed { Ascends T.key T.Key.cmp self.now.items }
        ensures { Finds T.key (is_from Q.compare (bound_now from.entry)) self.now.items result }
    {
        let slot = self.walk_from(from, &mut Steps::new()).next()?;
        self.store.get(slot)
    }

    /// Returns the item of the greatest key that is not behind the bound, or `None` if there is none. It makes as many
    /// comparisons as `get`, and none if it is unbounded. Does not allocate.
    pub fn upper_bound<Q: Comparable<T::Key>>(&self, to: Bound<&Q>) -> Option<&T>
        requires keyed { Ascends T.key T.Key.cmp self.now.items }
        ensures { FindsLast T.key (is_up_to Q.compare (bound_now to.entry)) self.now.items result }
    {
        let end = self.end_of(to, &mut Steps::new());
        if end == 0 {
            return None;
        }
        self.get_index(end - 1)
    }

    // Returns the slots of the items that are not before the bound.
    pub(super) fn walk_from<Q: Comparable<T::Key>>(
        &self,
        from: Bound<&Q>,
        steps: &mut Steps,
    ) -> Walk<'_>
        requires keyed { Ascends T.key T.Key.cmp self.now.items }
        ensures start { WalksFrom T.key Q.compare (bound_now from.entry) self.now result }
        ensures fits { length result ≤ u32.MAX }
        ensures own { HaveSlots self.now.slots self.now.items }
        ensures steps { CountsAtMost steps.old steps.new (4 + 2 * digits (length self.now.items)) }
    {
        match from {
            Bound::Included(query) => self.index.walk_from(&self.store, query, steps).1,
            Bound::Excluded(query) => {
                let (place, mut walk) = self.index.walk_from(&self.store, query, steps);
                if place.is_ok() {
                    walk.next();
                }
                walk
            }
            Bound::Unbounded => self.index.walk(),
        }
    }

    // Returns the position of the first item that is behind the bound.
    pub(super) fn end_of<Q: Comparable<T::Key>>(&self, to: Bound<&Q>, steps: &mut Steps) -> usize
        requires keyed { Ascends T.key T.Key.cmp self.now.items }
        ensures end { StopsAt T.key Q.compare (bound_now to.entry) self.now.items result }
        ensures steps { CountsAtMost steps.old steps.new (4 + 2 * digits (length self.now.items)) }
    {
        match to {
            Bound::Included(query) => match self.index_of_counted(query, steps) {
                Ok(place) => {
                    prove!(place < self.len());
                    place + 1
                }
                Err(place) => place,
            },
            Bound::Excluded(query) => match self.index_of_counted(query, steps) {
                Ok(place) | Err(place) => place,
            },
            Bound::Unbounded => self.len(),
        }
    }
}
