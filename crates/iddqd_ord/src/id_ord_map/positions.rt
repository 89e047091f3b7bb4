//! Items by their positions in the order of the keys.
ghost use Rattle.std.specs.Prelude.{◌≡◌, ◌+◌, ◌*◌, IfSome, length, remove, option_copied, slice_get};
ghost use Rattle.std.specs.Prelude.{min as least};
ghost use Rattle.std.specs.Bound.{end_index, start_index};
ghost use Rattle.iddqd_store.specs.Contents.{Ascends, IsAbsent, keys};
ghost use Rattle.iddqd_store.specs.Counting.{CountsAtMost};
ghost use Rattle.iddqd_store.specs.Holding.{Removes};
ghost use Rattle.iddqd_ord_index.specs.Digits.{digits};
ghost use Rattle.iddqd_ord_index.specs.Search.{IsPlaceAmong, position_of};
ghost use Rattle.iddqd_ord.specs.Ranges.{FindsPositions, IsIndexOf, WalksPart, bound_now, number_less};

use super::{IdOrdMap, Iter};
use iddqd_store::{Comparable, IdOrdItem, Steps};
use std::ops::{Bound, RangeBounds};

impl<T> IdOrdMap<T> {
    /// Returns the item with this many items before it in the order of the keys, or `None` if the map has no more. It
    /// goes down the index once. Compares no keys. Does not allocate.
    #[inline]
    pub fn get_index(&self, index: usize) -> Option<&T>
        ensures { option_copied result ≡ slice_get self.now.items index }
    {
        if index >= self.len() {
            return None;
        }
        let place = self.index.place(index);
        self.store.get(self.index.slot_at(place))
    }

    /// Returns the items at the positions in the range, in the order of the keys. Positions that the map does not have
    /// give no items, and neither does a range that runs backwards. Compares no keys. Does not allocate.
    pub fn range_index<R: RangeBounds<usize>>(&self, range: R) -> Iter<'_, T>
        ensures items { FindsPositions R.RangeBounds range self.now.items result }
        ensures part { WalksPart result self.now.items }
    {
        let high = end_position(range.end_bound(), self.len());
        let low = start_position(range.start_bound(), high);
        self.iter_between(low, high)
    }
}

// Returns the first position of a range that starts there, at most `len`.
fn start_position(start: Bound<&usize>, len: usize) -> usize
    ensures { result ≡ least (start_index (bound_now start.entry)) len }
{
    match start {
        Bound::Included(&index) => index.min(len),
        Bound::Excluded(&index) => index.saturating_add(1).min(len),
        Bound::Unbounded => 0,
    }
}

// Returns the position behind the last of a range that ends there, at most `len`.
fn end_position(end: Bound<&usize>, len: usize) -> usize
    ensures { result ≡ least (end_index (bound_now end.entry) len) len }
{
    match end {
        Bound::Included(&index) => index.saturating_add(1).min(len),
        Bound::Excluded(&index) => index.min(len),
        Bound::Unbounded => len,
    }
}

impl<T: IdOrdItem> IdOrdMap<T> {
    /// Returns `Ok` of the position of the item that the query finds, or `Err` of the position where such an item
    /// belongs. Either is the number of items whose keys are less. It makes as many comparisons as `index_of_counted`.
    /// Does not allocate.
    #[inline]
    pub fn index_of<Q: Comparable<T::Key>>(&self, query: &Q) -> Result<usize, usize>
        requires keyed { Ascends T.key T.Key.cmp self.now.items }
        ensures place { IsPlaceAmong (Q.compare query.now) (keys T.key self.now.items) result }
        ensures rank { position_of result ≡ number_less T.key (Q.compare query.now) self.now.items }
        ensures found { IsIndexOf T.key (Q.equivalent query.now) self.now.items result }
    {
        self.index_of_counted(query, &mut Steps::new())
    }

    /// As `index_of`, with the comparisons counted: at most 4 + 2 d, d the number of binary digits of `len`.
    pub fn index_of_counted<Q: Comparable<T::Key>>(
        &self,
        query: &Q,
        steps: &mut Steps,
    ) -> Result<usize, usize>
        requires keyed { Ascends T.key T.Key.cmp self.now.items }
        ensures place { IsPlaceAmong (Q.compare query.now) (keys T.key self.now.items) result }
        ensures rank { position_of result ≡ number_less T.key (Q.compare query.now) self.now.items }
        ensures found { IsIndexOf T.key (Q.equivalent query.now) self.now.items result }

        // what it costs
        ensures steps { CountsAtMost steps.old steps.new (4 + 2 * digits (length self.now.items)) }
    {
        match self.index.find(&self.store, query, steps) {
            Ok(place) => Ok(place.position()),
            Err(place) => Err(place.position()),
        }
    }

    /// Removes and returns the item at the position in the order of the keys. Its slot becomes vacant. If the map has
    /// no item there, it returns `None` and changes nothing. Compares no keys. Does not allocate.
    pub fn remove_index(&mut self, index: usize) -> Option<T>
        requires keyed { Ascends T.key T.Key.cmp self.old.items }
        ensures value { result ≡ slice_get self.old.items index }

        // what is left
        ensures items { self.new.items ≡ remove self.old.items index }
        ensures slots { self.new.slots ≡ remove self.old.slots index }
        ensures removed { Removes result self.old self.new }
        ensures gone { IfSome result (λ x. IsAbsent T.key (T.Key.eq (T.key x)) self.new.items) }
        ensures keyed { Ascends T.key T.Key.cmp self.new.items }
    {
        if index >= self.len() {
            return None;
        }
        let at = self.index.place(index);
        Some(self.take_at_place(at))
    }
}
