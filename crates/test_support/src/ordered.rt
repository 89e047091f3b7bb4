//! What tests ask of an ordered map alone: at its ends, by positions, between bounds, and by what shows an item.
use crate::caseless::Coarse;
use crate::coarse::Put;
use crate::maps::{Inserted, Ordered, outcome};
use iddqd::id_ord_map::{Entry, Iter};
use iddqd::{Comparable, IdOrdItem, Steps};
use std::ops::Bound;
use std::slice;

/// Two bounds, by reference.
pub type Bounds<'a, Q> = (Bound<&'a Q>, Bound<&'a Q>);

// A call without a comment is the map's of that name.
impl<T: IdOrdItem> Ordered<T> {
    pub fn pop_first(&mut self) -> Option<T> {
        self.map.pop_first()
    }

    pub fn pop_last(&mut self) -> Option<T> {
        self.map.pop_last()
    }

    /// `first_entry`, and `remove` of it.
    pub fn remove_first(&mut self) -> Option<T> {
        Some(self.map.first_entry()?.remove())
    }

    /// `last_entry`, and `remove` of it.
    pub fn remove_last(&mut self) -> Option<T> {
        Some(self.map.last_entry()?.remove())
    }

    /// `remove_counted`, and how many comparisons it took.
    pub fn remove_counted(&mut self, key: &T::Key) -> (Option<T>, u32) {
        let mut steps = Steps::new();
        let gone = self.map.remove_counted(key, &mut steps);
        (gone, steps.count())
    }

    pub fn get_index(&self, index: usize) -> Option<&T> {
        self.map.get_index(index)
    }

    /// `index_of_counted`, and how many comparisons it took.
    pub fn index_of<Q: Comparable<T::Key>>(&self, query: &Q) -> (Result<usize, usize>, u32) {
        let mut steps = Steps::new();
        let place = self.map.index_of_counted(query, &mut steps);
        (place, steps.count())
    }

    pub fn lower_bound<Q: Comparable<T::Key>>(&self, from: Bound<&Q>) -> Option<&T> {
        self.map.lower_bound(from)
    }

    pub fn upper_bound<Q: Comparable<T::Key>>(&self, to: Bound<&Q>) -> Option<&T> {
        self.map.upper_bound(to)
    }

    /// The number of items of `range_counted`, and how many comparisons it took.
    pub fn count_between<Q: Comparable<T::Key>>(&self, bounds: Bounds<'_, Q>) -> (usize, u32) {
        let mut steps = Steps::new();
        let count = self.map.range_counted::<Q, _>(bounds, &mut steps).len();
        (count, steps.count())
    }

    pub fn remove_index(&mut self, index: usize) -> Option<T> {
        self.map.remove_index(index)
    }

    /// `get_index_entry`, and `remove` of it.
    pub fn take_index(&mut self, index: usize) -> Option<T> {
        Some(self.map.get_index_entry(index)?.remove())
    }

    pub fn remove_range<Q: Comparable<T::Key>>(&mut self, bounds: Bounds<'_, Q>) -> usize
    where
        T: Drop,
    {
        self.map.remove_range::<Q, _>(bounds)
    }
}

impl<T: IdOrdItem + PartialEq> Ordered<T> {
    /// Whether `range` gives these items: from the front, from the back, and from both ends in turn.
    pub fn has_between<Q: Comparable<T::Key>>(&self, bounds: Bounds<'_, Q>, items: &[T]) -> bool {
        let from_front = self.map.range::<Q, _>(bounds).eq(items);
        let from_back = self.map.range::<Q, _>(bounds).rev().eq(items.iter().rev());
        from_front && from_back && meets(self.map.range::<Q, _>(bounds), items.iter())
    }

    /// The same of `iter`, and of its clone.
    pub fn has_items(&self, items: &[T]) -> bool {
        let walk = self.map.iter();
        let from_clone = walk.clone().is_ok_and(|clone| clone.eq(items));
        from_clone && self.map.iter().rev().eq(items.iter().rev()) && meets(walk, items.iter())
    }
}

impl<T: IdOrdItem + Copy> Ordered<T> {
    /// `insert_unique_counted`, with what is lent copied, and how many comparisons it took.
    pub fn insert_counted(&mut self, item: T) -> (Inserted<T>, u32) {
        let mut steps = Steps::new();
        let error = self.map.insert_unique_counted(item, &mut steps).err();
        (outcome(error), steps.count())
    }

    /// `get_index_mut`, and the guard is spent. Whether there was one. The map is dropped then.
    pub fn spend_index(self, index: usize) -> bool
    where
        T: Drop,
    {
        let mut map = self.map;
        let Some(lent) = map.get_index_mut(index) else {
            return false;
        };
        lent.finish();
        true
    }

    /// `first`, `last`, `pop_first` and `pop_last`: whether each found an item.
    pub fn use_ends(&mut self) -> bool
    where
        T: Drop,
    {
        self.map.first().is_some()
            && self.map.last().is_some()
            && self.map.pop_first().is_some()
            && self.map.pop_last().is_some()
    }
}

impl Ordered<Coarse> {
    /// `insert_ref` where no item of the name is there.
    pub fn put_shown(&mut self, item: Coarse) -> Put {
        let Entry::Vacant(entry) = self.map.entry(&item.name) else {
            return Ok(None);
        };
        Ok(Some(*entry.insert_ref(item)?))
    }

    /// `or_insert_ref`.
    pub fn show_or_put(&mut self, item: Coarse) -> Put {
        Ok(Some(*self.map.entry(&item.name).or_insert_ref(item)?))
    }

    /// `or_insert_with_ref`.
    pub fn show_or_put_made(&mut self, item: Coarse) -> Put {
        let entry = self.map.entry(&item.name);
        Ok(Some(*entry.or_insert_with_ref(|| item)?))
    }
}

// Whether both walks give equal items from both ends in turn, count the same at each step, and then end for good.
fn meets<T: PartialEq>(mut walk: Iter<'_, T>, mut items: slice::Iter<'_, T>) -> bool {
    let mut is_front = true;
    for _ in 0..items.len() {
        if walk.len() != items.len() {
            return false;
        }
        let (one, other) = if is_front {
            (walk.next(), items.next())
        } else {
            (walk.next_back(), items.next_back())
        };
        if one != other {
            return false;
        }
        is_front = !is_front;
    }
    walk.len() == 0 && walk.next_back().is_none() && walk.next().is_none()
}
