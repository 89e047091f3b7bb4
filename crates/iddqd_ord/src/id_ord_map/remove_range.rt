//! Removal of the items between two bounds.
ghost use Rattle.std.specs.Prelude.{◌≡◌, ◌+◌, length};
ghost use Rattle.iddqd_store.specs.Contents.{Ascends};
ghost use Rattle.iddqd_store.specs.Holding.{LeavesSlots};
ghost use Rattle.iddqd_ord.specs.Ranges.{RemovesPart, RemovesRange};

use super::IdOrdMap;
use iddqd_store::{Comparable, IdOrdItem, Steps};
use std::ops::RangeBounds;

impl<T: IdOrdItem> IdOrdMap<T> {
    /// Removes and drops the items whose keys lie in the range, and returns how many there were. Their slots become
    /// vacant. It makes as many comparisons as `range`. It walks over these items once, and cuts their nodes off the
    /// index. Does not allocate.
    pub fn remove_range<Q: Comparable<T::Key>, R: RangeBounds<Q>>(&mut self, range: R) -> usize
    where
        T: Drop,
        requires keyed { Ascends T.key T.Key.cmp self.old.items }
        ensures items { RemovesRange R.RangeBounds Q.compare T.key range self.old self.new }
        ensures part { RemovesPart self.old.items self.new.items }
        ensures number { result + length self.new.items ≡ length self.old.items }
        ensures leaves { LeavesSlots self.old self.new }
        ensures keyed { Ascends T.key T.Key.cmp self.new.items }
    {
        let before = self.len();
        let mut steps = Steps::new();
        let low = before - self.walk_from(range.start_bound(), &mut steps).len();
        let high = self.end_of(range.end_bound(), &mut steps).max(low);
        self.remove_between(low, high);
        before - self.len()
    }
}
