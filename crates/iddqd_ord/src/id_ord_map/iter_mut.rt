//! A walk that lends the items of an ordered map for writing, one after the other.
ghost use Rattle.std.specs.Prelude.{◌≡◌, ◌-◌, ◌<◌, ◌↔◌, IsSome, length};
ghost use Rattle.std.specs.Borrow.{sem};
ghost use Rattle.std.specs.Option.{option_copied_mut};
ghost use Rattle.iddqd_store.specs.Contents.{Ascends};
ghost use Rattle.iddqd_ord.specs.WritingWalk.{WalkKeeps, WalkKeepsAkin, walk_done, walk_item, walk_lends, walk_map, walk_lender};

use super::IdOrdMap;
use iddqd_store::IdOrdItem;

/// Lends the items of a map for writing, in the order of their keys. It lends a plain reference, one at a time, so that
/// its caller learns what the map is then.
#[derive(Drop)]
pub struct IterMut<'a, T> {
    map: &'a mut IdOrdMap<T>,
    // The number of items that it has lent.
    done: usize,
}

impl<T: IdOrdItem> IdOrdMap<T> {
    /// Returns a walk over the items that lends each once. It goes in the order of the keys. Compares no keys. Does not
    /// allocate. The map stays keyed unless you change an item's key.
    #[inline]
    pub fn iter_mut(&mut self) -> IterMut<'_, T>
        requires keyed { Ascends T.key T.Key.cmp self.old.items }
        ensures same_map { walk_lender result ≡ self.entry.ghost_name }
        ensures unchanged { walk_map result ≡ self.old }
        ensures start { walk_done result ≡ 0 }
    {
        IterMut { map: self, done: 0 }
    }
}

impl<T> IterMut<'_, T> {
    /// Returns the number of items to come.
    #[inline]
    pub fn len(&self) -> usize
        ensures { result ≡ length (walk_map self.now).items - walk_done self.now }
    {
        self.map.len().saturating_sub(self.done)
    }
}

impl<T: IdOrdItem> IterMut<'_, T> {
    /// Returns the next item, for writing, or `None` for good after the last one. It goes down the index once for
    /// several items. A keyed map stays keyed if the key written is equal to the item's.
    #[inline]
    pub fn next(&mut self) -> Option<&mut T>
        ensures* writes_back { sem 𝓛 (walk_lends T.row self.entry result) }
        ensures value { option_copied_mut result ≡ walk_item self.old }
        ensures found { IsSome result ↔ (walk_done self.old < length (walk_map self.old).items) }
        ensures keyed { WalkKeeps T.key T.Key.cmp self.old result }
        ensures keyed_akin { WalkKeepsAkin T.key T.Key.cmp T.Key.eq self.old result }
    {
        let at = self.done;
        if at < self.map.len() {
            let slot = self.map.slot_at_position(at);
            self.done = at + 1;
            Some(self.map.item_in_slot_mut(slot))
        } else {
            None
        }
    }
}
