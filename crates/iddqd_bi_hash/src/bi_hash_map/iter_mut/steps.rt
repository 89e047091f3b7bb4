//! How a writing walk begins, and its steps.
ghost use Rattle.std.specs.Prelude.{◌≡◌, ◌-◌, ◌<◌, ◌↔◌, IsSome, length};
ghost use Rattle.std.specs.Borrow.{sem};
ghost use Rattle.std.specs.Option.{option_copied_mut};
ghost use Rattle.iddqd_bi_hash.specs.WritingWalk.{WalkKeeps, WalkKeepsAkin, walk_done, walk_item, walk_lends, walk_map, walk_lender};

use super::IterMut;
use crate::bi_hash_map::{BiHashMap, Keyed};
use crate::items::BiHashItem;
use std::hash::BuildHasher;

impl<T: BiHashItem, S: BuildHasher> BiHashMap<T, S> {
    /// Returns a walk over the items that lends each once. It goes in no particular order. The map stays keyed unless
    /// you change a key of an item. Hashes nothing and compares no keys. Does not allocate.
    #[inline]
    pub fn iter_mut(&mut self) -> IterMut<'_, T, S>
        requires keyed { ⟦<Self as Keyed>⟧.keyed self.old }
        ensures same_map { walk_lender result ≡ self.entry.ghost_name }
        ensures unchanged { walk_map result ≡ self.old }
        ensures start { walk_done result ≡ 0 }
    {
        IterMut {
            map: self,
            done: 0,
            next: 0,
        }
    }
}

impl<T, S> IterMut<'_, T, S> {
    /// Returns the number of items to come.
    #[inline]
    pub fn len(&self) -> usize
        ensures { result ≡ length (walk_map self.now).items - walk_done self.now }
    {
        self.map.len().saturating_sub(self.done)
    }
}

impl<T: BiHashItem, S: BuildHasher> IterMut<'_, T, S> {
    /// Returns the next item, for writing, or `None` for good after the last one. It looks at each slot on its way. A
    /// keyed map stays keyed if both keys written are equal to the item's.
    #[inline]
    pub fn next(&mut self) -> Option<&mut T>
        ensures* writes_back { sem 𝓛 (walk_lends S.row T.row self.entry result) }
        ensures value { option_copied_mut result ≡ walk_item self.old }
        ensures found { IsSome result ↔ (walk_done self.old < length (walk_map self.old).items) }
        ensures keyed { WalkKeeps T.key1 T.key2 ⟦<BiHashMap<T, S> as Keyed>⟧.keyed self.old result }
        ensures keyed_akin { WalkKeepsAkin ⟦<BiHashMap<T, S> as Keyed>⟧ self.old result }
    {
        if self.done < self.map.len() {
            let slot = self.map.slot_from(self.next);
            self.done += 1;
            self.next = slot + 1;
            Some(self.map.item_in_slot_mut(slot))
        } else {
            None
        }
    }
}
