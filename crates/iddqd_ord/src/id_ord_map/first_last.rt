//! The first and the last item.
ghost use Rattle.std.specs.Prelude.{◌≡◌, ◌-◌, IfSome, length, drop, take, option_copied, slice_get};
ghost use Rattle.iddqd_store.specs.Contents.{Ascends, IsAbsent};
ghost use Rattle.iddqd_store.specs.Holding.{Removes};

use super::IdOrdMap;
use iddqd_store::IdOrdItem;

impl<T> IdOrdMap<T> {
    /// Returns the item of the least key, or `None` if the map has no items. Compares no keys. Does not allocate.
    pub fn first(&self) -> Option<&T>
        ensures { option_copied result ≡ slice_get self.now.items 0 }
    {
        self.store.get(self.index.first()?)
    }

    /// Returns the item of the greatest key, or `None` if the map has no items. Compares no keys. Does not allocate.
    pub fn last(&self) -> Option<&T>
        ensures { option_copied result ≡ slice_get self.now.items (length self.now.items - 1) }
    {
        self.store.get(self.index.last()?)
    }
}

impl<T: IdOrdItem> IdOrdMap<T> {
    /// Removes and returns the item of the least key. Its slot becomes vacant. Without items it returns `None` and
    /// changes nothing. Compares no keys. Does not allocate.
    pub fn pop_first(&mut self) -> Option<T>
        requires keyed { Ascends T.key T.Key.cmp self.old.items }
        ensures value { result ≡ slice_get self.old.items 0 }

        // what is left
        ensures items { self.new.items ≡ drop 1 self.old.items }
        ensures slots { self.new.slots ≡ drop 1 self.old.slots }
        ensures removed { Removes result self.old self.new }
        ensures gone { IfSome result (λ x. IsAbsent T.key (T.Key.eq (T.key x)) self.new.items) }
        ensures keyed { Ascends T.key T.Key.cmp self.new.items }
    {
        self.remove_index(0)
    }

    /// Removes and returns the item of the greatest key. Its slot becomes vacant. Without items it returns `None` and
    /// changes nothing. Compares no keys. Does not allocate.
    pub fn pop_last(&mut self) -> Option<T>
        requires keyed { Ascends T.key T.Key.cmp self.old.items }
        ensures value { result ≡ slice_get self.old.items (length self.old.items - 1) }

        // what is left
        ensures items { self.new.items ≡ take (length self.old.items - 1) self.old.items }
        ensures slots { self.new.slots ≡ take (length self.old.slots - 1) self.old.slots }
        ensures removed { Removes result self.old self.new }
        ensures gone { IfSome result (λ x. IsAbsent T.key (T.Key.eq (T.key x)) self.new.items) }
        ensures keyed { Ascends T.key T.Key.cmp self.new.items }
    {
        let last = self.len().saturating_sub(1);
        self.remove_index(last)
    }
}
