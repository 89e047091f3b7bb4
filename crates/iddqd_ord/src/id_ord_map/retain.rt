//! Keeping some of the items.
ghost use Rattle.std.specs.Prelude.{◌≡◌};
ghost use Rattle.std.specs.Fn.{CalledAt};
ghost use Rattle.std.specs.List.Retain.{IsFiltered};
ghost use Rattle.iddqd_store.specs.Contents.{Ascends};
ghost use Rattle.iddqd_store.specs.Holding.{LeavesSlots};
ghost use Rattle.iddqd_store.specs.Visiting.{VisitsKeepKeys, kept_by, visitor_after};
ghost use Rattle.iddqd_ord_index.specs.Listed.{listed_items, occupied_slots};
ghost use Rattle.iddqd_ord.specs.StoreAndIndex.{FiltersListed, KeepsBounds, KeepsSlots, KeepsVisited, ListsOccupied, items_occupied, visitor_along};

use super::IdOrdMap;
use iddqd_ord_index::Walk;
use iddqd_store::{IdOrdItem, ItemStore, Visit};

impl<T: IdOrdItem> IdOrdMap<T> {
    /// Calls the closure once for each item, and drops each item for which it returns false. It goes in the order of
    /// the keys. The closure only reads. Compares no keys. Does not allocate. It goes through the index twice, once for
    /// the calls, and once to keep what stays, however many items go.
    pub fn retain<F: FnMut(&T) -> bool>(&mut self, keep: F)
    where
        T: Drop,
        requires callable { F.IsAlwaysCallable keep }
        requires keyed { Ascends T.key T.Key.cmp self.old.items }
        ensures filtered { IsFiltered (CalledAt F.FnMut) keep self.old.items self.new.items }
        ensures leaves { LeavesSlots self.old self.new }
        ensures keyed { Ascends T.key T.Key.cmp self.new.items }
    {
        retain_in_store(&mut self.store, self.index.walk(), keep);
        self.index.retain_occupied(&self.store);
    }

    /// Visits each item once, and drops each item for which the visit returns false. It goes in the order of the keys.
    /// No visit may change a key. Compares no keys. Does not allocate. It goes through the index as `retain` does.
    pub fn retain_mut<V: Visit<T>>(&mut self, visitor: &mut V)
    where
        T: Drop,
        requires keyed { Ascends T.key T.Key.cmp self.old.items }
        requires keeps_keys { VisitsKeepKeys T.key T.Key.eq V.visits }

        // what the visits leave
        ensures items { self.new.items ≡ kept_by V.visits visitor.old self.old.items }
        ensures visitor { visitor.new ≡ visitor_after V.visits visitor.old self.old.items }
        ensures leaves { LeavesSlots self.old self.new }
        ensures keyed { Ascends T.key T.Key.cmp self.new.items }
    {
        visit_in_store(&mut self.store, self.index.walk(), visitor);
        self.index.retain_occupied(&self.store);
    }
}

// Calls the closure for the item of each of these slots, in their order, and drops each item for which it returns false.
fn retain_in_store<T: IdOrdItem + Drop, F: FnMut(&T) -> bool>(
    store: &mut ItemStore<T>,
    mut walk: Walk<'_>,
    mut keep: F,
)
    requires callable { F.IsAlwaysCallable keep }
    requires paired { ListsOccupied store.old walk }
    requires keyed { Ascends T.key T.Key.cmp (listed_items store.old walk) }

    // the items
    ensures paired { ListsOccupied store.new (occupied_slots store.new walk.entry) }
    ensures filtered { FiltersListed (CalledAt F.FnMut) keep walk.entry store.old store.new }
    ensures keyed { Ascends T.key T.Key.cmp (items_occupied store.new walk.entry) }

    // the numbers
    ensures vacant { KeepsSlots store.old store.new }
    ensures bounds { KeepsBounds store.old store.new }
{
    'visit: while let Some(slot) = walk.next() {
        if !keep(store.item(slot)) {
            store.remove(slot);
        }
    }
}

// Visits the item of each of these slots, in their order, and drops each item for which the visit returns false.
fn visit_in_store<T: IdOrdItem + Drop, V: Visit<T>>(
    store: &mut ItemStore<T>,
    mut walk: Walk<'_>,
    visitor: &mut V,
)
    requires paired { ListsOccupied store.old walk }
    requires keyed { Ascends T.key T.Key.cmp (listed_items store.old walk) }
    requires keeps_keys { VisitsKeepKeys T.key T.Key.eq V.visits }

    // the items
    ensures paired { ListsOccupied store.new (occupied_slots store.new walk.entry) }
    ensures items { KeepsVisited V.visits visitor.old walk.entry store.old store.new }
    ensures visitor { visitor.new ≡ visitor_along V.visits visitor.old walk.entry store.old }
    ensures keyed { Ascends T.key T.Key.cmp (items_occupied store.new walk.entry) }

    // the numbers
    ensures vacant { KeepsSlots store.old store.new }
    ensures bounds { KeepsBounds store.old store.new }
{
    'visit: while let Some(slot) = walk.next() {
        if !visitor.visit(store.get_mut(slot)) {
            store.remove(slot);
        }
    }
}
