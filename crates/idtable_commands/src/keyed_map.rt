//! What generic code asks of a map of either kind.
ghost use Rattle.std.specs.Prelude.{◌≡◌, ℕ, [], length, None, IfErr, IfNone, OnErr, OnOk, option_copied};
ghost use Rattle.std.specs.Borrow.{Lends, sem, unit};
ghost use Rattle.iddqd.specs.Contents.{NoTwoAkin};
ghost use Rattle.iddqd.specs.Refusal.{OnRefused, memory_refused};
ghost use Rattle.idtable_commands.specs.KeyedMap.{MakesRoomIn, Overwrites, RefusesIn, RefusesItemIn, RemovesFrom, RetainsIn, ShrinksMap, StaysKeyed, VisitsIn, map_after_extension, map_after_insertion, find_akin, find_in};
ghost use Rattle.iddqd.specs.Visiting.{VisitsKeepKeys};
ghost use Rattle.idtable_commands.specs.Step.{MapRule, MapState, FitsRoom, LieByRule, RefusesRoom};

mod extend;
mod hash;
mod ord;

use iddqd::Visit;
use iddqd::errors::{ExtendUniqueError, InsertError, Refused, TryReserveError};

/// A map whose keys live in its items, of either kind. Contracts see its items and its spare, the most items that
/// it can hold, and whether it is keyed. Each call leaves it keyed, under the same limit. Each but a shrink leaves
/// it with the room that its rule promises. A call's result is that of its command (`run`). A call other than
/// `extend_unique` costs what the map's own call of the same name does, or the one that its comment names.
pub trait KeyedMap {
    /// What the map holds.
    type Item;

    /// What tells an item from others, and where it is looked for.
    type Key: Eq;

    // The key that an item shows.
    ghost key: { Self.Item → Self.Key };

    // The items, and the spare: how many items of new keys the map takes without a refusal.
    ghost state: { Self → MapState Self.Item };

    // The most items that the map ever holds.
    ghost limit: { Self → ℕ };

    // Whether the map keeps a spare, how its items lie, and in which order it visits them.
    ghost rule: { MapRule Self.Key };

    // The items lie as the map's lookups expect them.
    ghost keyed: { Self → Type 0 };

    /// Inserts the item if none of an equal key exists. A duplicate does not allocate, and the existing item is lent. A
    /// full map and refused memory return the item; that never happens if the spare is above 0.
    /// Then the items are as they were.
    fn insert_unique(&mut self, item: Self::Item) -> Result<&mut (), InsertError<'_, Self::Item>>
        requires keyed { keyed self.old }
        ensures* after { sem 𝓛 (map_after_insertion Self.row state limit rule keyed key Self.Key.eq self.entry result item) }
        ensures refused { IfErr result (RefusesIn state limit key Self.Key.eq self.old item) }
        ensures no_spare { IfErr result (OnRefused ((state self.old).spare ≡ 0)) };

    /// Replaces the item of an equal key, and returns it: the whole item, its key's spelling too. That does not
    /// allocate and is never refused. If there is none, it inserts the item as `insert_unique` does and returns `None`.
    /// A full map and refused memory return the item, and then the items are as they were.
    fn insert_overwrite(
        &mut self,
        item: Self::Item,
    ) -> Result<Option<Self::Item>, Refused<Self::Item>>
        requires keyed { keyed self.old }
        ensures overwritten { Overwrites state limit key Self.Key.eq item self.old self.new result }
        ensures refused { IfErr result (RefusesItemIn state limit key Self.Key.eq self.old item) }
        ensures unchanged { OnErr result ((state self.new).items ≡ (state self.old).items) }
        ensures stays { StaysKeyed state limit rule keyed self.old self.new };

    /// The item of an equal key, or `None`.
    fn get(&self, query: &Self::Key) -> Option<&Self::Item>
        requires keyed { keyed self.now }
        ensures found { option_copied result ≡ find_in state key (Self.Key.eq query.now) self.now }
        ensures room { FitsRoom rule (limit self.now) (state self.now) };

    /// Removes the item of an equal key and returns it. It returns `None` if there is none, and then nothing has
    /// changed. Does not allocate.
    fn remove(&mut self, query: &Self::Key) -> Option<Self::Item>
        requires keyed { keyed self.old }
        ensures value { result ≡ find_in state key (Self.Key.eq query.now) self.old }
        ensures items { RemovesFrom state key (Self.Key.eq query.now) self.old self.new }
        ensures unchanged { IfNone result (self.new ≡ self.old) }
        ensures stays { StaysKeyed state limit rule keyed self.old self.new };

    /// Visits the item of an equal key (`get_mut`), and returns what the visit did. The item stays as the visit
    /// made it, whatever that is. It returns `None` if there is none, and then neither map nor visitor has changed.
    /// No visit may change a key. Does not allocate.
    fn visit<V: Visit<Self::Item>>(&mut self, query: &Self::Key, visitor: &mut V) -> Option<bool>
        requires keyed { keyed self.old }
        requires keeps_keys { VisitsKeepKeys key Self.Key.eq V.visits }

        // if it is found
        ensures visited { VisitsIn state key V.visits (Self.Key.eq query.now) visitor.old visitor.new self.old self.new result }

        // if it is absent
        ensures absent { IfNone result (find_in state key (Self.Key.eq query.now) self.old ≡ None) }
        ensures unchanged { IfNone result ((self.new ≡ self.old) × (visitor.new ≡ visitor.old)) }

        // either way
        ensures stays { StaysKeyed state limit rule keyed self.old self.new };

    /// Visits each item once, in the map's order, and removes each whose visit returns false. No visit may change a
    /// key. Does not allocate.
    fn retain_mut<V: Visit<Self::Item>>(&mut self, visitor: &mut V)
    where
        Self::Item: Drop,
        requires keyed { keyed self.old }
        requires keeps_keys { VisitsKeepKeys key Self.Key.eq V.visits }
        ensures retained { RetainsIn state rule V.visits visitor.old visitor.new self.old self.new }
        ensures stays { StaysKeyed state limit rule keyed self.old self.new };

    /// Drops every item. A map that keeps a spare has the items' room as spare again. Does not allocate.
    fn clear(&mut self)
    where
        Self::Item: Drop,
        ensures empty { (state self.new).items ≡ [] }
        ensures stays { StaysKeyed state limit rule keyed self.old self.new };

    /// Makes room for `additional` more items. If the map keeps a spare, this many new keys are accepted then. The
    /// limit refuses it if it has no room for them, and else only memory does; never for as many as are spare. The
    /// items stay.
    fn reserve(&mut self, additional: usize) -> Result<(), TryReserveError>
        requires keyed { keyed self.old }
        ensures made { OnOk result (MakesRoomIn state limit rule additional self.old self.new) }
        ensures refused { IfErr result (RefusesRoom (limit self.old) additional (state self.old)) }
        ensures unchanged { (state self.new).items ≡ (state self.old).items }
        ensures stays { StaysKeyed state limit rule keyed self.old self.new };

    /// Gives back what memory the items do not need (`shrink_to_fit`). Refused or not, the items stay; the order in
    /// which a hash map has them may change, and its spare may go.
    fn shrink(&mut self) -> Result<(), TryReserveError>
        requires keyed { keyed self.old }
        ensures shrinks { ShrinksMap state limit rule keyed self.old self.new }
        ensures only_memory { IfErr result (λ error. error ≡ memory_refused) };

    /// How many items there are.
    fn len(&self) -> usize
        ensures len { result ≡ length (state self.now).items }
        ensures room { FitsRoom rule (limit self.now) (state self.now) };

    /// The item of a key equal to that of this item, or `None` (`get`).
    fn akin(&self, item: &Self::Item) -> Option<&Self::Item>
        requires keyed { keyed self.now }
        ensures found { option_copied result ≡ find_akin state key Self.Key.eq item.now self.now };

    /// Lends nothing. It is what a call returns at `Ok` whose error lends an item.
    fn lend_nothing(&mut self) -> &mut ()
        ensures* lends { sem 𝓛 (Lends Self.row unit self.entry result (λ _. self.old)) };

    /// Inserts the items one after another, each if none of an equal key exists. It first makes room: in an empty map
    /// for as many as there are items, and else for half of them, rounded up. If that is refused, the error has no item
    /// and the items are as they were. Else it stops at the first item of whose key one exists by then, and lends that
    /// one. Or it stops at the first that finds no room, after at least as many as were spare. It returns that item,
    /// keeps those before it, and drops the others. A duplicate does not allocate, and is searched for once more than
    /// `insert_unique` does.
    final fn extend_unique(
        &mut self,
        items: Vec<Self::Item>,
    ) -> Result<&mut (), ExtendUniqueError<'_, Self::Item>>
    where
        Self::Item: Drop,
        requires keyed { keyed self.old }
        ensures* after { sem 𝓛 (map_after_extension Self.row state limit rule keyed key Self.Key.eq self.entry result items.items) }
    {
        extend::extend_unique(self, items)
    }

    // No two items of a keyed map have equal keys.
    ghost differ: { (m : Self) → keyed m → NoTwoAkin key Self.Key.eq (state m).items };

    // The items of a keyed map lie as its rule says.
    ghost lie: { (m : Self) → keyed m → LieByRule key Self.Key.eq rule (state m).items };
}
