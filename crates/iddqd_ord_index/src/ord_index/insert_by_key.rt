//! Insertion by a key, which goes down the tree once.
ghost use Rattle.std.specs.Prelude.{◌≡◌, ◌+◌, ◌*◌, ◌<◌, ◌≤◌, false, length, Contains};
ghost use Rattle.iddqd_store.specs.Contents.{Ascends};
ghost use Rattle.iddqd_store.specs.Counting.{CountsAtMost};
ghost use Rattle.iddqd_ord_index.specs.Digits.{digits};
ghost use Rattle.iddqd_ord_index.specs.Inserting.{FindsIn, IfFound, IfUnprepared, InsertsIn, KeepsUnlessInserted, ReturnsPlace};
ghost use Rattle.iddqd_ord_index.specs.Listed.{listed_items, AreOccupied};

use super::{OrdIndex, Place};
use crate::tree::node::Outcome;
use crate::tree::root::push_root_level;
use iddqd_store::{Comparable, IdOrdItem, ItemStore, Steps};

/// How an insertion by a key ended.
#[derive(Drop)]
pub enum Insertion {
    /// The item of this slot has the key. Nothing has changed.
    Found(u32),
    /// The slot was inserted.
    Inserted,
    /// The leaf is full, and too few unused blocks are kept. Nothing has changed, and the slot belongs at this place.
    Unprepared(Place),
}

impl OrdIndex {
    /// Inserts the slot where the query's key belongs, unless an item has that key. It goes down the tree once, and
    /// makes at most 4 + 2 d comparisons, d the number of binary digits of `len`. The slot's own item is not looked at.
    /// If the leaf is full and too few unused blocks are kept, nothing changes, and it returns the place. A prepared
    /// index always has enough. After an insertion the index is not prepared. Does not allocate.
    pub fn insert_by_key<T: IdOrdItem, Q: Comparable<T::Key>>(
        &mut self,
        store: &ItemStore<T>,
        query: &Q,
        slot: u32,
        steps: &mut Steps,
    ) -> Insertion
        requires occupied { AreOccupied store.now self.old.slots }
        requires ascending { Ascends T.key T.Key.cmp (listed_items store.now self.old.slots) }
        requires absent { ¬ Contains self.old.slots slot }
        requires room { length self.old.slots < u32.MAX }

        // if an item has the key
        ensures found { FindsIn T.key (Q.equivalent query.now) store.now self.old.slots result }
        ensures listed { IfFound result (Contains self.old.slots) }

        // if the slot was inserted
        ensures inserted { InsertsIn T.key (Q.compare query.now) store.now slot self.old self.new result }

        // if a full leaf may not be split
        ensures place { ReturnsPlace T.key (Q.compare query.now) store.now self.old.slots result }
        ensures in_list { IfUnprepared result (λ place. place ≤ length self.old.slots) }
        ensures unprepared { IfUnprepared result (λ _. self.old.prepared ≡ false) }

        // if it was not inserted
        ensures kept { KeepsUnlessInserted self.old self.new result }

        // what it costs
        ensures steps { CountsAtMost steps.old steps.new (4 + 2 * digits (length self.old.slots)) }
    {
        let ready = self.pool.is_filled(self.levels);
        let (pool, root) = (&mut self.pool, &mut self.root);
        let split = match root.insert_by_key(store, query, slot, ready, pool, steps) {
            Outcome::Found(found) => return Insertion::Found(found),
            Outcome::Full(position) => return Insertion::Unprepared(Place { position }),
            Outcome::Inserted(split) => split,
        };
        self.prepared = false;
        self.cache.clear();
        if let Some((middle, upper)) = split {
            push_root_level(&mut self.root, self.len, middle, upper, &mut self.pool);
            self.levels += 1;
            self.pool.want(self.levels);
        }
        self.len += 1;
        Insertion::Inserted
    }
}
