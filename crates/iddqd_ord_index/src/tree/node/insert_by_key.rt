//! Insertion by a key: each node is searched by halves on the way down, and the slot goes in at the leaf.
ghost use Rattle.std.specs.Prelude.{◌≡◌, ◌+◌, ◌*◌, ◌^◌, ◌<◌, ◌≤◌, IsTrue, length};
ghost use Rattle.iddqd_store.specs.Counting.{CountsAtMost};
ghost use Rattle.iddqd_ord_index.specs.Inserting.{EndsIn, KeepsStock};
ghost use Rattle.iddqd_ord_index.specs.Listed.{AreOccupied};
ghost use Rattle.iddqd_ord_index.specs.Shape.{IsDense};
ghost use Rattle.iddqd_ord_index.specs.Standing.{slot_standing, StandsMonotone};

use super::Node;
use super::insert::add_branch;
use crate::tree::pool::BlockPool;
use crate::tree::search::search;
use crate::tree::slots::MOST_SLOTS;
use iddqd_store::{Comparable, IdOrdItem, ItemStore, Steps};

/// How an insertion by a key ended in a node.
#[derive(Drop)]
pub(crate) enum Outcome {
    // This slot has the key. Nothing has changed.
    Found(u32),
    // The slot was inserted. A node without room has given its upper half away, with the slot before it.
    Inserted(Option<(u32, Node)>),
    // The leaf is full and may not be split. Nothing has changed; the slot belongs at this position.
    Full(u32),
}

impl Node {
    // Inserts the slot where the query belongs, by at most four comparisons a level. A full leaf is split if the
    // unused blocks are `ready` for that.
    pub(crate) fn insert_by_key<T: IdOrdItem, Q: Comparable<T::Key>>(
        &mut self,
        store: &ItemStore<T>,
        query: &Q,
        slot: u32,
        ready: bool,
        pool: &mut BlockPool,
        steps: &mut Steps,
    ) -> Outcome
        requires occupied { AreOccupied store.now self.old.slots }
        requires monotone { StandsMonotone T.key (Q.compare query.now) store.now self.old.slots }
        requires room { length self.old.slots + 1 < 2 ^ 32 }
        requires enough { IsTrue ready → self.old.height ≤ pool.old.count + 1 }

        // the node
        ensures ends { EndsIn (slot_standing T.key (Q.compare query.now) store.now) ready slot self.old self.new result }
        ensures height { self.new.height ≡ self.old.height }
        ensures dense { IsDense self.new }

        // the unused blocks
        ensures left { pool.old.count < pool.new.count + self.old.height }
        ensures kept { KeepsStock pool.old pool.new result }
        ensures pool { (pool.new.wanted ≡ pool.old.wanted) × (pool.new.room ≡ pool.old.room) }

        // what it costs
        ensures steps { CountsAtMost steps.old steps.new (4 * self.old.height) }
    {
        let i = match search(self.slots.as_slice(), store, query, steps) {
            Ok(i) => return Outcome::Found(self.slots.as_slice()[i]),
            Err(i) => i,
        };
        if self.branches.is_empty() {
            if self.slots.len() == MOST_SLOTS && !ready {
                return Outcome::Full(i as u32);
            }
            return Outcome::Inserted(self.add_to_leaf(i as u32, slot));
        }
        let count = self.branches.count(i);
        let node = self.branches.block_mut().nodes[i].as_mut().unwrap();
        match node.insert_by_key(store, query, slot, ready, pool, steps) {
            Outcome::Found(found) => Outcome::Found(found),
            Outcome::Full(rest) => Outcome::Full(self.branches.start(i) + rest),
            Outcome::Inserted(None) => {
                self.branches.set_count(i, count + 1);
                Outcome::Inserted(None)
            }
            Outcome::Inserted(Some((middle, upper))) => {
                let above = upper.len();
                self.branches.set_count(i, count - above);
                Outcome::Inserted(add_branch(
                    &mut self.slots,
                    &mut self.branches,
                    i,
                    middle,
                    upper,
                    above,
                    pool,
                ))
            }
        }
    }
}
