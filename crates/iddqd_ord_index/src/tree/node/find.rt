//! Search: by halves in each node on the way down.
ghost use Rattle.std.specs.Prelude.{◌≡◌, ◌*◌, ◌^◌, ◌<◌, length, IfOk};
ghost use Rattle.iddqd_store.specs.Counting.{CountsAtMost};
ghost use Rattle.iddqd_ord_index.specs.Listed.{AreOccupied};
ghost use Rattle.iddqd_ord_index.specs.Search.{HasSlotAt};
ghost use Rattle.iddqd_ord_index.specs.Standing.{StandsAmong, StandsMonotone, StandsPlaced};

use super::Node;
use crate::tree::search::search;
use iddqd_store::{Comparable, IdOrdItem, ItemStore, Steps};

impl Node {
    // Where the query belongs, and the slot there if it equals one, by at most four comparisons a level.
    pub(crate) fn find<T: IdOrdItem, Q: Comparable<T::Key>>(
        &self,
        store: &ItemStore<T>,
        query: &Q,
        steps: &mut Steps,
    ) -> Result<(u32, u32), u32>
        requires occupied { AreOccupied store.now self.now.slots }
        requires monotone { StandsMonotone T.key (Q.compare query.now) store.now self.now.slots }
        requires room { length self.now.slots < 2 ^ 32 }

        // what it finds
        ensures place { StandsPlaced T.key (Q.compare query.now) store.now self.now.slots result }
        ensures slot { IfOk result (HasSlotAt self.now.slots) }

        // what it costs
        ensures steps { CountsAtMost steps.old steps.new (4 * self.now.height) }
    {
        let mut node = self;
        let mut base = 0;
        'down: while !node.branches.is_empty() {
            match search(node.slots.as_slice(), store, query, steps) {
                Ok(i) => {
                    let position = base + node.branches.start(i + 1) - 1;
                    return Ok((position, node.slots.as_slice()[i]));
                }
                Err(i) => {
                    base += node.branches.start(i);
                    node = node.branches.get(i);
                }
            }
        }
        match search(node.slots.as_slice(), store, query, steps) {
            Ok(i) => Ok((base + i as u32, node.slots.as_slice()[i])),
            Err(i) => Err(base + i as u32),
        }
    }

    // The slot whose item has the query's key, by as many comparisons. It adds up no positions.
    pub(crate) fn get<T: IdOrdItem, Q: Comparable<T::Key>>(
        &self,
        store: &ItemStore<T>,
        query: &Q,
        steps: &mut Steps,
    ) -> Option<u32>
        requires occupied { AreOccupied store.now self.now.slots }
        requires monotone { StandsMonotone T.key (Q.compare query.now) store.now self.now.slots }
        ensures found { StandsAmong T.key (Q.compare query.now) store.now self.now.slots result }
        ensures steps { CountsAtMost steps.old steps.new (4 * self.now.height) }
    {
        let mut node = self;
        'down: while !node.branches.is_empty() {
            match search(node.slots.as_slice(), store, query, steps) {
                Ok(i) => return Some(node.slots.as_slice()[i]),
                Err(i) => node = node.branches.get(i),
            }
        }
        match search(node.slots.as_slice(), store, query, steps) {
            Ok(i) => Some(node.slots.as_slice()[i]),
            Err(_) => None,
        }
    }
}
