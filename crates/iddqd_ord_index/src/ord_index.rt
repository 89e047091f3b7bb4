//! The ordered index: slots in an order that its caller keeps, searched by the keys of their items.
ghost use Rattle.std.specs.Prelude.{◌≡◌, ◌-◌, ◌<◌, ◌≤◌, true, [], ◌++◌, length, take, drop, insert, remove, slice_get, slice_set, nat_eq, IsTrue, OnOk, OnErr, IfOk, IfErr, Contains};
ghost use Rattle.std.specs.List.{IsDistinct};
ghost use Rattle.iddqd_ord_index.specs.Listed.{unprepared};
ghost use Rattle.iddqd_store.specs.Refusal.{memory_refused};

mod insert_by_key;
mod into_walk;
mod lookups;
mod remove_by_key;
mod retain_occupied;
mod run_cache;
mod walk;

use crate::tree::node::Node;
use crate::tree::pool::BlockPool;
use crate::tree::root;
use iddqd_store::TryReserveError;
pub use insert_by_key::Insertion;
pub use into_walk::IntoWalk;
use run_cache::RunCache;
use std::alloc::Global;
use std::marker::Model;
pub use walk::Walk;

/// A place in the list of an index, or the one behind its last slot. Contracts see its position.
#[derive(Clone, Copy, Debug, PartialEq, Eq)]
pub struct Place {
    position: u32,
}

impl Model for Place {
    ghost use Rattle.std.specs.Prelude.{ℕ};

    ghost Value = { ℕ };

    ghost view = { λ p. p.position };

    ghost inverse = { λ n. record { position = n } };
}

impl Place {
    /// Returns the position of the place: how many slots stand before it.
    #[inline]
    pub fn position(self) -> usize
        ensures { result ≡ self }
    {
        self.position as usize
    }
}

/// Slots in order, each once. Only a search looks at items. Contracts see the list, and whether the index is
/// prepared for one insertion. Only `prepare` prepares it. `add_prepared`, an `insert_by_key` that inserts, the removals,
/// `rename` and `clear` leave it not prepared, even if the list stays the same. A clone is not prepared.
#[derive(Drop)]
pub struct OrdIndex {
    root: Node,
    len: u32,
    levels: usize,
    pool: BlockPool,
    // Whether an insertion does not allocate.
    prepared: bool,
    // The slots that `slot_in_turn` has read last.
    cache: RunCache,
    alloc: Global,
}

impl Model for OrdIndex {
    ghost use Rattle.iddqd_ord_index.specs.Listed.{SlotList};

    ghost Value = { SlotList };

    ghost use Rattle.iddqd_ord_index.specs.IndexParts.{IsIndex};

    ghost view = { λ i. record { slots = i.root.slots; prepared = i.prepared } };

    ghost invariant = { λ i. IsIndex i };
}

impl OrdIndex {
    /// Returns an index without slots. Does not allocate.
    pub fn new(alloc: Global) -> Self
        ensures { result ≡ unprepared [] }
    {
        OrdIndex {
            root: Node::new(),
            len: 0,
            levels: 1,
            pool: BlockPool::new(alloc),
            prepared: false,
            cache: RunCache::new(),
            alloc,
        }
    }

    /// Returns the number of slots, in constant time.
    pub fn len(&self) -> u32
        ensures number { result ≡ length self.now.slots }
        ensures each_once { IsDistinct nat_eq self.now.slots }
    {
        self.len
    }

    /// Returns the place of this position: of the slot with this many before it, or the one behind the last slot. A
    /// place is only a number. One from before a change means that position in the list as it is now.
    pub fn place(&self, at: usize) -> Place
        requires { at ≤ length self.now.slots }
        ensures { result ≡ at }
    {
        prove!(at <= self.len() as usize);
        Place {
            position: at as u32,
        }
    }

    /// Returns the slot at the place. It goes down the tree, and looks at no key.
    pub fn slot_at(&self, place: Place) -> u32
        requires { place < length self.now.slots }
        ensures { slice_get self.now.slots place ≡ Some result }
    {
        self.root.slot_at(place.position)
    }

    /// Returns the slot at the place, as `slot_at` does. Calls for one place after the other descend once for several
    /// slots, as long as the list does not change.
    #[inline]
    pub fn slot_in_turn(&mut self, place: Place) -> u32
        requires { place < length self.old.slots }
        ensures slot { slice_get self.old.slots place ≡ Some result }
        ensures unchanged { self.new ≡ self.old }
    {
        self.cache.slot_at(&self.root, place.position)
    }

    /// Allocates all that one insertion at any place can need. It returns an error only if memory is refused.
    pub fn prepare(&mut self) -> Result<(), TryReserveError>
        requires { length self.old.slots < u32.MAX }
        ensures ok { OnOk result (self.new ≡ record self.old { prepared = true }) }
        ensures err { OnErr result (self.new ≡ self.old) }
        ensures only_memory { IfErr result (λ e. e ≡ memory_refused) }
    {
        match self.pool.prepare(self.levels, self.alloc) {
            Ok(()) => {
                self.prepared = true;
                Ok(())
            }
            Err(_) => Err(TryReserveError::alloc_error()),
        }
    }

    /// Inserts the slot at the place. The others keep their order. Does not allocate.
    pub fn add_prepared(&mut self, place: Place, slot: u32)
        requires prepared { IsTrue self.old.prepared }
        requires in_list { place ≤ length self.old.slots }
        requires absent { ¬ Contains self.old.slots slot }
        ensures { self.new ≡ unprepared (insert self.old.slots place slot) }
    {
        self.prepared = false;
        self.cache.clear();
        self.levels = root::add(
            &mut self.root,
            self.levels,
            self.len,
            place.position,
            slot,
            &mut self.pool,
        );
        self.len += 1;
        self.pool.want(self.levels);
    }

    /// Removes the slot at the place, and returns it. Does not allocate.
    pub fn remove(&mut self, place: Place) -> u32
        requires { place < length self.old.slots }
        ensures slot { slice_get self.old.slots place ≡ Some result }
        ensures after { self.new ≡ unprepared (remove self.old.slots place) }
    {
        self.prepared = false;
        self.cache.remove(place.position);
        let (slot, levels) = root::remove(
            &mut self.root,
            self.levels,
            place.position,
            &mut self.pool,
        );
        self.levels = levels;
        self.len -= 1;
        slot
    }

    /// Removes the slots from one place on up to another. Whole branches of the tree go at once where they may. Does not
    /// allocate.
    pub fn remove_between(&mut self, from: Place, to: Place)
        requires forward { from ≤ to }
        requires in_list { to ≤ length self.old.slots }
        ensures { self.new ≡ unprepared (take from self.old.slots ++ drop to self.old.slots) }
    {
        self.prepared = false;
        self.cache.clear();
        let count = to.position - from.position;
        self.levels = root::remove_part(
            &mut self.root,
            self.levels,
            from.position,
            count,
            &mut self.pool,
        );
        self.len -= count;
    }

    /// Returns the first slot, or `None` if there is none. It goes down the tree.
    pub fn first(&self) -> Option<u32>
        ensures { result ≡ slice_get self.now.slots 0 }
    {
        self.root.first()
    }

    /// Returns the last slot, or `None` if there is none. It goes down the tree.
    pub fn last(&self) -> Option<u32>
        ensures { result ≡ slice_get self.now.slots (length self.now.slots - 1) }
    {
        self.root.last()
    }

    /// Removes the first slot and returns it, or returns `None` if there is none. Does not allocate.
    pub fn remove_first(&mut self) -> Option<u32>
        ensures slot { result ≡ slice_get self.old.slots 0 }
        ensures after { self.new ≡ unprepared (drop 1 self.old.slots) }
    {
        if self.len == 0 {
            self.prepared = false;
            return None;
        }
        Some(self.remove(Place { position: 0 }))
    }

    /// Removes the last slot and returns it, or returns `None` if there is none. Does not allocate.
    pub fn remove_last(&mut self) -> Option<u32>
        ensures slot { result ≡ slice_get self.old.slots (length self.old.slots - 1) }
        ensures after { self.new ≡ unprepared (take (length self.old.slots - 1) self.old.slots) }
    {
        if self.len == 0 {
            self.prepared = false;
            return None;
        }
        Some(self.remove(Place {
            position: self.len - 1,
        }))
    }

    /// Replaces the slot at the place by a new one. Does not allocate.
    pub fn rename(&mut self, place: Place, new: u32)
        requires in_list { place < length self.old.slots }
        requires absent { ¬ Contains self.old.slots new }
        ensures { self.new ≡ unprepared (slice_set self.old.slots place new) }
    {
        self.prepared = false;
        self.cache.clear();
        self.root.write(place.position, &[new]);
    }

    /// Removes every slot. It drops the nodes of the tree and keeps the unused blocks, and does not allocate.
    pub fn clear(&mut self)
        ensures { self.new ≡ unprepared [] }
    {
        self.prepared = false;
        self.cache.clear();
        self.root = Node::new();
        self.len = 0;
        self.levels = 1;
    }

    /// Returns an iterator over the slots, in order. Does not allocate.
    pub fn walk(&self) -> Walk<'_>
        ensures slots { result ≡ self.now.slots }
        ensures fits { length result ≤ u32.MAX }
    {
        Walk::new(&self.root, 0, self.len)
    }

    /// Returns an iterator over the slots from one place on up to another, in order. Does not allocate.
    pub fn walk_between(&self, from: Place, to: Place) -> Walk<'_>
        requires forward { from ≤ to }
        requires in_list { to ≤ length self.now.slots }
        ensures slots { result ≡ drop from (take to self.now.slots) }
        ensures fits { length result ≤ u32.MAX }
    {
        Walk::new(&self.root, from.position, to.position)
    }

    /// Turns the index into an iterator over its slots, in order. Does not allocate.
    pub fn into_walk(self) -> IntoWalk
        ensures slots { result ≡ self.slots }
        ensures fits { length result ≤ u32.MAX }
    {
        IntoWalk::new(self.root, self.len)
    }

    /// Returns an index of the same slots, not prepared. It returns an error only if memory is refused.
    pub fn try_clone(&self) -> Result<Self, TryReserveError>
        ensures ok { IfOk result (λ copy. copy ≡ unprepared self.now.slots) }
        ensures only_memory { IfErr result (λ e. e ≡ memory_refused) }
    {
        let Ok(root) = self.root.try_clone(self.alloc) else {
            return Err(TryReserveError::alloc_error());
        };
        let Ok(pool) = BlockPool::wanting(self.levels, self.alloc) else {
            return Err(TryReserveError::alloc_error());
        };
        Ok(OrdIndex {
            root,
            len: self.len,
            levels: self.levels,
            pool,
            prepared: false,
            cache: RunCache::new(),
            alloc: self.alloc,
        })
    }
}
