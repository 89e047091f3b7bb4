//! The hash index: pairs of a hash and a slot, found by hash.
mod cell;
mod change;
mod group;
mod probe;
mod probe_sequence;
mod regroup;

ghost use Rattle.std.specs.Prelude.{◌≡◌, ℕ, ◌+◌, ◌-◌, ◌<◌, ◌≤◌, [], length, max, OnOk, OnErr, OnSome, IfOk, IfErr, IfNone, IfSome, Contains};
ghost use Rattle.std.specs.Prelude.{min as least};
ghost use Rattle.iddqd_store.specs.Counting.{CountsAtMost};
ghost use Rattle.iddqd_hash_index.specs.HashPairs.{SamePairs, AreOccupied, Doubles, Finds, GivesRoomBack, HasOneMore, HasInstead, Lacks, LosesPair, index_room, of_hash, of_slot};
ghost use Rattle.iddqd_hash_index.specs.Groups.{room_for};
ghost use Rattle.iddqd_store.specs.Refusal.{memory_refused};

use cell::Cell;
use change::{free_at, place, rename_in, take};
use group::Group;
use iddqd_store::{Equivalent, ItemStore, KeyOf, Steps, TryReserveError};
use probe::find_among;
use regroup::{MOST_ROOM, groups_for, regrouped, room_of};
use std::alloc::{AllocError, Global};
use std::marker::Model;

/// Pairs of a hash and a slot, each slot once. It computes no hash, and only searches look at items.
/// Contracts see the pairs, in no order, and how many more can be added.
/// The pairs are in groups of twelve lanes, with room for nine pairs in each group on average. So a pair takes 18 bytes
/// if all room is used. A group has the tags of its lanes, and the pairs lie apart. The hash chooses the group where a
/// search begins, its home. A pair that finds a group full goes to the next. A removal leaves nothing behind, and a
/// growth reads the stored hashes.
#[derive(Drop)]
pub struct HashIndex {
    groups: Vec<Group>,
    // The pair of each lane, group by group.
    cells: Vec<Cell>,
    // The number of pairs.
    len: usize,
    // The number of pairs that fit, never more than there are slot numbers.
    room: usize,
}

impl Model for HashIndex {
    ghost use Rattle.std.specs.Prelude.{◌-◌};
    ghost use Rattle.iddqd_hash_index.specs.Groups.{pairs_of, IsHashIndex};
    ghost use Rattle.iddqd_hash_index.specs.HashPairs.{HashPairs};

    ghost Value = { HashPairs };

    ghost view = { λ i. record { pairs = pairs_of i.groups.items i.cells.items; spare = i.room - i.len } };

    ghost invariant = { λ i. IsHashIndex i.groups.items i.cells.items i.len i.room };
}

impl HashIndex {
    /// Returns an index without pairs. Does not allocate.
    pub fn new(alloc: Global) -> Self
        ensures pairs { result.pairs ≡ [] }
        ensures spare { result.spare ≡ 0 }
    {
        HashIndex {
            groups: Vec::new(alloc),
            cells: Vec::new(alloc),
            len: 0,
            room: 0,
        }
    }

    /// Returns an index without pairs, with room for this many. It returns an error only if memory is refused; for
    /// 0 it does not allocate.
    pub fn with_capacity(alloc: Global, capacity: usize) -> Result<Self, TryReserveError>
        ensures pairs { IfOk result (λ i. i.pairs ≡ []) }
        ensures spare { IfOk result (λ i. capacity ≤ i.spare) }
        ensures only_memory { IfErr result (λ e. e ≡ memory_refused) }
        ensures asked { OnErr result (0 < capacity) }
    {
        let mut index = HashIndex::new(alloc);
        index.try_reserve(capacity)?;
        Ok(index)
    }

    /// Returns the number of pairs, in constant time.
    #[inline]
    pub fn len(&self) -> usize
        ensures number { result ≡ length self.now.pairs }
        ensures each_once { (slot : ℕ) → of_slot self.now.pairs slot ≤ 1 }
    {
        self.len
    }

    /// Returns how many more pairs can be added before memory is needed.
    #[inline]
    pub fn spare(&self) -> usize
        ensures { result ≡ self.now.spare }
    {
        self.room - self.len
    }

    /// Makes room for `additional` more pairs. It returns an error only if memory is refused, and does not allocate
    /// if there is room. If it grows, the room doubles at least, but never passes the number of slot numbers; it
    /// reads every pair then.
    #[inline]
    pub fn try_reserve(&mut self, additional: usize) -> Result<(), TryReserveError>
        // either way
        ensures pairs { SamePairs self.old.pairs self.new.pairs }

        // on success
        ensures ok { OnOk result (additional ≤ self.new.spare) }

        // on refusal
        ensures only_memory { IfErr result (λ e. e ≡ memory_refused) }
        ensures needed { OnErr result (self.old.spare < additional) }

        // the room
        ensures spare { self.old.spare ≤ self.new.spare }
        ensures doubles { OnOk result (self.old.spare < additional → Doubles self.old self.new) }
    {
        if additional <= self.room - self.len {
            return Ok(());
        }
        self.grow(additional)
            .map_err(|_| TryReserveError::alloc_error())
    }

    // Makes room that is not there yet. Refused or not, the pairs stay.
    #[cold]
    #[inline(never)]
    fn grow(&mut self, additional: usize) -> Result<(), AllocError>
        ensures pairs { SamePairs self.old.pairs self.new.pairs }
        ensures ok { OnOk result (additional ≤ self.new.spare) }
        ensures spare { self.old.spare ≤ self.new.spare }
        ensures doubles { OnOk result (Doubles self.old self.new) }
    {
        if additional > MOST_ROOM - self.len {
            return Err(AllocError);
        }
        let wanted = (self.len + additional).max(2 * self.room).min(MOST_ROOM);
        self.regroup(groups_for(wanted))
    }

    // Moves the pairs into this many new groups. If memory is refused, all stays as it was.
    fn regroup(&mut self, count: usize) -> Result<(), AllocError>
        requires room { length self.old.pairs ≤ room_for count }
        requires fits { count ≤ u32.MAX }

        // either way
        ensures pairs { SamePairs self.old.pairs self.new.pairs }
        ensures len { length self.new.pairs ≡ length self.old.pairs }

        // the room
        ensures spare { OnOk result (self.new.spare + length self.new.pairs ≡ room_for count) }
        ensures refused { OnErr result (self.new ≡ self.old) }
    {
        let (groups, cells) = regrouped(
            *self.groups.allocator(),
            self.groups.as_slice(),
            self.cells.as_slice(),
            count,
        )?;
        self.groups = groups;
        self.cells = cells;
        self.room = room_of(count);
        Ok(())
    }

    /// Returns the slot beside this hash whose item has the query's key, or `None`. It goes by the key that `K` names,
    /// and the hashes of this index must be of that key. Each slot that is listed beside the hash must have an item. It
    /// looks at each group at most once. It compares the keys of the pairs of exactly this hash, each at most once.
    #[inline(always)]
    pub fn find_by_key<T, K: KeyOf<T>, Q: Equivalent<K::Key>>(
        &self,
        store: &ItemStore<T>,
        hash: u64,
        query: &Q,
        steps: &mut Steps,
    ) -> Option<u32>
        requires occupied { AreOccupied store.now self.now.pairs hash }
        ensures found { Finds K.key (Q.equivalent query.now) store.now self.now.pairs hash result }
        ensures absent { Lacks K.key (Q.equivalent query.now) store.now self.now.pairs hash result }
        ensures steps { CountsAtMost steps.old steps.new (of_hash self.now.pairs hash) }
    {
        let groups = self.groups.as_slice();
        let cells = self.cells.as_slice();
        let (_, _, found) = find_among::<T, K, Q>(groups, cells, store, hash, query, steps)?;
        Some(found)
    }

    /// Adds the pair, whose slot no other pair has. There must be room, as `try_reserve(1)` makes it. It walks from
    /// the home of the hash to a free lane, and does not allocate.
    #[inline]
    pub fn add_reserved(&mut self, hash: u64, slot: u32)
        requires room { 0 < self.old.spare }
        requires absent { of_slot self.old.pairs slot ≡ 0 }
        ensures pairs { HasOneMore self.old.pairs self.new.pairs (hash, slot) }
        ensures spare { self.old.spare ≤ self.new.spare + 1 }
    {
        place(
            self.groups.as_mut_slice(),
            self.cells.as_mut_slice(),
            hash,
            slot,
        );
        self.len += 1;
    }

    /// Removes the pair, which must be there. Its room is free at once. It walks from the home of the hash to the
    /// pair, and does not allocate.
    pub fn remove(&mut self, hash: u64, slot: u32)
        requires present { Contains self.old.pairs (hash, slot) }
        ensures pairs { HasOneMore self.new.pairs self.old.pairs (hash, slot) }
        ensures spare { self.old.spare + 1 ≤ self.new.spare }
    {
        take(
            self.groups.as_mut_slice(),
            self.cells.as_slice(),
            hash,
            slot,
        );
        self.len -= 1;
    }

    /// Removes the pair that `find_by_key` finds, and returns its slot. If there is none, it returns `None` and changes
    /// nothing. It makes as many comparisons, and does not allocate.
    #[inline]
    pub fn remove_by_key<T, K: KeyOf<T>, Q: Equivalent<K::Key>>(
        &mut self,
        store: &ItemStore<T>,
        hash: u64,
        query: &Q,
        steps: &mut Steps,
    ) -> Option<u32>
        requires occupied { AreOccupied store.now self.old.pairs hash }

        // what is removed
        ensures found { Finds K.key (Q.equivalent query.now) store.now self.old.pairs hash result }
        ensures absent { Lacks K.key (Q.equivalent query.now) store.now self.old.pairs hash result }
        ensures pairs { IfSome result (LosesPair hash self.old.pairs self.new.pairs) }
        ensures spare { OnSome result (self.old.spare + 1 ≤ self.new.spare) }
        ensures unchanged { IfNone result (self.new ≡ self.old) }

        // what it costs
        ensures steps { CountsAtMost steps.old steps.new (of_hash self.old.pairs hash) }
    {
        let groups = self.groups.as_slice();
        let cells = self.cells.as_slice();
        let (at, lane, _) = find_among::<T, K, Q>(groups, cells, store, hash, query, steps)?;
        let slot = free_at(self.groups.as_mut_slice(), cells, hash, at, lane);
        self.len -= 1;
        Some(slot)
    }

    /// Gives the pair, which must be there, a new slot that no other pair has. It walks from the home of the hash
    /// to the pair, and does not allocate.
    pub fn rename(&mut self, hash: u64, old: u32, new: u32)
        requires present { Contains self.old.pairs (hash, old) }
        requires absent { of_slot self.old.pairs new ≡ 0 }
        ensures pairs { HasInstead self.old.pairs self.new.pairs (hash, old) (hash, new) }
        ensures spare { self.new.spare ≡ self.old.spare }
    {
        rename_in(
            self.groups.as_slice(),
            self.cells.as_mut_slice(),
            hash,
            old,
            new,
        );
    }

    /// Removes every pair. It writes each group, and neither allocates nor frees memory.
    pub fn clear(&mut self)
        ensures pairs { self.new.pairs ≡ [] }
        ensures spare { self.old.spare + length self.old.pairs ≤ self.new.spare }
    {
        self.groups.as_mut_slice().fill(Group::empty());
        self.len = 0;
    }

    /// Gives memory back, except for room for `min` pairs and for the existing ones. It gives some back if half the
    /// room is enough for them. It makes the smaller table beside the old one, so memory may be refused. Refused or
    /// not, the pairs stay, and a refusal leaves the room as it was. If it gives some back, it reads every pair.
    #[tactic(auto, unfolding(crate::specs::HashPairs::least_room))]
    pub fn shrink(&mut self, min: usize) -> Result<(), TryReserveError>
        ensures pairs { SamePairs self.old.pairs self.new.pairs }

        // on refusal
        ensures only_memory { IfErr result (λ e. e ≡ memory_refused) }
        ensures needed { OnErr result (max min (length self.old.pairs) < index_room self.old) }

        // the room
        ensures gives_back { OnOk result (GivesRoomBack self.old self.new min) }
        ensures room { least min (index_room self.old) ≤ index_room self.new }
        ensures refused { OnErr result (self.old.spare ≤ self.new.spare) }
    {
        let least = min.max(self.len).min(self.room);
        let count = groups_for(least);
        if room_of(count) < self.room {
            return self
                .regroup(count)
                .map_err(|_| TryReserveError::alloc_error());
        }
        Ok(())
    }

    /// Returns an index of the same pairs. It copies them as they lie. It returns an error only if memory is refused.
    pub fn try_clone(&self) -> Result<Self, TryReserveError>
        ensures pairs { IfOk result (λ copy. SamePairs self.now.pairs copy.pairs) }
        ensures only_memory { IfErr result (λ e. e ≡ memory_refused) }
    {
        self.copy().map_err(|_| TryReserveError::alloc_error())
    }

    // The same with the error of the vectors.
    fn copy(&self) -> Result<Self, AllocError>
        ensures pairs { IfOk result (λ copy. SamePairs self.now.pairs copy.pairs) }
    {
        let alloc = *self.groups.allocator();
        Ok(HashIndex {
            groups: Vec::from_slice(alloc, self.groups.as_slice())?,
            cells: Vec::from_slice(alloc, self.cells.as_slice())?,
            len: self.len,
            room: self.room,
        })
    }
}
