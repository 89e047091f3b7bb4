//! The own slots of a node. Their number takes four bytes, so that a leaf is small.
ghost use Rattle.std.specs.Prelude.{true, ◌≡◌, ◌+◌, ◌-◌, ◌<◌, ◌≤◌, ◌↔◌, [], ◌∷◌, ◌++◌, length, min, take, drop, insert, remove, slice_index, slice_index_or, slice_set, option_to_list, IsSome, OnSome};
ghost use Rattle.arrayvec.specs.ArrayVec.{array_vec_len};

use super::cells;
use std::marker::Model;
use std::mem;

/// How many slots of its own a node has room for.
pub(crate) const MOST_SLOTS: usize = 11;

/// At most `MOST_SLOTS` slots. Contracts see them as those of an `ArrayVec`.
#[derive(Drop)]
pub(crate) struct Slots {
    cells: [u32; MOST_SLOTS],
    len: u32,
}

impl Model for Slots {
    ghost use Rattle.std.specs.Prelude.{◌≤◌, ℕ, take};
    ghost use Rattle.arrayvec.specs.ArrayVec.{ArrayVec};
    ghost use Rattle.iddqd_ord_index.specs.Shape.{most_slots};

    ghost Value = { ArrayVec ℕ };

    ghost view = { λ s. record { items = take s.len s.cells } };

    ghost invariant = { λ s. s.len ≤ most_slots };
}

impl Slots {
    pub(crate) fn new() -> Self
        ensures { result.items ≡ [] }
    {
        Slots {
            cells: [0; MOST_SLOTS],
            len: 0,
        }
    }

    #[inline]
    pub(crate) fn len(&self) -> usize
        ensures value { result ≡ array_vec_len self.now }
        ensures fits { result ≤ MOST_SLOTS }
    {
        self.len as usize
    }

    #[inline]
    pub(crate) fn as_slice(&self) -> &[u32]
        ensures value { result.now ≡ self.now.items }
        ensures fits { length result.now ≤ MOST_SLOTS }
    {
        &self.cells[..self.len as usize]
    }

    // Inserts a slot at place `i`, and moves the later ones up.
    pub(crate) fn insert(&mut self, i: usize, slot: u32)
        requires in_bounds { i ≤ array_vec_len self.old }
        requires room { array_vec_len self.old < MOST_SLOTS }
        ensures items { self.new.items ≡ insert self.old.items i slot }
        ensures len { array_vec_len self.new ≡ array_vec_len self.old + 1 }
    {
        let len = self.len as usize;
        self.cells[len] = slot;
        cells::rotate_in(&mut self.cells[..len + 1], i);
        self.len += 1;
    }

    // Removes the slot at place `i` and returns it, and moves the later ones down.
    pub(crate) fn remove(&mut self, i: usize) -> u32
        requires { i < array_vec_len self.old }
        ensures value { result ≡ slice_index_or self.old.items i result }
        ensures items { self.new.items ≡ remove self.old.items i }
        ensures len { array_vec_len self.new + 1 ≡ array_vec_len self.old }
    {
        let len = self.len as usize;
        let slot = self.cells[i];
        cells::rotate_out(&mut self.cells[..len], i);
        self.len -= 1;
        slot
    }

    // Removes `count` slots from place `i` on, and moves the later ones down.
    pub(crate) fn remove_part(&mut self, i: usize, count: usize)
        requires { i + count ≤ array_vec_len self.old }
        ensures { self.new.items ≡ take i self.old.items ++ drop (i + count) self.old.items }
    {
        let len = self.len as usize;
        self.cells.copy_within(i + count..len, i);
        self.len -= count as u32;
    }

    pub(crate) fn push(&mut self, slot: u32)
        requires { array_vec_len self.old < MOST_SLOTS }
        ensures items { self.new.items ≡ self.old.items ++ slot ∷ [] }
        ensures len { array_vec_len self.new ≡ array_vec_len self.old + 1 }
    {
        self.cells[self.len as usize] = slot;
        self.len += 1;
    }

    pub(crate) fn pop(&mut self) -> Option<u32>
        ensures items { self.old.items ≡ self.new.items ++ option_to_list result }
        ensures variant { IsSome result ↔ (0 < array_vec_len self.old) }
        ensures len { OnSome result (array_vec_len self.new + 1 ≡ array_vec_len self.old) }
    {
        if self.len == 0 {
            return None;
        }
        self.len -= 1;
        Some(self.cells[self.len as usize])
    }

    // Keeps the first `len` slots.
    pub(crate) fn truncate(&mut self, len: usize)
        ensures items { self.new.items ≡ take len self.old.items }
    {
        if len < self.len as usize {
            self.len = len as u32;
        }
    }

    pub(crate) fn clear(&mut self)
        ensures { self.new.items ≡ [] }
    {
        self.len = 0;
    }

    pub(crate) fn extend_from_slice(&mut self, more: &[u32])
        requires { array_vec_len self.old + length more.now ≤ MOST_SLOTS }
        ensures items { self.new.items ≡ self.old.items ++ more.now }
        ensures len { array_vec_len self.new ≡ array_vec_len self.old + length more.now }
    {
        let len = self.len as usize;
        self.cells[len..len + more.len()].copy_from_slice(more);
        self.len += more.len() as u32;
    }

    // Writes the first of these slots over those from place `i` on, as many as there are, and returns how many.
    pub(crate) fn write(&mut self, i: usize, more: &[u32]) -> usize
        requires { i ≤ array_vec_len self.old }
        ensures number { result ≡ min (length more.now) (array_vec_len self.old - i) }
        ensures items { self.new.items ≡ take i self.old.items ++ (take result more.now ++ drop (i + result) self.old.items) }
    {
        let count = more.len().min(self.len as usize - i);
        self.cells[i..i + count].copy_from_slice(&more[..count]);
        count
    }

    // Replaces the slot at place `i` by another, and returns it.
    pub(crate) fn replace(&mut self, i: usize, new: u32) -> u32
        requires { i < array_vec_len self.old }
        ensures value { result ≡ slice_index self.old.items i }
        ensures items { self.new.items ≡ slice_set self.old.items i new }
    {
        let len = self.len as usize;
        mem::replace(&mut self.cells[..len][i], new)
    }
}
