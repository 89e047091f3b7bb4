//! Keeping the slots that have an item: they move to the front, and the others are cut off behind them.
ghost use Rattle.std.specs.Prelude.{◌≡◌, ◌+◌, ◌^◌, ◌<◌, ◌≤◌, ◌++◌, drop, length, take};
ghost use Rattle.iddqd_ord_index.specs.Listed.{occupied_slots, unprepared};
ghost use Rattle.iddqd_ord_index.specs.Shape.{IsDense};

use super::OrdIndex;
use super::run_cache::{RUN, append};
use crate::tree::node::Node;
use crate::tree::root;
use arrayvec::ArrayVec;
use iddqd_store::ItemStore;

impl OrdIndex {
    /// Keeps the slots that have an item in the store, in their order, and removes the others. It reads each slot once.
    /// Does not allocate.
    pub fn retain_occupied<T>(&mut self, store: &ItemStore<T>)
        ensures { self.new ≡ unprepared (occupied_slots store.now self.old.slots) }
    {
        self.prepared = false;
        self.cache.clear();
        let kept = move_occupied(&mut self.root, self.len, store);
        let count = self.len - kept;
        self.levels = root::remove_part(&mut self.root, self.levels, kept, count, &mut self.pool);
        self.len = kept;
    }
}

// Writes the slots that have an item over the first ones, in their order, and returns how many there are.
fn move_occupied<T>(root: &mut Node, len: u32, store: &ItemStore<T>) -> u32
    requires len { len ≡ length root.old.slots }
    requires dense { IsDense root.old }
    ensures kept { take result root.new.slots ≡ occupied_slots store.now root.old.slots }
    ensures most { result ≤ len }
    ensures len { length root.new.slots ≡ length root.old.slots }
    ensures height { root.new.height ≡ root.old.height }
    ensures width { root.new.width ≡ root.old.width }
    ensures dense { IsDense root.new }
{
    let mut kept = 0;
    let mut at = 0;
    'read: while at < len {
        let mut run = ArrayVec::new();
        append(&mut run, root, at);
        at += run.len() as u32;
        let occupied = occupied_of(run.as_slice(), store);
        write_all(root, kept, occupied.as_slice());
        kept += occupied.len() as u32;
    }
    kept
}

// Returns those of these slots that have an item.
fn occupied_of<T>(run: &[u32], store: &ItemStore<T>) -> ArrayVec<u32, RUN>
    requires { length run.now ≤ RUN }
    ensures { result.items ≡ occupied_slots store.now run.now }
{
    let mut kept = ArrayVec::new();
    for i in 0..run.len() {
        let slot = run[i];
        if store.get(slot).is_some() {
            kept.push(slot);
        }
    }
    kept
}

// Writes these slots over those from the position on.
fn write_all(root: &mut Node, at: u32, slots: &[u32])
    requires in_list { at + length slots.now ≤ length root.old.slots }
    requires room { length root.old.slots < 2 ^ 32 }
    requires dense { IsDense root.old }

    // the slots
    ensures front { take (at + length slots.now) root.new.slots ≡ take at root.old.slots ++ slots.now }
    ensures back { drop (at + length slots.now) root.new.slots ≡ drop (at + length slots.now) root.old.slots }
    ensures len { length root.new.slots ≡ length root.old.slots }

    // the node
    ensures height { root.new.height ≡ root.old.height }
    ensures width { root.new.width ≡ root.old.width }
    ensures dense { IsDense root.new }
{
    let mut done = 0;
    'write: while done < slots.len() {
        done += root.write(at + done as u32, &slots[done..]);
    }
}
