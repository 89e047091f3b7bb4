//! How a store closes up: vacant slots at its end are removed, and its last item moves to a vacant one.
ghost use Rattle.std.specs.Prelude.{◌≡◌, ◌≢◌, ◌-◌, ◌<◌, ◌≤◌, None, is_some, count_by, vec_len, vec_capacity};
ghost use Rattle.iddqd_store.specs.Store.{HaveAsMany};
ghost use Rattle.iddqd_store.specs.Slots.{no_slot, items_of, links_at, IsChained, MovesItem, SameSlots};

use super::chain::{Slot, fill_first, unlink};

// Removes the vacant slots at the end, and returns the first of the vacant ones that are left.
pub(super) fn cut_vacant<T>(slots: &mut Vec<Slot<T>>, first: u32) -> u32
    requires { IsChained (links_at slots.old.items) first }

    // afterwards
    ensures chained { IsChained (links_at slots.new.items) result }
    ensures items { SameSlots (items_of slots.old.items) (items_of slots.new.items) }
    ensures ends { 0 < vec_len slots.new → links_at slots.new.items (vec_len slots.new - 1) ≡ None }
    ensures shorter { vec_len slots.new ≤ vec_len slots.old }
    ensures capacity { vec_capacity slots.new ≡ vec_capacity slots.old }
{
    let mut first = first;
    while let Some(Slot::Vacant(_)) = slots.last() {
        let at = slots.len() - 1;
        first = unlink(slots.as_mut_slice(), first, at);
        match slots.pop().unwrap() {
            Slot::Vacant(_) => {}
            Slot::Occupied(_) => unreachable!(),
        }
    }
    first
}

// Moves the item of the last slot to the first vacant one, and returns the first of the vacant ones that are left.
pub(super) fn move_last<T>(slots: &mut Vec<Slot<T>>, hole: u32) -> u32
    requires hole { hole ≢ no_slot }
    requires chained { IsChained (links_at slots.old.items) hole }
    requires last { links_at slots.old.items (vec_len slots.old - 1) ≡ None }

    // afterwards
    ensures chained { IsChained (links_at slots.new.items) result }
    ensures moves { MovesItem slots.old.items slots.new.items (vec_len slots.old - 1) hole }
    ensures count { HaveAsMany (items_of slots.old.items) (items_of slots.new.items) }
    ensures shorter { vec_len slots.new < vec_len slots.old }
    ensures capacity { vec_capacity slots.new ≡ vec_capacity slots.old }
{
    let item = match slots.pop().unwrap() {
        Slot::Occupied(item) => item,
        Slot::Vacant(_) => unreachable!(),
    };
    fill_first(slots.as_mut_slice(), hole, item)
}
