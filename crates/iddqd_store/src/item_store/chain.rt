//! Slots, and the chain that links the vacant ones both ways.
ghost use Rattle.std.specs.Prelude.{◌≡◌, ◌≢◌, ℕ, ◌<◌, IsSome, Some, None, slice_index_or, slice_set};
ghost use Rattle.iddqd_store.specs.Slots.{no_slot, item_of, items_of, links_at, links_without, IsChained, KeepsOtherLinks, SetsNext, SetsPrevious};
ghost use Rattle.std.specs.Borrow.{Lends, sem};

use std::alloc::AllocError;
use std::mem;

// Stands for no slot in place of a slot number. A store has fewer slots than this.
pub(super) const NO_SLOT: u32 = u32::MAX;

#[derive(Drop)]
pub(super) enum Slot<T> {
    Vacant(Links),
    Occupied(T),
}

// The vacant slots before and after this one in the chain, or `NO_SLOT`.
#[derive(Clone, Copy)]
pub(super) struct Links {
    previous: u32,
    next: u32,
    // Puts the links where an item of eight-byte alignment begins. A slot is then copied in whole words.
    align: [u64; 0],
}

impl<T: Clone> Clone for Slot<T> {
    ghost use Rattle.iddqd_store.specs.Slots.{IsSlotClone};

    ghost is_clone = { IsSlotClone T.is_clone };

    fn clone(&self) -> Result<Self, AllocError> {
        match self {
            Slot::Vacant(links) => Ok(Slot::Vacant(*links)),
            Slot::Occupied(item) => Ok(Slot::Occupied(item.clone()?)),
        }
    }
}

impl<T> Slot<T> {
    ghost use Rattle.iddqd_store.specs.contracts.item_store.chain.Slot.{the_row};

    #[inline]
    pub(super) fn item_mut(&mut self) -> &mut T
        requires { IsSome (item_of self.old) }
        ensures* lends { sem 𝓛 (Lends (the_row T.row) T.row self.entry result Slot.Occupied) }
        ensures item { item_of self.old ≡ Some result.now }
    {
        match self {
            Slot::Occupied(item) => item,
            Slot::Vacant(_) => unreachable!(),
        }
    }
}

// Writes the next of a vacant slot. It does nothing at `NO_SLOT`.
#[inline]
fn set_next<T>(slots: &mut [Slot<T>], at: u32, next: u32)
    requires { at ≢ no_slot → IsSome (links_at slots.old at) }
    ensures items { items_of slots.new ≡ items_of slots.old }
    ensures links { SetsNext (links_at slots.old) (links_at slots.new) at next }
    ensures others { KeepsOtherLinks (links_at slots.old) (links_at slots.new) at }
{
    if at == NO_SLOT {
        return;
    }
    if let Slot::Vacant(links) = &mut slots[at as usize] {
        links.next = next;
    }
}

// Writes the previous of a vacant slot. It does nothing at `NO_SLOT`.
#[inline]
fn set_previous<T>(slots: &mut [Slot<T>], at: u32, previous: u32)
    requires { at ≢ no_slot → IsSome (links_at slots.old at) }
    ensures items { items_of slots.new ≡ items_of slots.old }
    ensures links { SetsPrevious (links_at slots.old) (links_at slots.new) at previous }
    ensures others { KeepsOtherLinks (links_at slots.old) (links_at slots.new) at }
{
    if at == NO_SLOT {
        return;
    }
    if let Slot::Vacant(links) = &mut slots[at as usize] {
        links.previous = previous;
    }
}

// Removes a vacant slot from the chain, and returns the first of those that are left.
pub(super) fn unlink<T>(slots: &mut [Slot<T>], first: u32, at: usize) -> u32
    requires vacant { IsSome (links_at slots.old at) }
    requires chained { IsChained (links_at slots.old) first }
    ensures items { items_of slots.new ≡ items_of slots.old }
    ensures vacant { IsSome (links_at slots.new at) }
    ensures chained { IsChained (links_without (links_at slots.new) at) result }
{
    let Slot::Vacant(links) = &slots[at] else {
        unreachable!()
    };
    let links = *links;
    set_previous(slots, links.next, links.previous);
    set_next(slots, links.previous, links.next);
    if links.previous == NO_SLOT {
        return links.next;
    }
    first
}

// Inserts the item into the first vacant slot, and returns the first of those that are left.
#[inline]
pub(super) fn fill_first<T>(slots: &mut [Slot<T>], first: u32, item: T) -> u32
    requires some { first ≢ no_slot }
    requires chained { IsChained (links_at slots.old) first }
    ensures items { items_of slots.new ≡ slice_set (items_of slots.old) first (Some item) }
    ensures chained { IsChained (links_at slots.new) result }
{
    match mem::replace(&mut slots[first as usize], Slot::Occupied(item)) {
        Slot::Vacant(links) => {
            set_previous(slots, links.next, NO_SLOT);
            links.next
        }
        Slot::Occupied(_) => unreachable!(),
    }
}

// Inserts the item into a vacant slot, and returns the first of those that are left.
#[inline]
pub(super) fn fill<T>(slots: &mut [Slot<T>], first: u32, at: u32, item: T) -> u32
    requires vacant { IsSome (links_at slots.old at) }
    requires chained { IsChained (links_at slots.old) first }
    ensures items { items_of slots.new ≡ slice_set (items_of slots.old) at (Some item) }
    ensures chained { IsChained (links_at slots.new) result }
{
    let left = unlink(slots, first, at as usize);
    match mem::replace(&mut slots[at as usize], Slot::Occupied(item)) {
        Slot::Vacant(_) => left,
        Slot::Occupied(_) => unreachable!(),
    }
}

// Removes the item of an occupied slot, which is then the first of the vacant ones.
#[inline]
pub(super) fn vacate<T>(slots: &mut [Slot<T>], first: u32, at: u32) -> T
    requires number { at < no_slot }
    requires occupied { IsSome (slice_index_or (items_of slots.old) at None) }
    requires chained { IsChained (links_at slots.old) first }

    // afterwards
    ensures item { slice_index_or (items_of slots.old) at None ≡ Some result }
    ensures items { items_of slots.new ≡ slice_set (items_of slots.old) at None }
    ensures chained { IsChained (links_at slots.new) at }
{
    let links = Links {
        previous: NO_SLOT,
        next: first,
        align: [],
    };
    match mem::replace(&mut slots[at as usize], Slot::Vacant(links)) {
        Slot::Occupied(item) => {
            set_previous(slots, first, at);
            item
        }
        Slot::Vacant(_) => unreachable!(),
    }
}
