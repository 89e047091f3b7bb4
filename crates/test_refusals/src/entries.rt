//! Insertions that are refused, on both maps: those by an entry stand here.
use crate::prelude::*;
use iddqd::errors::Refused;

/// Names that ascend with their numbers. Their last byte is no letter.
pub(crate) fn name(number: u8) -> [u8; 3] {
    [b'a', b'b', number | 128]
}

const NEW: ([u8; 3], u32) = (*b"new", 6);

/// Whether an item of each number below the count is inserted, with the value 5.
pub(crate) fn fill(map: &mut Either<Coarse>, count: u8) -> bool {
    (0..count).all(|number| map.is_put(item_of(name(number), 5)))
}

/// Whether the map is sound and has those items, the new one if it is in, and no other.
pub(crate) fn holds(map: &Either<Coarse>, count: u8, is_new_in: bool) -> bool {
    (0..count).all(|number| map.spelled_at(name(number)) == Some((name(number), 5)))
        && map.spelled_at(NEW.0) == is_new_in.then_some(NEW)
        && map.len() == usize::from(count).saturating_add(usize::from(is_new_in))
        && map.is_sound()
}

/// The insertions. Those behind the first six are the ordered map's alone.
#[derive(Clone, Copy)]
pub(crate) enum By {
    InsertUnique,
    InsertOverwrite,
    VacantInsert,
    InsertEntry,
    OrInsert,
    OrInsertWith,
    InsertCounted,
    InsertRef,
    OrInsertRef,
    OrInsertWithRef,
}

// The item that an insertion leaves in the map.
fn left(inserted: Inserted<Coarse>, item: Coarse) -> Put {
    match inserted {
        Inserted::Done => Ok(Some(item)),
        Inserted::Duplicate(_, _) => Ok(None),
        Inserted::Refused(item, error) => Err(Refused { item, error }),
    }
}

// The item is taken out at once, and goes in again.
fn put_twice(map: &mut Either<Coarse>, item: Coarse) -> Put {
    let shown = map.put_and_remove(item)?;
    Ok(shown.filter(|_| map.is_put(item)))
}

// The insertions of the ordered map alone.
fn put_ordered(map: &mut Ordered<Coarse>, item: Coarse, by: By) -> Put {
    match by {
        By::InsertCounted => left(map.insert_counted(item).0, item),
        By::InsertRef => map.put_shown(item),
        By::OrInsertRef => map.show_or_put(item),
        _ => map.show_or_put_made(item),
    }
}

// The insertion of an item whose key is absent. A vacant entry is asked for by another name.
fn put(map: &mut Either<Coarse>, item: Coarse, by: By) -> Put {
    match by {
        By::InsertUnique => left(map.insert(item), item),
        By::InsertOverwrite => Ok(map.overwrite(item)?.xor(Some(item))),
        By::VacantInsert => map.put_vacant(&Caseless(*b"xyz"), item),
        By::InsertEntry => put_twice(map, item),
        By::OrInsert => map.double_or_put(item),
        By::OrInsertWith => map.find_or_put(item, &mut 0),
        _ => match map {
            Either::Ordered(map) => put_ordered(map, item, by),
            Either::Hashed(_) => Ok(None),
        },
    }
}

// Whether the new item is shown.
fn is_shown(answer: Put) -> bool {
    matches!(answer, Ok(Some(item)) if spelled(&item) == NEW)
}

// Fills the map with this many items, so that no slot is vacant. Then it tries the insertion of a new one with a
// request refused. If the item is returned, the map is as it was, and the same call then succeeds.
fn insertion(
    alloc: Global,
    mut map: Either<Coarse>,
    by: By,
    count: u8,
    refused: &'static str,
) -> Word {
    let is_full = fill(&mut map, count);
    let walk = map.listed(alloc)?;
    let (new_name, new_value) = NEW;
    arm(alloc);
    let answer = put(&mut map, item_of(new_name, new_value), by);
    let is_met = is_met(alloc);
    let is_right = match answer {
        Err(Refused { item, error }) => {
            let is_kept = holds(&map, count, false) && map.lists(walk.as_slice());
            let is_back = spelled(&item) == NEW && !error.is_capacity_overflow();
            is_met && is_back && is_kept && map.vacant() == 0 && is_shown(put(&mut map, item, by))
        }
        done => !is_met && is_shown(done),
    };
    let is_well = is_full && is_right && holds(&map, count, true);
    word_by_refusal(is_well, is_met, ["inserted", refused])
}

/// The word for an insertion into an ordered map of this many items.
pub(crate) fn put_in_order(alloc: Global, by: By, count: u8, refused: &'static str) -> Word {
    insertion(alloc, in_order(alloc), by, count, refused)
}

/// The word for an insertion into a hash map.
pub(crate) fn put_by_hash(alloc: Global, by: By, count: u8, refused: &'static str) -> Word {
    insertion(alloc, by_hash(alloc), by, count, refused)
}

const ENTRY: &str = "entry_refused";

#[test]
fn insert_ref(rt: HostRuntime) -> Result<(), Fail> {
    tell(&rt, put_in_order(rt.alloc(), By::InsertRef, 4, ENTRY))
}

#[test]
fn or_insert_ref(rt: HostRuntime) -> Result<(), Fail> {
    tell(&rt, put_in_order(rt.alloc(), By::OrInsertRef, 4, ENTRY))
}

#[test]
fn or_insert_with_ref(rt: HostRuntime) -> Result<(), Fail> {
    tell(&rt, put_in_order(rt.alloc(), By::OrInsertWithRef, 4, ENTRY))
}

#[test]
fn vacant_insert(rt: HostRuntime) -> Result<(), Fail> {
    tell(&rt, put_in_order(rt.alloc(), By::VacantInsert, 4, ENTRY))
}

#[test]
fn hash_vacant_insert(rt: HostRuntime) -> Result<(), Fail> {
    tell(&rt, put_by_hash(rt.alloc(), By::VacantInsert, 9, ENTRY))
}

#[test]
fn insert_entry(rt: HostRuntime) -> Result<(), Fail> {
    tell(&rt, put_in_order(rt.alloc(), By::InsertEntry, 4, ENTRY))
}

#[test]
fn hash_insert_entry(rt: HostRuntime) -> Result<(), Fail> {
    tell(&rt, put_by_hash(rt.alloc(), By::InsertEntry, 9, ENTRY))
}

#[test]
fn or_insert(rt: HostRuntime) -> Result<(), Fail> {
    tell(&rt, put_in_order(rt.alloc(), By::OrInsert, 4, ENTRY))
}

#[test]
fn hash_or_insert(rt: HostRuntime) -> Result<(), Fail> {
    tell(&rt, put_by_hash(rt.alloc(), By::OrInsert, 9, ENTRY))
}

#[test]
fn or_insert_with(rt: HostRuntime) -> Result<(), Fail> {
    tell(&rt, put_in_order(rt.alloc(), By::OrInsertWith, 4, ENTRY))
}

#[test]
fn hash_or_insert_with(rt: HostRuntime) -> Result<(), Fail> {
    tell(&rt, put_by_hash(rt.alloc(), By::OrInsertWith, 9, ENTRY))
}
