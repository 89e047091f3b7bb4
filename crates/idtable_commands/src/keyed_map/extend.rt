//! Inserting many items, up to the first that is not inserted.
ghost use Rattle.std.specs.Prelude.{◌≡◌, IfErr, IfOk, OnErr, OnOk};
ghost use Rattle.std.specs.Borrow.{sem};
ghost use Rattle.idtable_commands.specs.KeyedMap.{KeepsMap, StaysKeyed};
ghost use Rattle.idtable_commands.specs.Running.{InsertsEach, InsertsOne, RefusesEach, RefusesOneIn, ends_extension};
ghost use Rattle.idtable_commands.specs.Step.{FitsRoom};

use super::KeyedMap;
use iddqd::errors::{DuplicateItem, ExtendError, ExtendUniqueError, Few, InsertError, Refused};
use iddqd::internal::room_to_reserve;

// An item that was not inserted.
#[derive(Drop)]
pub(crate) enum NotInserted<T> {
    // One of an equal key is there.
    Akin(T),
    // There was no room.
    Refused(Refused<T>),
}

/// The trait's `extend_unique`.
pub(super) fn extend_unique<M: KeyedMap>(
    map: &mut M,
    items: Vec<M::Item>,
) -> Result<&mut (), ExtendUniqueError<'_, M::Item>>
where
    M::Item: Drop,
    requires keyed { M.keyed map.old }
    ensures* after { sem 𝓛 (ends_extension M.row M.KeyedMap M.Key.eq map.entry result items.items) }
{
    let room = room_to_reserve(map.len(), items.len());
    if let Err(error) = map.reserve(room) {
        return Err(ExtendUniqueError::Refused(ExtendError { item: None, error }));
    }
    match insert_each(map, items) {
        Ok(()) => Ok(map.lend_nothing()),
        Err(NotInserted::Akin(item)) => {
            let there = Few::One(map.akin(&item).unwrap());
            Err(ExtendUniqueError::Duplicate(DuplicateItem::internal_new(item, there)))
        }
        Err(NotInserted::Refused(refused)) => Err(ExtendUniqueError::Refused(ExtendError {
            item: Some(refused.item),
            error: refused.error,
        })),
    }
}

// Inserts the items up to the first that is not inserted, and lends nothing.
fn insert_each<M: KeyedMap>(map: &mut M, items: Vec<M::Item>) -> Result<(), NotInserted<M::Item>>
where
    M::Item: Drop,
    requires keyed { M.keyed map.old }
    requires room { FitsRoom M.rule (M.limit map.old) (M.state map.old) }
    ensures taken { OnOk result (InsertsEach M.KeyedMap M.Key.eq items.items map.old map.new) }
    ensures refused { IfErr result (RefusesEach M.KeyedMap M.Key.eq items.items map.old map.new) }
    ensures stays { StaysKeyed M.state M.limit M.rule M.keyed map.old map.new }
{
    for item in items {
        insert_one(map, item)?;
    }
    Ok(())
}

// Inserts the item, and lends nothing.
fn insert_one<M: KeyedMap>(map: &mut M, item: M::Item) -> Result<(), NotInserted<M::Item>>
where
    M::Item: Drop,
    requires keyed { M.keyed map.old }
    ensures inserted { OnOk result (InsertsOne M.KeyedMap M.Key.eq item map.old map.new) }
    ensures kept { OnErr result (KeepsMap M.state M.limit M.rule M.keyed map.old map.new) }
    ensures refused { IfErr result (RefusesOneIn M.KeyedMap M.Key.eq map.old item) }
{
    match map.insert_unique(item) {
        Ok(()) => Ok(()),
        Err(InsertError::Duplicate(duplicate)) => Err(NotInserted::Akin(duplicate.into_parts().0)),
        Err(InsertError::Refused(refused)) => Err(NotInserted::Refused(refused)),
    }
}
