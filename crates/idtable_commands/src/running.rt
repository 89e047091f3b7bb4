//! Lists of commands.
ghost use Rattle.std.specs.Prelude.{◌≡◌, OnErr, IfOk, IfErr, IfSome, IsSome};
ghost use Rattle.iddqd.specs.Contents.{ClonesAreEqual, ClonesSucceed};
ghost use Rattle.iddqd.specs.Errors.{values_of};
ghost use Rattle.iddqd.specs.Refusal.{IsOnly};
ghost use Rattle.iddqd.specs.Visiting.{VisitsKeepKeys};
ghost use Rattle.idtable_commands.specs.KeyedMap.{StaysKeyed};
ghost use Rattle.idtable_commands.specs.declared.commands.Command.TheVariants.{InsertUnique, InsertOverwrite, Get, Visit, RetainMut, Reserve, Shrink, ExtendUnique};
ghost use Rattle.idtable_commands.specs.Running.{DoesIn, Gives, RunsIn, ShowsEach};
ghost use Rattle.idtable_commands.specs.Step.{FitsRoom, Shows};

use crate::commands::{Command, Reply, RunStop};
use crate::keyed_map::KeyedMap;
use iddqd::Visit;
use iddqd::errors::{ExtendUniqueError, Few, InsertError, TryReserveError};
use std::alloc::Global;

/// Runs the commands in order on a map of either kind, and returns a reply for each. It allocates one vector of
/// replies, and a clone for each `Get` that finds and for each duplicate. It allocates room for all replies first.
/// If that is refused, no command has run, and it returns the commands. Shown items are clones, which have to equal
/// their originals, as contracts see them. An item that holds a `String` does, by a model that shows the text's
/// bytes.
pub fn run<M: KeyedMap, V: Visit<M::Item>>(
    alloc: Global,
    map: &mut M,
    commands: Vec<Command<M::Item, M::Key, V>>,
) -> Result<Vec<Reply<M::Item>>, RunStop<M::Item, M::Key, V>>
where
    M::Item: Clone,
    M::Key: Drop,
    V: Drop,
    requires keyed { M.keyed map.old }
    requires clones { ClonesAreEqual M.Item.is_clone }
    requires keeps_keys { VisitsKeepKeys M.key M.Key.eq V.visits }

    // on success
    ensures run { IfOk result (RunsIn M.KeyedMap M.Key.eq V.visits commands map.old map.new) }
    ensures shown { IfOk result (ShowsEach M.Item.is_infallible commands) }

    // on refusal
    ensures handed_back { IfErr result (λ stop. stop.commands ≡ commands) }
    ensures unchanged { OnErr result (map.new ≡ map.old) }

    // either way
    ensures keyed { M.keyed map.new }
    ensures limit { M.limit map.new ≡ M.limit map.old }
{
    let Ok(mut replies) = Vec::with_capacity(alloc, commands.len()) else {
        return Err(RunStop { commands });
    };
    for command in commands {
        replies.push_reserved(answer(map, command));
    }
    Ok(replies)
}

// The reply to one command.
#[tactic(auto, using(crate::proofs::StepLemmas::room_kept))]
fn answer<M: KeyedMap, V: Visit<M::Item>>(
    map: &mut M,
    command: Command<M::Item, M::Key, V>,
) -> Reply<M::Item>
where
    M::Item: Clone,
    M::Key: Drop,
    V: Drop,
    requires keyed { M.keyed map.old }
    requires clones { ClonesAreEqual M.Item.is_clone }
    requires keeps_keys { VisitsKeepKeys M.key M.Key.eq V.visits }

    // the step
    ensures does { DoesIn M.KeyedMap M.Key.eq V.visits command map.old result map.new }
    ensures shown { Shows M.Item.is_infallible command result }

    // the map
    ensures keyed { M.keyed map.new }
    ensures limit { M.limit map.new ≡ M.limit map.old }
{
    match command {
        Command::InsertUnique(item) => insert_unique::<M, V>(map, item),
        Command::InsertOverwrite(item) => insert_overwrite::<M, V>(map, item),
        Command::Get(key) => get::<M, V>(map, &key),
        Command::Remove(key) => match map.remove(&key) {
            Some(item) => Reply::Removed(item),
            None => Reply::Absent,
        },
        Command::Visit(key, visitor) => visit(map, &key, visitor),
        Command::RetainMut(visitor) => retain_mut(map, visitor),
        Command::Clear => {
            map.clear();
            Reply::Done
        }
        Command::Reserve(additional) => reserve::<M, V>(map, additional),
        Command::Shrink => shrink::<M, V>(map),
        Command::Len => Reply::Length(map.len()),
        Command::ExtendUnique(items) => extend_unique::<M, V>(map, items),
    }
}

// `InsertUnique`.
fn insert_unique<M: KeyedMap, V: Visit<M::Item>>(map: &mut M, item: M::Item) -> Reply<M::Item>
where
    M::Item: Clone,
    requires keyed { M.keyed map.old }
    requires clones { ClonesAreEqual M.Item.is_clone }
    ensures reply { Gives M.KeyedMap M.Key.eq V.visits (InsertUnique item) map.old result map.new }
    ensures shown { Shows {K = M.Key} {V = V} M.Item.is_infallible (InsertUnique item) result }
    ensures stays { StaysKeyed M.state M.limit M.rule M.keyed map.old map.new }
{
    match map.insert_unique(item) {
        Ok(()) => Reply::Inserted,
        Err(InsertError::Duplicate(duplicate)) => {
            let (new, shown) = duplicate.into_parts();
            let existing = first_clone(&shown);
            Reply::Duplicate { new, existing }
        }
        Err(InsertError::Refused(refused)) => Reply::Refused {
            item: Some(refused.item),
            error: refused.error,
        },
    }
}

// `InsertOverwrite`.
fn insert_overwrite<M: KeyedMap, V: Visit<M::Item>>(map: &mut M, item: M::Item) -> Reply<M::Item>
where
    M::Item: Drop,
    requires keyed { M.keyed map.old }
    ensures reply { Gives M.KeyedMap M.Key.eq V.visits (InsertOverwrite item) map.old result map.new }
    ensures stays { StaysKeyed M.state M.limit M.rule M.keyed map.old map.new }
{
    match map.insert_overwrite(item) {
        Ok(Some(old)) => Reply::Replaced(old),
        Ok(None) => Reply::Inserted,
        Err(refused) => Reply::Refused {
            item: Some(refused.item),
            error: refused.error,
        },
    }
}

// A clone of the one item that is lent; none where memory for it was refused.
fn first_clone<T: Clone>(shown: &Few<&T>) -> Option<T>
    requires clones { ClonesAreEqual T.is_clone }
    ensures clone { (x : _) → IsOnly (values_of shown.now) x → IfSome result (λ y. y ≡ x) }
    ensures succeeds { ClonesSucceed T.is_infallible → IsSome result }
{
    (**shown.first()).clone().ok()
}

// `Visit`.
fn visit<M: KeyedMap, V: Visit<M::Item>>(
    map: &mut M,
    key: &M::Key,
    mut visitor: V,
) -> Reply<M::Item>
where
    V: Drop,
    requires keyed { M.keyed map.old }
    requires keeps_keys { VisitsKeepKeys M.key M.Key.eq V.visits }
    ensures reply { Gives M.KeyedMap M.Key.eq V.visits (Visit key.now visitor) map.old result map.new }
    ensures stays { StaysKeyed M.state M.limit M.rule M.keyed map.old map.new }
{
    match map.visit(key, &mut visitor) {
        Some(answer) => Reply::Visited(answer),
        None => Reply::Absent,
    }
}

// `RetainMut`.
fn retain_mut<M: KeyedMap, V: Visit<M::Item>>(map: &mut M, mut visitor: V) -> Reply<M::Item>
where
    M::Item: Drop,
    V: Drop,
    requires keyed { M.keyed map.old }
    requires keeps_keys { VisitsKeepKeys M.key M.Key.eq V.visits }
    ensures reply { Gives M.KeyedMap M.Key.eq V.visits (RetainMut visitor) map.old result map.new }
    ensures stays { StaysKeyed M.state M.limit M.rule M.keyed map.old map.new }
{
    map.retain_mut(&mut visitor);
    Reply::Kept(map.len())
}

// `Reserve`.
#[tactic(auto, using(crate::proofs::StepLemmas::room_both))]
fn reserve<M: KeyedMap, V: Visit<M::Item>>(map: &mut M, additional: usize) -> Reply<M::Item>
    requires keyed { M.keyed map.old }
    ensures does { DoesIn M.KeyedMap M.Key.eq V.visits (Reserve additional) map.old result map.new }
    ensures stays { StaysKeyed M.state M.limit M.rule M.keyed map.old map.new }
{
    match map.reserve(additional) {
        Ok(()) => Reply::Done,
        Err(error) => Reply::Refused { item: None, error },
    }
}

// `Shrink`.
fn shrink<M: KeyedMap, V: Visit<M::Item>>(map: &mut M) -> Reply<M::Item>
    requires keyed { M.keyed map.old }
    ensures does { DoesIn M.KeyedMap M.Key.eq V.visits Shrink map.old result map.new }
    ensures keyed { M.keyed map.new }
    ensures limit { M.limit map.new ≡ M.limit map.old }
{
    match map.shrink() {
        Ok(()) => Reply::Done,
        Err(error) => Reply::Refused { item: None, error },
    }
}

// `Get`.
fn get<M: KeyedMap, V: Visit<M::Item>>(map: &M, key: &M::Key) -> Reply<M::Item>
where
    M::Item: Clone,
    requires keyed { M.keyed map.now }
    requires clones { ClonesAreEqual M.Item.is_clone }
    ensures reply { Gives M.KeyedMap M.Key.eq V.visits (Get key.now) map.now result map.now }
    ensures shown { Shows {V = V} M.Item.is_infallible (Get key.now) result }
    ensures room { FitsRoom M.rule (M.limit map.now) (M.state map.now) }
{
    let Some(item) = map.get(key) else {
        return Reply::Absent;
    };
    match item.clone() {
        Ok(clone) => Reply::Found(clone),
        Err(_) => Reply::Refused {
            item: None,
            error: TryReserveError::alloc_error(),
        },
    }
}

// `ExtendUnique`.
fn extend_unique<M: KeyedMap, V: Visit<M::Item>>(map: &mut M, items: Vec<M::Item>) -> Reply<M::Item>
where
    M::Item: Clone,
    requires keyed { M.keyed map.old }
    requires clones { ClonesAreEqual M.Item.is_clone }
    ensures reply { Gives M.KeyedMap M.Key.eq V.visits (ExtendUnique items) map.old result map.new }
    ensures shown { Shows {K = M.Key} {V = V} M.Item.is_infallible (ExtendUnique items) result }
    ensures stays { StaysKeyed M.state M.limit M.rule M.keyed map.old map.new }
{
    let before = map.len();
    let count = items.len();
    match map.extend_unique(items) {
        Ok(_) => Reply::Extended(count),
        Err(ExtendUniqueError::Duplicate(duplicate)) => {
            let (new, shown) = duplicate.into_parts();
            let existing = first_clone(&shown);
            let after = map.len() - before;
            Reply::Conflict {
                new,
                existing,
                after,
            }
        }
        Err(ExtendUniqueError::Refused(refused)) => Reply::Stopped {
            item: refused.item,
            error: refused.error,
            after: map.len() - before,
        },
    }
}
