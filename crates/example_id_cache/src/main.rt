//! A cache of three entries, found by id over a hasher that strangers cannot foresee; a new entry replaces the oldest.
//! It relies on this promise: an insertion that is refused leaves the map as it was. So an entry is in both maps or in
//! neither.
#![tactic(auto)]

ghost use Rattle.std.specs.Prelude.{List, ◌≡◌, IfSome, IsTrue, slice_get, drop, false};
ghost use Rattle.iddqd.specs.Contents.{AddsItem, Ascends};
ghost use Rattle.example_id_cache.specs.Cache.{without_id};
ghost use Rattle.example_id_cache.specs.declared.Entry.{Entry};

use iddqd::id_ord_map::Entry as Place;
use iddqd::{IdHashItem, IdHashMap, IdOrdItem, IdOrdMap, Keyed};
use std::collections::hash_map::RandomState;

#[derive(Clone, Copy)]
struct Entry {
    id: u32,
    born: u32,
}

impl IdHashItem for Entry {
    type Key = u32;

    ghost key = { λ entry. entry.id };

    fn key(&self) -> &u32 {
        &self.id
    }
}

impl IdOrdItem for Entry {
    type Key = u32;

    ghost key = { λ entry. entry.born };

    fn key(&self) -> &u32 {
        &self.born
    }
}

/// The entries by their ids, and by their age.
#[derive(Drop)]
struct Cache(IdHashMap<Entry, RandomState>, IdOrdMap<Entry>);

impl std::marker::Model for Cache {
    ghost Value = { List Entry × List Entry };

    ghost view = { λ all. (all.0.items, all.1.items) };

    ghost invariant = { λ all. ⟦<IdHashMap<Entry, RandomState> as Keyed>⟧.keyed all.0 × Ascends (λ e. e.born) ⟦<u32 as Ord>⟧.cmp all.1.items };
}

/// Removes the oldest entry from both maps, if there is one. Its contract took no line of proof.
fn drop_oldest(all: &mut Cache)
    ensures by_age { all.new.1 ≡ drop 1 all.old.1 }
    ensures by_id { IfSome (slice_get all.old.1 0) (λ e. all.new.0 ≡ without_id e.id all.old.0) }
{
    if let Some(oldest) = all.1.pop_first() {
        let _ = all.0.remove(&oldest.id);
    }
}

/// Inserts the entry into both maps, or into neither: an insertion that is refused leaves a map as it was.
fn add(
    by_id: &mut IdHashMap<Entry, RandomState>,
    by_age: &mut IdOrdMap<Entry>,
    entry: Entry,
) -> bool
    requires ids { ⟦<IdHashMap<Entry, RandomState> as Keyed>⟧.keyed by_id.old }
    requires ages { Ascends (λ e. e.born) ⟦<u32 as Ord>⟧.cmp by_age.old.items }

    // in both maps, or in neither
    ensures by_id { IsTrue result → AddsItem entry by_id.old.items by_id.new.items }
    ensures by_age { IsTrue result → AddsItem entry by_age.old.items by_age.new.items }
    ensures id_kept { result ≡ false → by_id.new.items ≡ by_id.old.items }
    ensures age_kept { result ≡ false → by_age.new.items ≡ by_age.old.items }

    // either way
    ensures ids { ⟦<IdHashMap<Entry, RandomState> as Keyed>⟧.keyed by_id.new }
    ensures ages { Ascends (λ e. e.born) ⟦<u32 as Ord>⟧.cmp by_age.new.items }
{
    match by_age.entry(&entry.born) {
        Place::Vacant(place) => match place.insert_entry(entry) {
            Ok(added) => match by_id.insert_unique(entry) {
                Ok(()) => true,
                Err(_error) => {
                    let _ = added.remove();
                    false
                }
            },
            Err(_refused) => false,
        },
        Place::Occupied(_) => false,
    }
}

/// Replaces the entry of its id, and the oldest if the cache is full. Returns false if memory was refused, or if another
/// entry is as old.
fn put(all: &mut Cache, entry: Entry) -> bool {
    if let Some(old) = all.0.remove(&entry.id) {
        let _ = all.1.remove(&old.born);
    }
    if all.0.len() >= all.0.limit() as usize {
        drop_oldest(all);
    }
    add(&mut all.0, &mut all.1, entry)
}

fn main(rt: HostRuntime) -> std::io::Result<()> {
    let by_id = IdHashMap::with_limit(rt.alloc(), 3, RandomState::new(&rt)?);
    let mut all = Cache(by_id, IdOrdMap::new(rt.alloc()));
    let entries = [(1, 7), (2, 8), (3, 9), (4, 7), (5, 6)];
    let put = entries.map(|(born, id)| put(&mut all, Entry { id, born }));
    println!(rt; "put: {put:?}; 8 is there: {}", all.0.contains_key(&8))
}
