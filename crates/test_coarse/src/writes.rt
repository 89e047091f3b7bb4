//! An item that is written whole in the place of one of an equal key, which is spelled in another way.
ghost use Rattle.std.specs.Prelude.{◌≡◌, IfNone, is_some};
ghost use Rattle.iddqd.specs.Contents.{Ascends, find_item};
ghost use Rattle.test_coarse.specs.Writes.{FindsEqualName, PutsInPlace, coarse_of};

use crate::caseless::{Caseless, Coarse};
use iddqd::{IdHashItem, IdHashMap, IdOrdItem, IdOrdMap, Keyed};
use std::hash::BuildHasher;

/// Writes an item of an equal key over the one found. If there is none, nothing changes. Does not allocate.
pub fn put(map: &mut IdOrdMap<Coarse>, asked: &Caseless, item: Coarse)
    requires keyed { Ascends ⟦<Coarse as IdOrdItem>⟧.key ⟦<Caseless as Ord>⟧.cmp map.old.items }
    requires akin { FindsEqualName asked.now item map.old.items }
    ensures written { PutsInPlace asked.now item map.old.items map.new.items }
    ensures absent { IfNone (coarse_of asked.now map.old.items) (map.new ≡ map.old) }
    ensures keyed { Ascends ⟦<Coarse as IdOrdItem>⟧.key ⟦<Caseless as Ord>⟧.cmp map.new.items }
{
    if let Some(mut found) = map.get_mut(asked) {
        *found = item;
        found.finish();
    }
}

/// The same of a hash map.
pub fn hash_put<S: BuildHasher>(map: &mut IdHashMap<Coarse, S>, asked: &Caseless, item: Coarse)
    requires keyed { ⟦<IdHashMap<Coarse, S> as Keyed>⟧.keyed map.old }
    requires akin { FindsEqualName asked.now item map.old.items }
    ensures written { PutsInPlace asked.now item map.old.items map.new.items }
    ensures absent { IfNone (coarse_of asked.now map.old.items) (map.new ≡ map.old) }
    ensures keyed { ⟦<IdHashMap<Coarse, S> as Keyed>⟧.keyed map.new }
{
    if let Some(mut lent) = map.get_mut(asked) {
        *lent = item;
        lent.finish();
    }
}

/// Writes the item, by a walk, in the place of each whose key is equal, and then looks for its key.
pub fn put_in_walk<T: IdOrdItem + Copy>(map: &mut IdOrdMap<T>, item: T) -> bool
    requires keyed { Ascends T.key T.Key.cmp map.old.items }
    ensures told { result ≡ is_some (find_item T.key (T.Key.eq (T.key item)) map.new.items) }
    ensures keyed { Ascends T.key T.Key.cmp map.new.items }
{
    write_where_equal(map, item);
    map.contains_key(item.key())
}

fn write_where_equal<T: IdOrdItem + Copy>(map: &mut IdOrdMap<T>, item: T)
    requires keyed { Ascends T.key T.Key.cmp map.old.items }
    ensures keyed { Ascends T.key T.Key.cmp map.new.items }
{
    let mut walk = map.iter_mut();
    while let Some(each) = walk.next() {
        if each.key() == item.key() {
            *each = item;
        }
    }
}

/// The same walk over a hash map.
pub fn hash_put_in_walk<T: IdHashItem + Copy, S: BuildHasher>(
    map: &mut IdHashMap<T, S>,
    item: T,
) -> bool
    requires keyed { ⟦<IdHashMap<T, S> as Keyed>⟧.keyed map.old }
    ensures told { result ≡ is_some (find_item T.key (T.Key.eq (T.key item)) map.new.items) }
    ensures keyed { ⟦<IdHashMap<T, S> as Keyed>⟧.keyed map.new }
{
    hash_write_where_equal(map, item);
    map.contains_key(item.key())
}

fn hash_write_where_equal<T: IdHashItem + Copy, S: BuildHasher>(map: &mut IdHashMap<T, S>, item: T)
    requires keyed { ⟦<IdHashMap<T, S> as Keyed>⟧.keyed map.old }
    ensures keyed { ⟦<IdHashMap<T, S> as Keyed>⟧.keyed map.new }
{
    let mut walk = map.iter_mut();
    while let Some(each) = walk.next() {
        if each.key() == item.key() {
            *each = item;
        }
    }
}
