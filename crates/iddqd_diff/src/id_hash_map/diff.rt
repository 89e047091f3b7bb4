//! The difference of two hash maps, of any two hashers.
ghost use Rattle.std.specs.Prelude.{IfSome, IsPermutation, filter, length, ⊤};
ghost use Rattle.std.specs.Iterator.{UpTo, YieldsFirstBy, YieldsFirstRef, at_most, item_count};
ghost use Rattle.std.specs.Iterator.SizeHint.{IsWithinCount};
ghost use Rattle.iddqd_diff.specs.Difference.{lacks, shown};

use crate::diffable::Diffable;
use crate::difference::Difference;
use iddqd::id_hash_map::Iter;
use iddqd::{IdHashItem, IdHashMap, Keyed};
use std::hash::BuildHasher;
use std::iter::FusedIterator;
use std::marker::Model;

/// The differences of two hash maps: first at the keys of the old map, then at those that were added. Each item is
/// looked up once in the other map, so the whole walk hashes the key of each item once. Does not allocate. Contracts see
/// the differences to come.
/// In a function generic in the hasher, write `while let Some(difference) = differences.next()`. A `for` is not proved
/// there.
#[derive(Drop)]
pub struct Diff<'o, 'n, T: IdHashItem, S: BuildHasher, U: BuildHasher> {
    before: &'o IdHashMap<T, S>,
    after: &'n IdHashMap<T, U>,
    old_rest: Iter<'o, T>,
    new_rest: Iter<'n, T>,
}

impl<'o, 'n, T: IdHashItem, S: BuildHasher, U: BuildHasher> Model for Diff<'o, 'n, T, S, U> {
    ghost use Rattle.std.specs.Prelude.{List};
    ghost use Rattle.iddqd.specs.Hashing.{hash_under};
    ghost use Rattle.iddqd.specs.IdHashMap.{IsKeyed};
    ghost use Rattle.iddqd_diff.specs.declared.difference.Difference.{Difference};
    ghost use Rattle.iddqd_diff.specs.Walks.{looked_up};

    ghost Value = { List (Difference T T) };

    ghost view = { λ d. looked_up T.key T.Key.eq d.before.now.items d.after.now.items d.old_rest d.new_rest };

    ghost invariant = { λ d. IsKeyed T.key T.Key.eq T.Key.hash_input (hash_under S.BuildHasher S.Hasher.Hasher) d.before.now
        × IsKeyed T.key T.Key.eq T.Key.hash_input (hash_under U.BuildHasher U.Hasher.Hasher) d.after.now };
}

impl<'o, 'n, T: IdHashItem, S: BuildHasher, U: BuildHasher> Diffable<&'n IdHashMap<T, U>>
    for &'o IdHashMap<T, S> {
    type Item = T;

    type Key = T::Key;

    type Diff = Diff<'o, 'n, T, S, U>;

    ghost key = { T.key };

    ghost old_items = { λ map. map.now.items };

    ghost new_items = { λ map. map.now.items };

    ghost are_keyed = { λ before after. ⟦<IdHashMap<T, S> as Keyed>⟧.keyed before.now
        × ⟦<IdHashMap<T, U> as Keyed>⟧.keyed after.now };

    ghost to_come = { λ rest. rest };

    ghost same_items = { IsPermutation };

    ghost in_order = { λ _. ⊤ };

    fn diff(self, after: &'n IdHashMap<T, U>) -> Diff<'o, 'n, T, S, U> {
        Diff {
            before: self,
            after,
            old_rest: self.iter(),
            new_rest: after.iter(),
        }
    }
}

// Returns the next item that the map does not find.
fn next_lacking<'a, T: IdHashItem, S: BuildHasher>(
    map: &IdHashMap<T, S>,
    rest: &mut Iter<'a, T>,
) -> Option<&'a T>
    requires keyed { ⟦<IdHashMap<T, S> as Keyed>⟧.keyed map.now }
    ensures { YieldsFirstRef (λ items. filter (lacks T.key T.Key.eq map.now.items) items)
        rest.old result rest.new }
{
    while let Some(item) = rest.next() {
        if !map.contains_key(item.key()) {
            return Some(item);
        }
    }
    None
}

impl<'o, 'n, T: IdHashItem, S: BuildHasher, U: BuildHasher> Iterator for Diff<'o, 'n, T, S, U> {
    type Item = Difference<&'o T, &'n T>;

    ghost next_gives = { YieldsFirstBy shown (λ rest. rest) };

    ghost remaining = { item_count (λ rest. rest) };

    fn next(&mut self) -> Option<Difference<&'o T, &'n T>> {
        if let Some(old) = self.old_rest.next() {
            return Some(match self.after.get(old.key()) {
                Some(new) => Difference::Kept(old, new),
                None => Difference::Removed(old),
            });
        }
        let new = next_lacking(self.before, &mut self.new_rest)?;
        Some(Difference::Added(new))
    }

    fn size_hint(&self) -> (usize, Option<usize>)
        ensures lower { IsWithinCount result.0 (at_most (length self.now)) }
        ensures upper { IfSome result.1 (UpTo (at_most (length self.now))) }
    {
        let old = self.old_rest.len();
        (old, old.checked_add(self.new_rest.len()))
    }
}

impl<'o, 'n, T: IdHashItem, S: BuildHasher, U: BuildHasher> FusedIterator
    for Diff<'o, 'n, T, S, U> {}
