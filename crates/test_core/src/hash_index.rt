//! The hash index, over a store of coins.
ghost use Rattle.std.specs.Prelude.{◌≡◌};

use crate::ord_index::{Asked, Coin, check};
use iddqd_hash_index::HashIndex;
use iddqd_store::{ItemStore, OwnKey, Steps, TryReserveError};
use std::alloc::Global;
use std::cell::Cell;
use std::marker::Model;
use std::process::Abort;
use std::test::Fail;

// An index whose slots have coins.
#[derive(Drop)]
struct CoinMap {
    store: ItemStore<Coin>,
    index: HashIndex,
}

impl Model for CoinMap {
    ghost use Rattle.std.specs.Prelude.{ℕ, Contains};
    ghost use Rattle.iddqd_hash_index.specs.HashPairs.{HashPairs};
    ghost use Rattle.iddqd_store.specs.Store.{IsOccupied};

    ghost Value = { HashPairs };

    ghost view = { λ m. m.index };

    ghost invariant = { λ m. (hash slot : ℕ) → Contains m.index.pairs (hash, slot) → IsOccupied m.store slot };
}

impl CoinMap {
    fn new(alloc: Global) -> CoinMap {
        CoinMap {
            store: ItemStore::new(alloc, 1_000_000),
            index: HashIndex::new(alloc),
        }
    }

    fn put(&mut self, rt: &impl Abort, hash: u64, year: u32) -> u32 {
        assert!(rt; self.index.try_reserve(1).is_ok());
        assert!(rt; self.store.try_reserve(1).is_ok());
        let slot = self.store.insert_reserved(Coin { year });
        self.index.add_reserved(hash, slot);
        slot
    }

    // Whether this slot is found, by this many comparisons at most.
    fn finds(&self, hash: u64, year: u32, slot: Option<u32>, count: u32) -> bool {
        let mut steps = Steps::new();
        let found = self
            .index
            .find_by_key::<Coin, OwnKey, u32>(&self.store, hash, &year, &mut steps);
        found == slot && steps.count() <= count
    }

    fn has(&self, hash: u64, year: u32) -> bool {
        self.index
            .find_by_key::<Coin, OwnKey, u32>(&self.store, hash, &year, &mut Steps::new())
            .is_some()
    }

    // Removes the pair, and returns its slot.
    fn take(&mut self, hash: u64, year: u32) -> Option<u32> {
        let slot = self
            .index
            .find_by_key::<Coin, OwnKey, u32>(&self.store, hash, &year, &mut Steps::new())?;
        self.index.remove(hash, slot);
        Some(slot)
    }

    // The same by one search, and whether its steps are the comparisons that it makes.
    fn take_by(&mut self, hash: u64, year: u32) -> (Option<u32>, bool) {
        let compared = Cell::new(0);
        let query = Asked(year, &compared);
        let mut steps = Steps::new();
        let slot = self
            .index
            .remove_by_key::<Coin, OwnKey, Asked<'_>>(&self.store, hash, &query, &mut steps);
        (slot, steps.count() == compared.get())
    }

    // The new slot of a coin of the same year.
    fn rename_year(&mut self, rt: &impl Abort, hash: u64, year: u32) -> Option<u32> {
        let old = self
            .index
            .find_by_key::<Coin, OwnKey, u32>(&self.store, hash, &year, &mut Steps::new())?;
        assert!(rt; self.store.try_reserve(1).is_ok());
        let new = self.store.insert_reserved(Coin { year });
        self.index.rename(hash, old, new);
        Some(new)
    }

    // How many pairs fit before memory is needed.
    fn room(&self) -> usize {
        self.index.len().saturating_add(self.index.spare())
    }

    fn shrink(&mut self, min: usize) -> bool {
        self.index.shrink(min).is_ok()
    }

    fn copy(&mut self) -> Result<(), TryReserveError> {
        self.index = self.index.try_clone()?;
        Ok(())
    }
}

// The hash of a year, whose low bits say nothing.
fn hash_of(year: u32) -> u64 {
    (year as u64) << 20
}

// Each year, in steps, comes where it is not there and goes where it is; now and then every year is looked for.
fn exchange(rt: &impl Abort, mint: &mut CoinMap, there: &mut [bool], step: u32) {
    check(rt, there.len() == 10_000);
    for n in 0..10_000u32 {
        let year = n.wrapping_mul(step) % 10_000;
        let slot = if year % 2 == 0 {
            mint.take(hash_of(year), year)
        } else {
            mint.take_by(hash_of(year), year).0
        };
        check(rt, slot.is_some() == there[year as usize]);
        if slot.is_none() {
            mint.put(rt, hash_of(year), year);
        }
        there[year as usize] = slot.is_none();
        if n % 1000 == 999 {
            same(rt, mint, there);
        }
    }
}

// The years that are found are those that are there.
fn same(rt: &impl Abort, mint: &CoinMap, there: &[bool]) {
    check(rt, there.len() == 10_000);
    for year in 0..10_000u32 {
        check(rt, mint.has(hash_of(year), year) == there[year as usize]);
    }
}

#[test]
fn thousands(rt: HostRuntime) -> Result<(), Fail> {
    let mut mint = CoinMap::new(rt.alloc());
    let mut there = Vec::new(rt.alloc());
    there.resize(10_000, false)?;
    for step in [1, 7, 9, 3] {
        exchange(&rt, &mut mint, there.as_mut_slice(), step);
    }
    check(&rt, mint.index.len() == 0);
    check(&rt, mint.index.spare() >= 10_000);
    Ok(())
}

// Where all hashes are equal, only time is lost.
#[test]
fn pairs_of_one_hash(rt: HostRuntime) {
    let mut mint = CoinMap::new(rt.alloc());
    for year in 0..100 {
        check(&rt, mint.put(&rt, 5, year) == year);
    }
    for year in 0..100 {
        check(&rt, mint.finds(5, year, Some(year), 100));
        check(&rt, mint.finds(6, year, None, 0));
    }
    for year in (0..100).rev() {
        check(&rt, mint.take(5, year) == Some(year));
    }
    check(&rt, mint.finds(5, 50, None, 0));
}

#[test]
fn pairs(rt: HostRuntime) {
    let mut mint = CoinMap::new(rt.alloc());
    for (hash, year) in [(7, 1810), (8, 1820), (7, 1830)] {
        mint.put(&rt, hash, year);
    }
    check(&rt, mint.finds(7, 1830, Some(2), 2));
    check(&rt, mint.finds(7, 1810, Some(0), 2));
    check(&rt, mint.finds(7, 1820, None, 2));
    check(&rt, mint.rename_year(&rt, 7, 1810) == Some(3));
    check(&rt, mint.finds(7, 1810, Some(3), 2));
    check(&rt, mint.take(7, 1830) == Some(2));
    check(&rt, mint.finds(7, 1830, None, 1));
}

#[test]
fn pairs_removed_by_key(rt: HostRuntime) {
    let mut mint = CoinMap::new(rt.alloc());
    for (hash, year) in [(7, 1810), (8, 1820), (7, 1830)] {
        mint.put(&rt, hash, year);
    }
    check(&rt, mint.take_by(7, 1820) == (None, true));
    check(&rt, mint.finds(7, 1810, Some(0), 2));
    check(&rt, mint.finds(8, 1820, Some(1), 1));
    check(&rt, mint.take_by(7, 1830) == (Some(2), true));
    check(&rt, mint.take_by(7, 1830) == (None, true));
    check(&rt, mint.finds(7, 1810, Some(0), 1));
    check(&rt, mint.take_by(8, 1820) == (Some(1), true));
    check(&rt, mint.take_by(7, 1810) == (Some(0), true));
    check(&rt, mint.index.len() == 0);
}

#[test]
fn room(rt: HostRuntime) {
    let mut mint = CoinMap::new(rt.alloc());
    check(&rt, mint.index.spare() == 0);
    for year in 0..100 {
        mint.put(&rt, hash_of(year), year);
    }
    // ninety leave: the room stays, until half of it is given back
    let room = mint.room();
    for year in 0..90 {
        mint.take(hash_of(year), year);
    }
    check(&rt, mint.index.len() == 10);
    check(&rt, mint.room() == room);
    check(&rt, mint.shrink(30));
    check(&rt, mint.room() >= 30 && mint.room() < room);
    // a copy finds what the index finds, and nothing once it is cleared
    check(&rt, mint.copy().is_ok());
    check(&rt, mint.finds(hash_of(95), 95, Some(95), 1));
    mint.index.clear();
    check(&rt, mint.index.spare() >= 10);
    check(&rt, mint.finds(hash_of(95), 95, None, 0));
    check(&rt, mint.shrink(0));
}
