//! The ordered index over a store of coins, against a plain list of the years in order.
ghost use Rattle.std.specs.Prelude.{◌≡◌, IsTrue, nat_eq};
ghost use Rattle.std.specs.Cmp.{nat_eq_equiv};
ghost use Rattle.std.specs.Cmp.Rules.{comparing};
ghost use Rattle.std.specs.Ordering.{nat_cmp};
ghost use Rattle.std.proofs.Common.{rules};
ghost use Rattle.std.proofs.lemmas.Cmp.{nat_cmp_total};
ghost use Rattle.iddqd_store.specs.Query.{le_then_less, ge_then_greater};

use iddqd_ord_index::{Insertion, OrdIndex};
use iddqd_store::{Comparable, Equivalent, IdHashItem, IdOrdItem, ItemStore, Steps};
use std::alloc::{AllocError, Global};
use std::cell::Cell;
use std::cmp::Ordering;
use std::marker::Model;
use std::process::Abort;
use std::test::Fail;

/// Ends the test as failed if the condition is false. The proof of a call takes a third of that of an `assert!` in its
/// place.
pub(crate) fn check(rt: &impl Abort, condition: bool)
    ensures { IsTrue condition }
{
    assert!(rt; condition);
}

// What both indexes list.
#[derive(Drop)]
pub(crate) struct Coin {
    pub(crate) year: u32,
}

impl IdOrdItem for Coin {
    type Key = u32;

    ghost key = { λ coin. coin.year };

    fn key(&self) -> &u32 {
        &self.year
    }
}

impl IdHashItem for Coin {
    type Key = u32;

    ghost key = { λ coin. coin.year };

    fn key(&self) -> &u32 {
        &self.year
    }
}

// A year, and the count of its comparisons.
#[derive(Clone, Copy)]
pub(crate) struct Asked<'a>(pub(crate) u32, pub(crate) &'a Cell<u32>);

impl Equivalent<u32> for Asked<'_> {
    ghost equivalent = { λ q k. nat_eq q.0 k };

    ghost one_key = { λ q x y. nat_eq_equiv.congr q.0 x y };

    fn equivalent(&self, key: &u32) -> bool {
        self.1.set(self.1.get().saturating_add(1));
        self.0 == *key
    }
}

impl Comparable<u32> for Asked<'_> {
    ghost compare = { λ q k. nat_cmp q.0 k };

    ghost equal_where_equivalent = { Prim.search (comparing, rules) };

    ghost less_above = { λ q x y. le_then_less nat_cmp_total q.0 x y };

    ghost greater_below = { λ q x y. ge_then_greater nat_cmp_total q.0 x y };

    fn compare(&self, key: &u32) -> Ordering {
        self.1.set(self.1.get().saturating_add(1));
        self.0.cmp(key)
    }
}

// An index of coins in the order of their years. The store keeps those that the index lists no more.
#[derive(Drop)]
struct Coins {
    store: ItemStore<Coin>,
    index: OrdIndex,
}

impl Model for Coins {
    ghost use Rattle.iddqd_ord_index.specs.Listed.{SlotList};
    ghost use Rattle.test_core.specs.InOrder.{InOrder};

    ghost Value = { SlotList };

    ghost view = { λ coins. coins.index };

    ghost invariant = { λ coins. InOrder ⟦<Coin as IdOrdItem>⟧.key ⟦<u32 as Ord>⟧.cmp coins.store coins.index.slots };
}

impl Coins {
    fn new(alloc: Global) -> Coins {
        Coins {
            store: ItemStore::new(alloc, 1_000_000),
            index: OrdIndex::new(alloc),
        }
    }

    // Whether a new coin of the year is inserted, if none is listed.
    fn put(&mut self, year: u32) -> bool {
        let Err(place) = self.index.find(&self.store, &year, &mut Steps::new()) else {
            return false;
        };
        if self.index.len() == u32::MAX || self.store.try_reserve(1).is_err() {
            return false;
        }
        let Ok(()) = self.index.prepare() else {
            return false;
        };
        let slot = self.store.insert_reserved(Coin { year });
        self.index.add_prepared(place, slot);
        true
    }

    // The same by the year, down the tree once if no block is needed.
    fn put_by(&mut self, year: u32) -> bool {
        let Some(slot) = self.store.next_slot() else {
            return self.put(year);
        };
        if self.index.len() == u32::MAX {
            return false;
        }
        match self
            .index
            .insert_by_key(&self.store, &year, slot, &mut Steps::new())
        {
            Insertion::Found(_) => false,
            Insertion::Inserted => {
                self.store.insert_into(slot, Coin { year });
                true
            }
            Insertion::Unprepared(_) => self.put(year),
        }
    }

    fn year_of(&self, slot: Option<u32>) -> Option<u32> {
        Some(self.store.get(slot?)?.year)
    }

    // The year that `remove` took out.
    fn take(&mut self, year: u32) -> Option<u32> {
        let Ok(place) = self.index.find(&self.store, &year, &mut Steps::new()) else {
            return None;
        };
        let slot = self.index.remove(place);
        self.year_of(Some(slot))
    }

    // The year that `remove_by_key` took out.
    fn take_by(&mut self, year: u32) -> Option<u32> {
        let slot = self
            .index
            .remove_by_key(&self.store, &year, &mut Steps::new());
        self.year_of(slot)
    }

    // The year that `remove` took out at the place.
    fn take_at(&mut self, at: usize) -> Option<u32> {
        if at >= self.index.len() as usize {
            return None;
        }
        let place = self.index.place(at);
        let slot = self.index.remove(place);
        self.year_of(Some(slot))
    }

    // The year of the place, by the call that is for one place after the other.
    fn year_in_turn(&mut self, at: usize) -> Option<u32> {
        if at >= self.index.len() as usize {
            return None;
        }
        let place = self.index.place(at);
        let slot = self.index.slot_in_turn(place);
        self.year_of(Some(slot))
    }

    // Whether there are such places, between which the slots are removed.
    fn cut(&mut self, from: usize, to: usize) -> bool {
        if from > to || to > self.index.len() as usize {
            return false;
        }
        let (from, to) = (self.index.place(from), self.index.place(to));
        self.index.remove_between(from, to);
        true
    }

    fn take_first(&mut self) -> Option<u32> {
        let slot = self.index.remove_first();
        self.year_of(slot)
    }

    fn take_last(&mut self) -> Option<u32> {
        let slot = self.index.remove_last();
        self.year_of(slot)
    }

    // Whether a new coin of the year is listed in the place of the one that is listed.
    fn rename_year(&mut self, year: u32) -> bool {
        let Ok(place) = self.index.find(&self.store, &year, &mut Steps::new()) else {
            return false;
        };
        if self.store.try_reserve(1).is_err() {
            return false;
        }
        let slot = self.store.insert_reserved(Coin { year });
        self.index.rename(place, slot);
        self.index.slot_at(place) == slot
    }

    fn clear(&mut self) {
        self.index.clear();
    }

    // Whether the steps of `after` are the comparisons that it makes.
    fn counts_after(&self, year: u32) -> bool {
        let compared = Cell::new(0);
        let query = Asked(year, &compared);
        let mut steps = Steps::new();
        let _ = self.index.after(&self.store, &query, &mut steps);
        steps.count() > 0 && steps.count() == compared.get()
    }

    // The years of the slots one by one, by their places.
    fn has_places_of(&self, years: &[u32]) -> bool {
        for (at, year) in years.iter().enumerate() {
            if at >= self.index.len() as usize {
                return false;
            }
            let slot = self.index.slot_at(self.index.place(at));
            if self.year_of(Some(slot)) != Some(*year) {
                return false;
            }
        }
        years.len() >= self.index.len() as usize
    }

    // Whether each lookup of the year returns what the list does.
    fn finds(&self, years: &[u32], year: u32) -> bool {
        let (at, is_there) = match years.binary_search(&year) {
            Ok(at) => (at, true),
            Err(at) => (at, false),
        };
        let next = at.wrapping_add(usize::from(is_there));
        let found = self.index.get(&self.store, &year, &mut Steps::new());
        let after = self.index.after(&self.store, &year, &mut Steps::new());
        if at > self.index.len() as usize {
            return false;
        }
        let place = self.index.place(at);
        // the place of its slot, or the one where it belongs
        let is_found_at = match self.index.find(&self.store, &year, &mut Steps::new()) {
            Ok(found) => is_there && found == place,
            Err(found) => !is_there && found == place,
        };
        self.year_of(found) == is_there.then_some(year)
            && self.year_of(after) == years.get(next).copied()
            && is_found_at
    }
}

// Whether the walk has the slots of these years, and tells how many are to come.
macro_rules! walks {
    ($walk:expr, $store:expr, $years:expr) => {{
        let mut walk = $walk;
        let mut is_so = true;
        for (at, year) in $years.iter().enumerate() {
            let is_left = walk.len() == $years.len() - at;
            is_so = is_so && is_left && is_coin($store, walk.next(), *year);
        }
        is_so && walk.next().is_none()
    }};
}

fn is_coin(store: &ItemStore<Coin>, slot: Option<u32>, year: u32) -> bool {
    match slot {
        Some(slot) => store.get(slot).is_some_and(|coin| coin.year == year),
        None => false,
    }
}

// Each call that changes nothing returns what the list does. The years are below 1,010.
fn same(rt: &impl Abort, coins: &Coins, years: &[u32]) {
    check(rt, coins.index.len() as usize == years.len());
    let (first, last) = (coins.index.first(), coins.index.last());
    check(rt, coins.year_of(first) == years.first().copied());
    check(rt, coins.year_of(last) == years.last().copied());
    check(rt, walks!(coins.index.walk(), &coins.store, years));
    check(rt, coins.has_places_of(years));
    for year in 0..1_010 {
        check(rt, coins.finds(years, year));
    }
}

// Each year, in steps, is inserted if it is not listed, and removed if it is.
fn exchange(rt: &impl Abort, coins: &mut Coins, years: &mut Vec<u32>, step: u32) {
    for n in 1..600u32 {
        let year = n.wrapping_mul(step) % 1009;
        match years.as_slice().binary_search(&year) {
            Ok(at) => {
                let taken = match n % 2 {
                    0 => coins.take(year),
                    _ => coins.take_by(year),
                };
                check(rt, taken == Some(years.remove(at)));
            }
            Err(at) => {
                check(rt, coins.take_by(year).is_none());
                check(rt, coins.put_by(year) && !coins.put_by(year));
                check(rt, years.insert(at, year).is_ok());
            }
        }
        if n % 150 == 0 {
            same(rt, coins, years.as_slice());
        }
    }
}

#[test]
fn coins_come_and_go(rt: HostRuntime) {
    let mut coins = Coins::new(rt.alloc());
    let mut years = Vec::new(rt.alloc());
    same(&rt, &coins, years.as_slice());
    for step in [1, 7, 1008, 11] {
        exchange(&rt, &mut coins, &mut years, step);
    }
    let (store, walk) = (coins.store, coins.index.into_walk());
    check(&rt, walks!(walk, &store, years));
}

// The even years below a thousand, in an order that mixes them.
fn fill(rt: &impl Abort, coins: &mut Coins) {
    for n in 0..500u32 {
        check(rt, coins.put((n.wrapping_mul(7) % 500).wrapping_mul(2)));
    }
}

fn even_years(alloc: Global) -> Result<Vec<u32>, AllocError> {
    (0..500u32).map(|n| n.wrapping_mul(2)).collect(alloc)
}

#[test]
fn coins_after_counted(rt: HostRuntime) {
    let mut coins = Coins::new(rt.alloc());
    fill(&rt, &mut coins);
    for year in [0, 7, 500, 998, 999] {
        check(&rt, coins.counts_after(year));
    }
}

// From either end, in turns.
#[test]
fn coins_leave_at_the_ends(rt: HostRuntime) -> Result<(), Fail> {
    let mut coins = Coins::new(rt.alloc());
    fill(&rt, &mut coins);
    let years = even_years(rt.alloc())?;
    let years = years.as_slice();
    check(&rt, years.len() == 500);
    for n in 0..250 {
        check(&rt, coins.take_first() == Some(years[n]));
        check(&rt, coins.take_last() == Some(years[499 - n]));
        if n % 60 == 0 {
            same(&rt, &coins, &years[n + 1..499 - n]);
        }
    }
    check(&rt, coins.take_first().is_none());
    check(&rt, coins.take_last().is_none());
    same(&rt, &coins, &[]);
    Ok(())
}

// The even years below a thousand without those at the places from one on up to another.
fn years_but(alloc: Global, from: u32, to: u32) -> Result<Vec<u32>, AllocError> {
    (0..500u32)
        .filter(|n| *n < from || to <= *n)
        .map(|n| n.wrapping_mul(2))
        .collect(alloc)
}

// A part leaves at either end or between, and coins come and go afterwards.
#[test]
fn coins_leave_between(rt: HostRuntime) -> Result<(), Fail> {
    for (from, to) in [
        (0, 0),
        (3, 9),
        (7, 47),
        (0, 499),
        (1, 500),
        (100, 400),
        (250, 500),
        (0, 500),
    ] {
        let mut coins = Coins::new(rt.alloc());
        fill(&rt, &mut coins);
        check(&rt, coins.cut(from as usize, to as usize));
        let mut years = years_but(rt.alloc(), from, to)?;
        same(&rt, &coins, years.as_slice());
        exchange(&rt, &mut coins, &mut years, 7);
    }
    Ok(())
}

// Each slot that a step divides is vacated, and the others stay in their order. `fill` puts year 2 k into slot
// 143 k % 500.
#[test]
fn occupied_slots_stay(rt: HostRuntime) -> Result<(), Fail> {
    for step in [1, 2, 3, 50, 501] {
        let mut coins = Coins::new(rt.alloc());
        fill(&rt, &mut coins);
        let (mut store, mut index) = (coins.store, coins.index);
        for slot in 0..500u32 {
            if slot % step == 0 && store.get(slot).is_some() {
                store.remove(slot);
            }
        }
        index.retain_occupied(&store);
        let years: Vec<u32> = (0..500u32)
            .filter(|k| k.wrapping_mul(143) % 500 % step != 0)
            .map(|k| k.wrapping_mul(2))
            .collect(rt.alloc())?;
        check(&rt, walks!(index.walk(), &store, years));
    }
    Ok(())
}

// Each coin is another of its year, and a copy lists as much. It is empty once it is cleared, and takes all again.
#[test]
fn coins_renamed_copied_and_cleared(rt: HostRuntime) -> Result<(), Fail> {
    let years = even_years(rt.alloc())?;
    let mut coins = Coins::new(rt.alloc());
    fill(&rt, &mut coins);
    for year in years.iter() {
        check(&rt, coins.rename_year(*year));
        check(&rt, !coins.rename_year(year.wrapping_add(1)));
    }
    same(&rt, &coins, years.as_slice());
    coins.index = coins.index.try_clone()?;
    same(&rt, &coins, years.as_slice());
    coins.clear();
    same(&rt, &coins, &[]);
    fill(&rt, &mut coins);
    same(&rt, &coins, years.as_slice());
    Ok(())
}

fn read_in_turn(rt: &impl Abort, coins: &mut Coins, years: &[u32]) {
    for (at, year) in years.iter().enumerate() {
        check(rt, coins.year_in_turn(at) == Some(*year));
    }
    check(rt, coins.year_in_turn(years.len()) == None);
}

// What was read before a change is not read after it.
#[test]
fn coins_read_in_turn(rt: HostRuntime) -> Result<(), Fail> {
    let mut coins = Coins::new(rt.alloc());
    fill(&rt, &mut coins);
    let mut years = even_years(rt.alloc())?;
    read_in_turn(&rt, &mut coins, years.as_slice());
    // every second year goes while the years are read one after the other
    for at in 0..250 {
        check(&rt, at < years.len());
        check(&rt, coins.year_in_turn(at) == Some(years.as_slice()[at]));
        check(&rt, coins.take_at(at) == Some(years.remove(at)));
    }
    read_in_turn(&rt, &mut coins, years.as_slice());
    check(&rt, coins.year_in_turn(0) == Some(2) && coins.put(0));
    check(&rt, coins.year_in_turn(0) == Some(0));
    check(&rt, coins.take_by(0) == Some(0));
    check(&rt, coins.year_in_turn(0) == Some(2));
    coins.clear();
    read_in_turn(&rt, &mut coins, &[]);
    Ok(())
}
