//! Keys that count how often they are compared and hashed, and items of such keys.
ghost use Rattle.std.specs.Prelude.{◌≡◌, ◌==◌};
ghost use Rattle.std.proofs.Common.{rules};
ghost use Rattle.std.specs.Cmp.{partial_order_from_own_ties};
ghost use Rattle.std.specs.Cmp.Rules.{comparing, hashing};
ghost use Rattle.std.specs.Hash as fed;
ghost use Rattle.std.specs.Ordering.{nat_cmp, on, as_partial_cmp};

use iddqd::{IdHashItem, IdOrdItem};
use std::alloc::{AllocError, Global};
use std::cell::Cell;
use std::cmp::Ordering;
use std::hash::{Hash, Hasher};

/// How often keys were hashed and compared, and how often items were compared.
#[derive(Default, Drop)]
pub struct Counts {
    hashed: Cell<u32>,
    compared: Cell<u32>,
    items: Cell<u32>,
}

fn count_one(count: &Cell<u32>) {
    count.set(count.get().saturating_add(1));
}

impl Counts {
    /// A key of this number.
    pub fn key(&self, number: u32) -> CountingKey<'_> {
        CountingKey {
            number,
            counts: self,
        }
    }

    /// An item of this number.
    pub fn item(&self, number: u32) -> Tallied<'_> {
        let key = self.key(number);
        Tallied { key }
    }

    /// This many items, of every second number from the first on.
    pub fn items(&self, alloc: Global, first: u32, count: u32) -> Items<'_> {
        (0..count)
            .map(|place| self.item(place.wrapping_mul(2).wrapping_add(first)))
            .collect(alloc)
    }

    /// How often keys were hashed and how often compared since this was asked last.
    pub fn since(&self) -> (u32, u32) {
        (self.hashed.replace(0), self.compared.replace(0))
    }

    /// How often items were compared since this was asked last.
    pub fn items_compared(&self) -> u32 {
        self.items.replace(0)
    }
}

/// Such items, or that there was no memory for their list.
pub type Items<'a> = Result<Vec<Tallied<'a>>, AllocError>;

/// A number that counts each time it is compared or hashed.
#[derive(Clone, Copy)]
pub struct CountingKey<'a> {
    pub number: u32,
    counts: &'a Counts,
}

impl PartialEq for CountingKey<'_> {
    ghost eq = { on (λ key. key.number) ◌==◌ };

    ghost laws = { Prim.search (comparing, rules) };

    fn eq(&self, other: &Self) -> bool {
        count_one(&self.counts.compared);
        self.number == other.number
    }
}

impl Eq for CountingKey<'_> {
    ghost laws = { Prim.search (comparing, rules) };
}

impl Ord for CountingKey<'_> {
    ghost cmp = { on (λ key. key.number) nat_cmp };

    ghost total = { Prim.search (comparing, rules) };

    ghost matches_partial_cmp = { Prim.search (comparing, rules) };

    ghost matches_eq = { Prim.search (comparing, rules) };

    fn cmp(&self, other: &Self) -> Ordering {
        count_one(&self.counts.compared);
        self.number.cmp(&other.number)
    }
}

impl PartialOrd for CountingKey<'_> {
    ghost partial_cmp = { as_partial_cmp (on (λ key. key.number) nat_cmp) };

    ghost laws = { partial_order_from_own_ties (Prim.search (comparing, rules)) (Prim.search (comparing, rules)) };

    fn partial_cmp(&self, other: &Self) -> Option<Ordering> {
        Some(self.cmp(other))
    }
}

impl Hash for CountingKey<'_> {
    ghost hash_input = { λ key. fed.u32 key.number };

    ghost respects_eq = { Prim.search (hashing, rules) };

    fn hash<H: Hasher>(&self, state: &mut H) {
        count_one(&self.counts.hashed);
        state.write_u32(self.number);
    }
}

/// An item of such a key. Its `==` counts no comparison of the keys.
#[derive(Clone, Copy)]
pub struct Tallied<'a> {
    pub key: CountingKey<'a>,
}

impl PartialEq for Tallied<'_> {
    ghost eq = { on (λ item. item.key.number) ◌==◌ };

    ghost laws = { Prim.search (comparing, rules) };

    fn eq(&self, other: &Self) -> bool {
        count_one(&self.key.counts.items);
        self.key.number == other.key.number
    }
}

impl Eq for Tallied<'_> {
    ghost laws = { Prim.search (comparing, rules) };
}

impl<'a> IdOrdItem for Tallied<'a> {
    type Key = CountingKey<'a>;

    ghost key = { λ item. item.key };

    fn key(&self) -> &CountingKey<'a> {
        &self.key
    }
}

impl<'a> IdHashItem for Tallied<'a> {
    type Key = CountingKey<'a>;

    ghost key = { λ item. item.key };

    fn key(&self) -> &CountingKey<'a> {
        &self.key
    }
}
