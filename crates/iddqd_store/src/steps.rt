//! A counter of comparisons.
ghost use Rattle.std.specs.Prelude.{◌≡◌, ◌+◌, ◌≤◌, min};

use crate::queries::{Comparable, Equivalent};
use std::cmp::Ordering;
use std::marker::Model;

/// How many times a lookup compared a key. At `u32::MAX` the count stays.
#[derive(Drop)]
pub struct Steps {
    count: u32,
}

impl Model for Steps {
    ghost use Rattle.std.specs.Prelude.{ℕ};

    ghost Value = { ℕ };

    ghost view = { λ s. s.count };
}

impl Steps {
    /// A count of 0.
    pub fn new() -> Steps
        ensures { result ≡ 0 }
    {
        Steps { count: 0 }
    }

    /// Returns the count.
    pub fn count(&self) -> u32
        ensures { result ≡ self.now }
    {
        self.count
    }

    fn add_one(&mut self)
        ensures step { self.new ≡ min (self.old + 1) u32.MAX }
        ensures never_resets { self.old ≤ self.new }
    {
        self.count = self.count.saturating_add(1);
    }

    /// Returns how the query compares to the key, and counts one step.
    pub fn compare<K: Ord, Q: Comparable<K>>(&mut self, query: &Q, key: &K) -> Ordering
        ensures value { result ≡ Q.compare query.now key.now }
        ensures step { self.new ≡ min (self.old + 1) u32.MAX }
        ensures never_resets { self.old ≤ self.new }
    {
        self.add_one();
        query.compare(key)
    }

    /// Returns whether the query stands for the key, and counts one step.
    pub fn equal<K: Eq, Q: Equivalent<K>>(&mut self, query: &Q, key: &K) -> bool
        ensures value { result ≡ Q.equivalent query.now key.now }
        ensures step { self.new ≡ min (self.old + 1) u32.MAX }
        ensures never_resets { self.old ≤ self.new }
    {
        self.add_one();
        query.equivalent(key)
    }
}
