//! Queries: values that stand for a key.
ghost use Rattle.std.specs.Prelude.{◌≡◌, Bool, IsTrue};
ghost use Rattle.std.specs.declared.cmp.Ordering.{Ordering};
ghost use Rattle.std.specs.declared.cmp.Ordering.TheVariants.{Less, Greater};
ghost use Rattle.std.proofs.Common.{sym};
ghost use Rattle.std.specs.Ordering.{is_eq, is_le, is_ge};
ghost use Rattle.iddqd_store.specs.Query.{le_then_less, ge_then_greater};

use std::cmp::Ordering;

/// A value that stands for a key. The prover checks its laws.
pub trait Equivalent<K: Eq> {
    // What `equivalent` returns.
    ghost equivalent: { Self → K → Bool };

    /// Returns whether the query stands for the key.
    fn equivalent(&self, key: &K) -> bool
        ensures { result ≡ equivalent self.now key.now };

    // Keys that a query is equivalent to are equal, and each key equal to one of them is too.
    ghost one_key: { (q : Self) (x y : K) → IsTrue (equivalent q x) → equivalent q y ≡ K.eq x y };
}

/// A value that stands for a key, and has its place in the keys' order. The prover checks its laws.
pub trait Comparable<K: Ord>: Equivalent<K> {
    // What `compare` returns.
    ghost compare: { Self → K → Ordering };

    /// Returns how the query compares to the key.
    fn compare(&self, key: &K) -> Ordering
        ensures { result ≡ compare self.now key.now };

    // `Equal` exactly if the query is equivalent.
    ghost equal_where_equivalent: { (q : Self) (k : K) → is_eq (compare q k) ≡ Self.equivalent q k };

    // `Less` for each key above one for which it is `Less` or `Equal`.
    ghost less_above: { (q : Self) (x y : K) → IsTrue (is_le (compare q x)) → K.cmp x y ≡ Less → compare q y ≡ Less };

    // `Greater` for each key below one for which it is `Greater` or `Equal`.
    ghost greater_below: { (q : Self) (x y : K) → IsTrue (is_ge (compare q x)) → K.cmp x y ≡ Greater → compare q y ≡ Greater };
}

impl<K: Eq> Equivalent<K> for K {
    ghost equivalent = { K.eq };

    ghost one_key = { K.Eq.laws.congr };

    fn equivalent(&self, key: &K) -> bool {
        self == key
    }
}

impl<K: Ord> Comparable<K> for K {
    ghost compare = { K.cmp };

    ghost equal_where_equivalent = { λ q k. sym (K.matches_eq q k) };

    ghost less_above = { le_then_less K.total };

    ghost greater_below = { ge_then_greater K.total };

    fn compare(&self, key: &K) -> Ordering {
        self.cmp(key)
    }
}
