//! What the maps hold while they are timed.
ghost use Rattle.std.specs.Prelude.{◌≡◌, true};
ghost use Rattle.std.proofs.Common.{rules};

use iddqd::{IdHashItem, IdOrdItem};
use std::alloc::{AllocError, Global};
use std::hash::Hash;

/// A key that is made out of a number: other numbers give other keys.
pub(crate) trait BenchKey: Ord + Hash + Clone + Drop {
    /// The key of the number.
    fn of_number(alloc: Global, number: u64) -> Result<Self, AllocError>;

    /// The name of the type in the report.
    fn name() -> &'static str;

    // A clone is equal to the key that it was made of.
    ghost keeps: { (x y : Self) → Self.is_clone x y → Self.eq x y ≡ true };
}

impl BenchKey for u64 {
    ghost keeps = { λ x y same. Prim.search rules };

    fn of_number(_alloc: Global, number: u64) -> Result<u64, AllocError> {
        Ok(number.wrapping_mul(0x9e37_79b9_7f4a_7c15))
    }

    fn name() -> &'static str {
        "u64"
    }
}

impl BenchKey for String {
    ghost keeps = { λ x y same. Prim.search rules };

    fn of_number(alloc: Global, number: u64) -> Result<String, AllocError> {
        let mut name = "item number ".to_string(alloc)?;
        name.push_str(number.to_string(alloc)?.as_str())?;
        Ok(name)
    }

    fn name() -> &'static str {
        "String"
    }
}

/// A key and a value.
#[derive(Clone, Drop)]
pub(crate) struct Item<K> {
    pub(crate) key: K,
    pub(crate) value: u64,
}

/// What has a value that is even or odd.
pub(crate) trait Valued {
    /// Whether the value is even.
    fn is_even(&self) -> bool;
}

impl<K> Valued for Item<K> {
    fn is_even(&self) -> bool {
        self.value % 2 == 0
    }
}

impl<K: Ord> IdOrdItem for Item<K> {
    type Key = K;

    ghost key = { λ item. item.key };

    fn key(&self) -> &K {
        &self.key
    }
}

impl<K: Eq + Hash> IdHashItem for Item<K> {
    type Key = K;

    ghost key = { λ item. item.key };

    fn key(&self) -> &K {
        &self.key
    }
}

/// The item of the number.
pub(crate) fn item_of<K: BenchKey>(alloc: Global, number: u64) -> Result<Item<K>, AllocError> {
    Ok(Item {
        key: K::of_number(alloc, number)?,
        value: number,
    })
}
