//! The items of the rows. Each shows its key to both maps.
use iddqd::{IdHashItem, IdOrdItem};
use std::hash::Hash;

/// A name of three letters and a value.
#[derive(Clone, Copy, PartialEq, Eq)]
pub struct Named {
    pub name: [u8; 3],
    pub value: u32,
}

impl IdOrdItem for Named {
    type Key = [u8; 3];

    ghost key = { λ item. item.name };

    fn key(&self) -> &[u8; 3] {
        &self.name
    }
}

impl IdHashItem for Named {
    type Key = [u8; 3];

    ghost key = { λ item. item.name };

    fn key(&self) -> &[u8; 3] {
        &self.name
    }
}

/// Two names.
pub const FOO: Named = Named {
    name: *b"foo",
    value: 42,
};

pub const BAR: Named = Named {
    name: *b"bar",
    value: 20,
};

/// A number and its value.
#[derive(Clone, Copy, PartialEq, Eq)]
pub struct Numbered {
    pub number: u32,
    pub value: u32,
}

impl IdOrdItem for Numbered {
    type Key = u32;

    ghost key = { λ item. item.number };

    fn key(&self) -> &u32 {
        &self.number
    }
}

impl IdHashItem for Numbered {
    type Key = u32;

    ghost key = { λ item. item.number };

    fn key(&self) -> &u32 {
        &self.number
    }
}

/// A name in memory of its own, and a value.
#[derive(Drop)]
pub struct Titled {
    pub name: String,
    pub value: u32,
}

impl IdOrdItem for Titled {
    type Key = String;

    ghost key = { λ item. item.name };

    fn key(&self) -> &String {
        &self.name
    }
}

impl IdHashItem for Titled {
    type Key = String;

    ghost key = { λ item. item.name };

    fn key(&self) -> &String {
        &self.name
    }
}

/// A value and the key that it is found by.
#[derive(Clone, Copy, PartialEq, Eq)]
pub struct Filed<K, V> {
    pub key: K,
    pub value: V,
}

impl<K: Ord, V> IdOrdItem for Filed<K, V> {
    type Key = K;

    ghost key = { λ item. item.key };

    fn key(&self) -> &K {
        &self.key
    }
}

impl<K: Eq + Hash, V> IdHashItem for Filed<K, V> {
    type Key = K;

    ghost key = { λ item. item.key };

    fn key(&self) -> &K {
        &self.key
    }
}
