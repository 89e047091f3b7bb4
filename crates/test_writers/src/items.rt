//! Items of both kinds of map, and what is done with them.
ghost use Rattle.std.specs.Prelude.{◌≡◌, true};

use iddqd::{IdHashItem, IdOrdItem, Visit};

/// A key and a value.
#[derive(Clone, Copy, Drop)]
pub struct Pair {
    /// What it is found by.
    pub key: u32,
    /// What is written.
    pub value: u32,
}

impl IdOrdItem for Pair {
    type Key = u32;

    ghost key = { λ pair. pair.key };

    fn key(&self) -> &u32 {
        &self.key
    }
}

impl IdHashItem for Pair {
    type Key = u32;

    ghost key = { λ pair. pair.key };

    fn key(&self) -> &u32 {
        &self.key
    }
}

/// A name and its value: an item that owns memory.
#[derive(Clone, Drop)]
pub struct Named {
    /// What it is found by.
    pub name: String,
    /// What is written.
    pub value: u32,
}

impl IdOrdItem for Named {
    type Key = String;

    ghost key = { λ item. item.name };

    fn key(&self) -> &String {
        &self.name
    }
}

impl IdHashItem for Named {
    type Key = String;

    ghost key = { λ item. item.name };

    fn key(&self) -> &String {
        &self.name
    }
}

/// Writes the value of a pair that is passed.
pub fn write_value(pair: &mut Pair, value: u32)
    ensures { pair.new ≡ record pair.old { value = value } }
{
    pair.value = value;
}

/// Writes a value.
#[derive(Drop)]
pub struct SetsValue {
    /// What each item's value is then.
    pub value: u32,
}

impl Visit<Pair> for SetsValue {
    ghost visits = { λ v x. (v, record x { value = v.value }, true) };

    fn visit(&mut self, item: &mut Pair) -> bool {
        item.value = self.value;
        true
    }
}

impl Visit<Named> for SetsValue {
    ghost visits = { λ v x. (v, record x { value = v.value }, true) };

    fn visit(&mut self, item: &mut Named) -> bool {
        item.value = self.value;
        true
    }
}
