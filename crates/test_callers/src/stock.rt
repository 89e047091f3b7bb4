//! A map and the sum of its values in one struct, which its methods keep in step.
ghost use Rattle.std.specs.Prelude.{◌≡◌, ◌+◌, ◌≤◌, List, IfNone, IsTrue, [], false, filter, nat_lt};
ghost use Rattle.iddqd.specs.Contents.{AddsItem};
ghost use Rattle.iddqd.specs.IdHashMap.{IsKeyedByText};
ghost use Rattle.test_callers.specs.Lookups.{KeepsOtherNames, ReadsAtName, of_name, total, without_name};
ghost use Rattle.test_writers.specs.declared.items.Named.{Named};

use iddqd::id_hash_map::Entry;
use iddqd::{IdHashMap, Text};
use std::alloc::Global;
use std::marker::Model;
use test_writers::items::Named;

/// Items and the sum of their values, seen as the list of the items.
#[derive(Drop)]
struct Stock {
    map: IdHashMap<Named>,
    sum: u64,
}

impl Model for Stock {
    ghost Value = { List Named };

    ghost view = { λ stock. stock.map.items };

    ghost invariant = { λ stock. IsKeyedByText (λ x. x.name) stock.map × (stock.sum ≡ total stock.map.items) };
}

fn sum_of(map: &IdHashMap<Named>) -> u64
    requires fits { total map.now.items ≤ u64.MAX }
    ensures { result ≡ total map.now.items }
{
    map.iter().map(|x| x.value as u64).sum()
}

impl Stock {
    /// Without items.
    fn new(alloc: Global) -> Stock
        ensures { result ≡ [] }
    {
        Stock {
            map: IdHashMap::new(alloc),
            sum: 0,
        }
    }

    /// The sum of the values, in constant time.
    fn sum(&self) -> u64
        ensures { result ≡ total self.now }
    {
        self.sum
    }

    /// Adds the item, if its name is not there.
    #[tactic(auto, using(iddqd::proofs::ChangeLemmas::after_changes))]
    fn add(&mut self, item: Named) -> bool
        requires fits { total self.old + item.value ≤ u64.MAX }
        ensures added { IsTrue result → AddsItem item self.old self.new }
        ensures kept { result ≡ false → self.new ≡ self.old }
    {
        let value = item.value;
        match self.map.insert_unique(item) {
            Ok(()) => {
                self.sum += value as u64;
                true
            }
            Err(_error) => false,
        }
    }

    /// Removes the item of the name.
    #[tactic(auto, using(iddqd::proofs::ChangeLemmas::after_changes))]
    fn remove(&mut self, name: &str) -> Option<Named>
        ensures found { result ≡ of_name name.now self.old }
        ensures left { self.new ≡ without_name name.now self.old }
    {
        let item = self.map.remove(&Text(name))?;
        self.sum -= item.value as u64;
        Some(item)
    }

    /// Writes the value of the name through its entry.
    #[tactic(auto, using(iddqd::proofs::ChangeLemmas::after_changes))]
    fn set_value(&mut self, name: &str, value: u32) -> bool
        requires fits { total self.old + value ≤ u64.MAX }
        ensures read { ReadsAtName name.now value self.old self.new }
        ensures others { KeepsOtherNames name.now self.old self.new }
        ensures absent { IfNone (of_name name.now self.old) (self.new ≡ self.old) }
    {
        match self.map.entry(&Text(name)) {
            Entry::Occupied(mut entry) => {
                let found = entry.get_mut();
                self.sum += value as u64;
                self.sum -= found.value as u64;
                found.value = value;
                true
            }
            Entry::Vacant(_) => false,
        }
    }

    /// Keeps the items of greater value, and sums them anew.
    #[tactic(auto, using(iddqd::proofs::ChangeLemmas::sum_retained))]
    fn keep_greater(&mut self, least: u32)
        ensures kept { self.new ≡ filter (λ x. nat_lt least x.value) self.old }
    {
        self.map.retain(|x| least < x.value);
        self.sum = sum_of(&self.map);
    }
}
