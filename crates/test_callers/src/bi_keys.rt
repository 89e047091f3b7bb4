//! Callers of maps of two keys that are texts or numbers, with the default hasher and with one whose seed is random. They
//! have no proof file, and nobody calls them.
ghost use Rattle.std.specs.Prelude.{◌≡◌, IsTrue, Some};
ghost use Rattle.std.specs.Hash.{u32, u64};
ghost use Rattle.iddqd_bi_hash.specs.BiHashItems.{IsKeyedByNumberAndTextUnder, IsKeyedByTextAndNumber, IsKeyedByTextAndNumberUnder, IsKeyedByTexts, IsKeyedByTextsUnder, random_hash};
ghost use Rattle.test_callers.specs.Accounts.{of_number};

use crate::bi_accounts::Account;
use iddqd_bi_hash::{BiHashItem, BiHashMap, Keyed, Text};
use std::collections::hash_map::RandomState;
use std::hash::Hash;

/// An item of two keys, with what is written beside them.
#[derive(Drop)]
pub(crate) struct Linked<A, B> {
    one: A,
    other: B,
    load: u32,
}

impl<A: Eq + Hash, B: Eq + Hash> BiHashItem for Linked<A, B> {
    type K1 = A;

    type K2 = B;

    ghost key1 = { λ item. item.one };

    ghost key2 = { λ item. item.other };

    fn key1(&self) -> &A {
        &self.one
    }

    fn key2(&self) -> &B {
        &self.other
    }
}

type Badge = Linked<String, u32>;

type Alias = Linked<String, String>;

type Host = Linked<u32, u64>;

/// A text and a number.
fn add_badge(all: &mut BiHashMap<Badge>, badge: Badge) -> bool
    requires keyed { IsKeyedByTextAndNumber u32 (λ b. b.one) (λ b. b.other) all.old }
    ensures keyed { IsKeyedByTextAndNumber u32 (λ b. b.one) (λ b. b.other) all.new }
{
    !all.contains_key1(&Text("nobody")) && all.insert_unique(badge).is_ok()
}

/// The same with a random seed.
fn remove_badge(all: &mut BiHashMap<Badge, RandomState>, number: u32) -> Option<Badge>
    requires keyed { IsKeyedByTextAndNumberUnder random_hash u32 (λ b. b.one) (λ b. b.other) all.old }
    ensures keyed { IsKeyedByTextAndNumberUnder random_hash u32 (λ b. b.one) (λ b. b.other) all.new }
{
    all.remove2(&number)
}

/// Two texts.
fn add_alias(all: &mut BiHashMap<Alias>, alias: Alias) -> bool
    requires keyed { IsKeyedByTexts (λ a. a.one) (λ a. a.other) all.old }
    ensures keyed { IsKeyedByTexts (λ a. a.one) (λ a. a.other) all.new }
{
    all.insert_overwrite(alias).is_ok()
}

/// The same with a random seed.
fn remove_alias(all: &mut BiHashMap<Alias, RandomState>, short: &str) -> Option<Alias>
    requires keyed { IsKeyedByTextsUnder random_hash (λ a. a.one) (λ a. a.other) all.old }
    ensures keyed { IsKeyedByTextsUnder random_hash (λ a. a.one) (λ a. a.other) all.new }
{
    all.remove2(&Text(short))
}

/// A number and a text, with a random seed.
#[tactic(auto, using(iddqd_bi_hash::proofs::ChangeLemmas::after_changes))]
fn add_account(all: &mut BiHashMap<Account, RandomState>, account: Account) -> bool
    requires keyed { IsKeyedByNumberAndTextUnder random_hash u64 (λ a. a.number) (λ a. a.email) all.old }
    ensures by_number { IsTrue result → of_number account.number all.new.items ≡ Some account }
    ensures keyed { IsKeyedByNumberAndTextUnder random_hash u64 (λ a. a.number) (λ a. a.email) all.new }
{
    all.insert_unique(account).is_ok()
}

/// Two numbers: a write through a guard that leaves both keys leaves the map keyed.
#[tactic(auto, using(iddqd_bi_hash::proofs::GuardLemmas::both_keys_kept))]
fn set_load(hosts: &mut BiHashMap<Host>, number: u32, address: u64, load: u32) -> bool
    requires keyed { ⟦<BiHashMap<Host> as Keyed>⟧.keyed hosts.old }
{
    if let Some(mut found) = hosts.get_mut_unique(&number, &address) {
        found.load = load;
        found.finish();
    }
    hosts.contains_key2(&address)
}

/// Two numbers with a random seed.
fn remove_host(all: &mut BiHashMap<Host, RandomState>, number: u32) -> Option<Host>
    requires keyed { ⟦<BiHashMap<Host, RandomState> as Keyed>⟧.keyed all.old }
    ensures keyed { ⟦<BiHashMap<Host, RandomState> as Keyed>⟧.keyed all.new }
{
    all.remove1(&number)
}
