//! Callers of the entries of a map of two keys, over items that own text: what lookups by either key find then. Nobody
//! calls them.
ghost use Rattle.std.specs.Prelude.{◌≡◌, IsTrue, None, Some, false, string_bytes};
ghost use Rattle.std.specs.Hash.{u64};
ghost use Rattle.iddqd_bi_hash.specs.Contents.{AddsItem};
ghost use Rattle.iddqd_bi_hash.specs.BiHashItems.{IsKeyedByNumberAndText};
ghost use Rattle.test_callers.specs.Accounts.{AddsIfNone, KeepsNumbers, KeepsTexts, of_email, of_number};

use crate::bi_accounts::Account;
use iddqd_bi_hash::BiHashMap;
use iddqd_bi_hash::bi_hash_map::{Entry, OccupiedEntryMut};

/// Adds the account through its entry, if no other has its number or its address.
fn add_by_entry(all: &mut BiHashMap<Account>, account: Account) -> bool
    requires keyed { IsKeyedByNumberAndText u64 (λ a. a.number) (λ a. a.email) all.old }
    ensures added { IsTrue result → AddsItem account all.old.items all.new.items }
    ensures no_number { IsTrue result → of_number account.number all.old.items ≡ None }
    ensures no_email { IsTrue result → of_email account.email all.old.items ≡ None }
    ensures kept { result ≡ false → all.new.items ≡ all.old.items }
    ensures keyed { IsKeyedByNumberAndText u64 (λ a. a.number) (λ a. a.email) all.new }
{
    match all.entry(&account.number, &account.email) {
        Entry::Vacant(entry) => match entry.insert(account) {
            Ok(added) => {
                added.finish();
                true
            }
            Err(_refused) => false,
        },
        Entry::Occupied(_) => false,
    }
}

/// The same, of what is found then. Both keys find what was inserted, and any other key finds what it found.
#[tactic(auto, using(iddqd_bi_hash::proofs::ChangeLemmas::after_changes))]
fn add_if_new(all: &mut BiHashMap<Account>, account: Account) -> bool
    requires keyed { IsKeyedByNumberAndText u64 (λ a. a.number) (λ a. a.email) all.old }
    ensures by_number { IsTrue result → of_number account.number all.new.items ≡ Some account }
    ensures by_email { IsTrue result → of_email account.email all.new.items ≡ Some account }
    ensures numbers { IsTrue result → KeepsNumbers account.number all.old.items all.new.items }
    ensures texts { IsTrue result → KeepsTexts (string_bytes account.email) all.old.items all.new.items }
    ensures keyed { IsKeyedByNumberAndText u64 (λ a. a.number) (λ a. a.email) all.new }
{
    add_by_entry(all, account)
}

/// Adds the account if no other has its number or its address. True if the map has an account of both then.
fn add_or_leave(all: &mut BiHashMap<Account>, account: Account) -> bool
    requires keyed { IsKeyedByNumberAndText u64 (λ a. a.number) (λ a. a.email) all.old }
    ensures kept { result ≡ false → all.new.items ≡ all.old.items }
    ensures added { IsTrue result → AddsIfNone account all.old.items all.new.items }
    ensures keyed { IsKeyedByNumberAndText u64 (λ a. a.number) (λ a. a.email) all.new }
{
    match all
        .entry(&account.number, &account.email)
        .or_insert(account)
    {
        Ok(lent) => match lent {
            OccupiedEntryMut::Unique(there) => {
                there.finish();
                true
            }
            OccupiedEntryMut::NonUnique(_) => false,
        },
        Err(_refused) => false,
    }
}
