//! Callers of a map of two keys, over items that own text: what lookups by either key find after each change. Nobody
//! calls them.
ghost use Rattle.std.specs.Prelude.{◌≡◌, ◌+◌, ◌<◌, IfErr, IfSome, IsTrue, None, OnOk, Some, length, option_map, string_bytes};
ghost use Rattle.std.specs.Hash.{u64};
ghost use Rattle.iddqd_bi_hash.specs.BiHashItems.{IsKeyedByNumberAndText};
ghost use Rattle.test_callers.specs.Accounts.{HasEmail, HasNumber, KeepsNumbers, KeepsNumbersBeside, KeepsNumbersUnmet, KeepsTexts, KeepsTextsBeside, KeepsTextsUnmet, LosesEmail, LosesEmailTo, LosesNumber, LosesNumberTo, of_both, of_email, of_number, of_text, with_email, with_quota};

use iddqd_bi_hash::{BiHashItem, BiHashMap, Few, InsertError, Refused, Text};

/// An account, by its number and by the address of its owner.
#[derive(Drop)]
pub(crate) struct Account {
    pub(crate) number: u64,
    pub(crate) email: String,
    /// How much it may hold.
    pub(crate) quota: u32,
}

impl BiHashItem for Account {
    type K1 = u64;

    type K2 = String;

    ghost key1 = { λ a. a.number };

    ghost key2 = { λ a. a.email };

    fn key1(&self) -> &u64 {
        &self.number
    }

    fn key2(&self) -> &String {
        &self.email
    }
}

/// Both keys find what was inserted, and any other key finds what it found.
#[tactic(auto, using(iddqd_bi_hash::proofs::ChangeLemmas::after_changes))]
fn add(all: &mut BiHashMap<Account>, account: Account) -> bool
    requires keyed { IsKeyedByNumberAndText u64 (λ a. a.number) (λ a. a.email) all.old }
    ensures by_number { IsTrue result → of_number account.number all.new.items ≡ Some account }
    ensures by_email { IsTrue result → of_email account.email all.new.items ≡ Some account }
    ensures numbers { KeepsNumbers account.number all.old.items all.new.items }
    ensures texts { KeepsTexts (string_bytes account.email) all.old.items all.new.items }
    ensures longer { IsTrue result → length all.new.items ≡ length all.old.items + 1 }
    ensures keyed { IsKeyedByNumberAndText u64 (λ a. a.number) (λ a. a.email) all.new }
{
    all.insert_unique(account).is_ok()
}

/// How many accounts are shown that have a key of this one. Then nothing has changed.
fn in_the_way(all: &mut BiHashMap<Account>, account: Account) -> usize
    requires keyed { IsKeyedByNumberAndText u64 (λ a. a.number) (λ a. a.email) all.old }
    ensures unchanged { 0 < result → all.new ≡ all.old }
    ensures keyed { IsKeyedByNumberAndText u64 (λ a. a.number) (λ a. a.email) all.new }
{
    match all.insert_unique(account) {
        Err(InsertError::Duplicate(both)) => both.duplicates().len(),
        Ok(()) | Err(InsertError::Refused(_)) => 0,
    }
}

/// Both keys find what was inserted, and the other key of an account that it replaces finds nothing.
#[tactic(auto, using(iddqd_bi_hash::proofs::ChangeLemmas::after_changes))]
fn put(
    all: &mut BiHashMap<Account>,
    account: Account,
) -> Result<Option<Few<Account>>, Refused<Account>>
    requires keyed { IsKeyedByNumberAndText u64 (λ a. a.number) (λ a. a.email) all.old }

    // the account
    ensures by_number { OnOk result (of_number account.number all.new.items ≡ Some account) }
    ensures by_email { OnOk result (of_email account.email all.new.items ≡ Some account) }

    // those that it replaces
    ensures email_gone { OnOk result (LosesEmailTo account.email (of_number account.number all.old.items) all.new.items) }
    ensures number_gone { OnOk result (LosesNumberTo account (of_email account.email all.old.items) all.new.items) }
    ensures keyed { IsKeyedByNumberAndText u64 (λ a. a.number) (λ a. a.email) all.new }
{
    all.insert_overwrite(account)
}

/// An account that shares neither key with the new one is found as before by either.
#[tactic(auto, using(iddqd_bi_hash::proofs::ChangeLemmas::find_unmet))]
fn put_beside(
    all: &mut BiHashMap<Account>,
    account: Account,
) -> Result<Option<Few<Account>>, Refused<Account>>
    requires keyed { IsKeyedByNumberAndText u64 (λ a. a.number) (λ a. a.email) all.old }
    ensures numbers { OnOk result (KeepsNumbersUnmet account all.old.items all.new.items) }
    ensures texts { OnOk result (KeepsTextsUnmet account all.old.items all.new.items) }
    ensures keyed { IsKeyedByNumberAndText u64 (λ a. a.number) (λ a. a.email) all.new }
{
    all.insert_overwrite(account)
}

/// Neither key finds what was removed, and any other key finds what it found.
#[tactic(auto, using(iddqd_bi_hash::proofs::ChangeLemmas::after_changes))]
fn close(all: &mut BiHashMap<Account>, number: u64) -> Option<Account>
    requires keyed { IsKeyedByNumberAndText u64 (λ a. a.number) (λ a. a.email) all.old }

    // the account
    ensures gone { of_number number all.new.items ≡ None }
    ensures email_gone { LosesEmail result all.new.items }
    ensures shorter { IfSome result (λ _. length all.old.items ≡ length all.new.items + 1) }

    // the others
    ensures numbers { KeepsNumbers number all.old.items all.new.items }
    ensures texts { KeepsTextsBeside result all.old.items all.new.items }
    ensures keyed { IsKeyedByNumberAndText u64 (λ a. a.number) (λ a. a.email) all.new }
{
    all.remove1(&number)
}

/// The same by the address.
#[tactic(auto, using(iddqd_bi_hash::proofs::ChangeLemmas::after_changes))]
fn close_by_email(all: &mut BiHashMap<Account>, email: &str) -> Option<Account>
    requires keyed { IsKeyedByNumberAndText u64 (λ a. a.number) (λ a. a.email) all.old }

    // the account
    ensures value { result ≡ of_text email.now all.old.items }
    ensures gone { of_text email.now all.new.items ≡ None }
    ensures number_gone { LosesNumber result all.new.items }

    // the others
    ensures texts { KeepsTexts email.now all.old.items all.new.items }
    ensures numbers { KeepsNumbersBeside result all.old.items all.new.items }
    ensures keyed { IsKeyedByNumberAndText u64 (λ a. a.number) (λ a. a.email) all.new }
{
    all.remove2(&Text(email))
}

/// The same by both.
#[tactic(auto, using(iddqd_bi_hash::proofs::ChangeLemmas::after_changes))]
fn close_of_both(all: &mut BiHashMap<Account>, number: u64, email: &str) -> Option<Account>
    requires keyed { IsKeyedByNumberAndText u64 (λ a. a.number) (λ a. a.email) all.old }

    // the account
    ensures number_gone { LosesNumber result all.new.items }
    ensures email_gone { LosesEmail result all.new.items }

    // the others
    ensures numbers { KeepsNumbersBeside result all.old.items all.new.items }
    ensures texts { KeepsTextsBeside result all.old.items all.new.items }
    ensures keyed { IsKeyedByNumberAndText u64 (λ a. a.number) (λ a. a.email) all.new }
{
    all.remove_unique(&number, &Text(email))
}

/// Either key finds what was written, and any other key finds what it found.
#[tactic(auto, using(iddqd_bi_hash::proofs::ChangeLemmas::after_writes))]
fn set_quota(all: &mut BiHashMap<Account>, number: u64, quota: u32)
    requires keyed { IsKeyedByNumberAndText u64 (λ a. a.number) (λ a. a.email) all.old }

    // the account
    ensures by_number { HasNumber (with_quota quota) (of_number number all.old.items) all.new.items }
    ensures by_email { HasEmail (with_quota quota) (of_number number all.old.items) all.new.items }

    // the others
    ensures numbers { KeepsNumbers number all.old.items all.new.items }
    ensures texts { KeepsTextsBeside (of_number number all.old.items) all.old.items all.new.items }
    ensures keyed { IsKeyedByNumberAndText u64 (λ a. a.number) (λ a. a.email) all.new }
{
    if let Some(mut account) = all.get1_mut(&number) {
        account.quota = quota;
        account.finish();
    }
}

/// The same by the address.
#[tactic(auto, using(iddqd_bi_hash::proofs::ChangeLemmas::after_writes))]
fn set_quota_by_email(all: &mut BiHashMap<Account>, email: &str, quota: u32)
    requires keyed { IsKeyedByNumberAndText u64 (λ a. a.number) (λ a. a.email) all.old }

    // the account
    ensures by_number { HasNumber (with_quota quota) (of_text email.now all.old.items) all.new.items }
    ensures by_email { HasEmail (with_quota quota) (of_text email.now all.old.items) all.new.items }

    // the others
    ensures numbers { KeepsNumbersBeside (of_text email.now all.old.items) all.old.items all.new.items }
    ensures texts { KeepsTexts email.now all.old.items all.new.items }
    ensures keyed { IsKeyedByNumberAndText u64 (λ a. a.number) (λ a. a.email) all.new }
{
    if let Some(mut account) = all.get2_mut(&Text(email)) {
        account.quota = quota;
        account.finish();
    }
}

/// The same by both.
#[tactic(auto, using(iddqd_bi_hash::proofs::ChangeLemmas::after_writes))]
fn set_quota_of_both(all: &mut BiHashMap<Account>, number: u64, email: &str, quota: u32)
    requires keyed { IsKeyedByNumberAndText u64 (λ a. a.number) (λ a. a.email) all.old }

    // the account
    ensures by_number { HasNumber (with_quota quota) (of_both number email.now all.old.items) all.new.items }
    ensures by_email { HasEmail (with_quota quota) (of_both number email.now all.old.items) all.new.items }

    // the others
    ensures numbers { KeepsNumbersBeside (of_both number email.now all.old.items) all.old.items all.new.items }
    ensures texts { KeepsTextsBeside (of_both number email.now all.old.items) all.old.items all.new.items }
    ensures keyed { IsKeyedByNumberAndText u64 (λ a. a.number) (λ a. a.email) all.new }
{
    if let Some(mut account) = all.get_mut_unique(&number, &Text(email)) {
        account.quota = quota;
        account.finish();
    }
}

/// Changes the address of an account. If another account has the address, or room is refused, the account is returned,
/// and is out of the map.
#[tactic(auto, using(iddqd_bi_hash::proofs::ChangeLemmas::after_changes))]
fn change_email(all: &mut BiHashMap<Account>, number: u64, email: String) -> Result<bool, Account>
    requires keyed { IsKeyedByNumberAndText u64 (λ a. a.number) (λ a. a.email) all.old }
    ensures by_number { OnOk result (HasNumber (with_email email) (of_number number all.old.items) all.new.items) }
    ensures by_email { OnOk result (HasEmail (with_email email) (of_number number all.old.items) all.new.items) }
    ensures former { OnOk result (LosesEmailTo email (of_number number all.old.items) all.new.items) }
    ensures back { IfErr result (λ a. option_map (with_email email) (of_number number all.old.items) ≡ Some a) }
    ensures keyed { IsKeyedByNumberAndText u64 (λ a. a.number) (λ a. a.email) all.new }
{
    match all.remove1(&number) {
        Some(mut account) => {
            account.email = email;
            match all.insert_unique(account) {
                Ok(()) => Ok(true),
                Err(InsertError::Duplicate(both)) => Err(both.into_parts().0),
                Err(InsertError::Refused(refused)) => Err(refused.item),
            }
        }
        None => Ok(false),
    }
}
