//! A text as a query for `String` keys.
ghost use Rattle.std.specs.Prelude.{◌≡◌};
ghost use Rattle.std.specs.Ordering.{nat_cmp};
ghost use Rattle.std.specs.Str.{bytes_eq};
ghost use Rattle.std.specs.String.{string_bytes};
ghost use Rattle.std.proofs.Common.{sym};
ghost use Rattle.std.specs.Cmp.Lexicographic.{slice_cmp, nat_list_eq_equiv, nat_list_cmp_total, texts_ties};
ghost use Rattle.iddqd_store.specs.Query.{le_then_less, ge_then_greater};

use crate::queries::{Comparable, Equivalent};
use std::cmp::Ordering;

/// A query for `String` keys. It compares and hashes as the `String` of the same text, so a `str` can be asked for.
#[derive(Clone, Copy, PartialEq, Eq, Hash)]
pub struct Text<'a>(pub &'a str);

// The two comparisons of texts, at one lifetime.
fn equal_texts<'x>(a: &'x str, b: &'x str) -> bool
    ensures { result ≡ bytes_eq a.now b.now }
{
    a == b
}

fn compare_texts<'x>(a: &'x str, b: &'x str) -> Ordering
    ensures { result ≡ slice_cmp nat_cmp a.now b.now }
{
    Ord::cmp(&a, &b)
}

impl Equivalent<String> for Text<'_> {
    ghost equivalent = { λ q k. bytes_eq q.0.now (string_bytes k) };

    ghost one_key = { λ q x y. nat_list_eq_equiv.congr q.0.now (string_bytes x) (string_bytes y) };

    fn equivalent(&self, key: &String) -> bool {
        equal_texts(self.0, key.as_str())
    }
}

impl Comparable<String> for Text<'_> {
    ghost compare = { λ q k. slice_cmp nat_cmp q.0.now (string_bytes k) };

    ghost equal_where_equivalent = { λ q k. sym (texts_ties q.0.now (string_bytes k)) };

    ghost less_above = { λ q x y. le_then_less nat_list_cmp_total q.0.now (string_bytes x) (string_bytes y) };

    ghost greater_below = { λ q x y. ge_then_greater nat_list_cmp_total q.0.now (string_bytes x) (string_bytes y) };

    fn compare(&self, key: &String) -> Ordering {
        compare_texts(self.0, key.as_str())
    }
}
