//! Keys that are equal without regard to case, and items of such keys.
ghost use Rattle.std.specs.Prelude.{◌≡◌, map, nat_eq};
ghost use Rattle.std.proofs.Common.{ap, rules};
ghost use Rattle.std.specs.Char.{to_ascii_lowercase};
ghost use Rattle.std.specs.Cmp.{partial_equiv_from_equiv};
ghost use Rattle.std.specs.Cmp.Lexicographic.{bytes_decides, slice_cmp, pointwise, on_texts, on_texts_equal, texts_ties};
ghost use Rattle.std.specs.Hash as fed;
ghost use Rattle.std.specs.Ordering.{nat_cmp, on, as_partial_cmp};
ghost use Rattle.test_coarse.specs.Folded.{folded_po};

use iddqd::{IdHashItem, IdOrdItem};
use std::cmp::Ordering;
use std::hash::{Hash, Hasher};

/// A name that is equal to each of the same letters, in whatever case.
#[derive(Clone, Copy)]
pub struct Caseless(pub [u8; 3]);

fn folded(name: &Caseless) -> [u8; 3]
    ensures { result ≡ map to_ascii_lowercase name.now.0 }
{
    name.0.map(|byte| byte.to_ascii_lowercase())
}

impl PartialEq for Caseless {
    ghost eq = { on (λ name. map to_ascii_lowercase name.0) (pointwise nat_eq) };

    ghost laws = { partial_equiv_from_equiv (on_texts_equal (λ name. map to_ascii_lowercase name.0)) };

    fn eq(&self, other: &Caseless) -> bool {
        folded(self) == folded(other)
    }
}

impl Eq for Caseless {
    ghost laws = { on_texts_equal (λ name. map to_ascii_lowercase name.0) };
}

impl Ord for Caseless {
    ghost cmp = { on (λ name. map to_ascii_lowercase name.0) (slice_cmp nat_cmp) };

    ghost total = { on_texts (λ name. map to_ascii_lowercase name.0) };

    ghost matches_partial_cmp = { Prim.search rules };

    ghost matches_eq = { λ x y. texts_ties (map to_ascii_lowercase x.0) (map to_ascii_lowercase y.0) };

    fn cmp(&self, other: &Caseless) -> Ordering {
        folded(self).cmp(&folded(other))
    }
}

impl PartialOrd for Caseless {
    ghost partial_cmp = { as_partial_cmp (on (λ name. map to_ascii_lowercase name.0) (slice_cmp nat_cmp)) };

    ghost laws = { folded_po (λ name. map to_ascii_lowercase name.0) };

    fn partial_cmp(&self, other: &Caseless) -> Option<Ordering> {
        Some(self.cmp(other))
    }
}

impl Hash for Caseless {
    ghost hash_input = { λ name. fed.slice fed.u8 (map to_ascii_lowercase name.0) };

    ghost respects_eq = { λ x y alike. ap (fed.slice fed.u8) ((bytes_decides (map to_ascii_lowercase x.0) (map to_ascii_lowercase y.0)).0 alike) };

    fn hash<H: Hasher>(&self, state: &mut H) {
        folded(self).hash(state);
    }
}

/// An item of such a name.
#[derive(Clone, Copy, PartialEq, Eq)]
pub struct Coarse {
    /// What it is found by.
    pub name: Caseless,
    /// What stands beside it.
    pub value: u32,
}

impl IdOrdItem for Coarse {
    type Key = Caseless;

    ghost key = { λ item. item.name };

    fn key(&self) -> &Caseless {
        &self.name
    }
}

impl IdHashItem for Coarse {
    type Key = Caseless;

    ghost key = { λ item. item.name };

    fn key(&self) -> &Caseless {
        &self.name
    }
}

/// An item of this name.
pub fn item_of(name: [u8; 3], value: u32) -> Coarse
    ensures name { result.name.0 ≡ name }
    ensures value { result.value ≡ value }
{
    Coarse {
        name: Caseless(name),
        value,
    }
}

/// The name's spelling and the value.
pub fn spelled(item: &Coarse) -> ([u8; 3], u32)
    ensures { result ≡ (item.now.name.0, item.now.value) }
{
    let name = item.name.0;
    (name, item.value)
}
