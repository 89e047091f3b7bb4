//! A call sign: a key that is equal to each of the same letters, in whatever case.
ghost use Rattle.std.specs.Prelude.{◌≡◌, map, nat_eq};
ghost use Rattle.std.proofs.Common.{ap};
ghost use Rattle.std.specs.Char.{to_ascii_lowercase};
ghost use Rattle.std.specs.Cmp.{partial_equiv_from_equiv};
ghost use Rattle.std.specs.Cmp.Lexicographic.{bytes_decides, on_texts_equal, pointwise};
ghost use Rattle.std.specs.Hash as fed;
ghost use Rattle.std.specs.Ordering.{on};

use std::hash::{Hash, Hasher};

/// Three letters.
#[derive(Clone, Copy)]
pub(crate) struct Sign(pub(crate) [u8; 3]);

impl Sign {
    fn folded(&self) -> [u8; 3]
        ensures { result ≡ map to_ascii_lowercase self.now.0 }
    {
        self.0.map(|byte| byte.to_ascii_lowercase())
    }
}

impl PartialEq for Sign {
    ghost eq = { on (λ sign. map to_ascii_lowercase sign.0) (pointwise nat_eq) };

    ghost laws = { partial_equiv_from_equiv (on_texts_equal (λ sign. map to_ascii_lowercase sign.0)) };

    fn eq(&self, other: &Sign) -> bool {
        self.folded() == other.folded()
    }
}

impl Eq for Sign {
    ghost laws = { on_texts_equal (λ sign. map to_ascii_lowercase sign.0) };
}

impl Hash for Sign {
    ghost hash_input = { λ sign. fed.slice fed.u8 (map to_ascii_lowercase sign.0) };

    ghost respects_eq = { λ x y alike. ap (fed.slice fed.u8) ((bytes_decides (map to_ascii_lowercase x.0) (map to_ascii_lowercase y.0)).0 alike) };

    fn hash<H: Hasher>(&self, state: &mut H) {
        self.folded().hash(state);
    }
}
