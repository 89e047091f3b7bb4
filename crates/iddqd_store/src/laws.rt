//! Laws of the definitions that contracts cite. They run nothing.
ghost use Rattle.iddqd_store.specs.Hashing.{HashesByTrait};

use crate::queries::Equivalent;
use crate::text::Text;
use std::hash::Hash;

/// A key hashes as each key that it is equivalent to.
pub fn key_hashes_as_equal_keys<K: Hash>(query: &K)
    ensures { HashesByTrait ⟦<K as Equivalent<K>>⟧ K.hash_input K.hash_input query.now }
{}

/// A text hashes as each `String` that it is equivalent to.
pub fn text_hashes_as_strings<'a>(query: &Text<'a>)
    ensures { HashesByTrait ⟦<Text<'a> as Equivalent<String>>⟧ ⟦<Text<'a> as Hash>⟧.hash_input ⟦<String as Hash>⟧.hash_input query.now }
{}
