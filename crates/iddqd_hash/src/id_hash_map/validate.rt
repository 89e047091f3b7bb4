//! Checks of the structure.
ghost use Rattle.std.specs.Prelude.{◌↔◌, IsErr};
ghost use Rattle.iddqd_store.specs.Validation.{IsNotCompact};

use super::{IdHashMap, Keyed};
use iddqd_store::{IdHashItem, ValidateCompact, ValidationError};
use std::hash::BuildHasher;

impl<T: IdHashItem, S: BuildHasher> IdHashMap<T, S> {
    /// Returns `Err` exactly if slots are vacant and none may be. Keys and index agree by proof, so no key is looked
    /// up. Does not allocate.
    #[doc(hidden)]
    pub fn validate(&self, compact: ValidateCompact) -> Result<(), ValidationError>
        requires keyed { ⟦<Self as Keyed>⟧.keyed self.now }
        ensures { IsErr result ↔ IsNotCompact compact self.now.vacant }
    {
        self.validate_structural(compact)
    }
}

impl<T, S> IdHashMap<T, S> {
    /// As `validate`, of a map that need not be keyed.
    #[doc(hidden)]
    pub fn validate_structural(&self, compact: ValidateCompact) -> Result<(), ValidationError>
        ensures { IsErr result ↔ IsNotCompact compact self.now.vacant }
    {
        compact.internal_check(self.vacant())
    }
}
