//! Checks of the structure.
ghost use Rattle.std.specs.Prelude.{◌↔◌, IsErr};
ghost use Rattle.iddqd_store.specs.Validation.{IsNotCompact};

use super::BiHashMap;
use iddqd_store::{ValidateCompact, ValidationError};

impl<T, S> BiHashMap<T, S> {
    /// Returns `Err` exactly if slots are vacant and none may be. Keys and indexes agree by proof, so no key is looked
    /// up. Does not allocate.
    #[doc(hidden)]
    pub fn validate(&self, compact: ValidateCompact) -> Result<(), ValidationError>
        ensures { IsErr result ↔ IsNotCompact compact self.now.vacant }
    {
        self.validate_structural(compact)
    }

    /// As `validate`, which asks for no keyed map either.
    #[doc(hidden)]
    pub fn validate_structural(&self, compact: ValidateCompact) -> Result<(), ValidationError>
        ensures { IsErr result ↔ IsNotCompact compact self.now.vacant }
    {
        compact.internal_check(self.vacant())
    }
}
