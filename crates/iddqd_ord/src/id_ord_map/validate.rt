//! Checks of the structure.
ghost use Rattle.std.specs.Prelude.{◌↔◌, IsErr};
ghost use Rattle.iddqd_store.specs.Contents.{Ascends};
ghost use Rattle.iddqd_store.specs.Validation.{IsNotCompact};

use super::IdOrdMap;
use iddqd_store::{IdOrdItem, ValidateCompact, ValidationError};

impl<T: IdOrdItem> IdOrdMap<T> {
    /// Returns `Err` exactly if slots are vacant and none may be. That keys and index agree is proved. Does not
    /// allocate.
    #[doc(hidden)]
    pub fn validate(&self, compact: ValidateCompact) -> Result<(), ValidationError>
        requires keyed { Ascends T.key T.Key.cmp self.now.items }
        ensures { IsErr result ↔ IsNotCompact compact self.now.vacant }
    {
        self.validate_structural(compact)
    }
}

impl<T> IdOrdMap<T> {
    /// As `validate`, of a map that need not be keyed.
    #[doc(hidden)]
    pub fn validate_structural(&self, compact: ValidateCompact) -> Result<(), ValidationError>
        ensures { IsErr result ↔ IsNotCompact compact self.now.vacant }
    {
        compact.internal_check(self.vacant())
    }
}
