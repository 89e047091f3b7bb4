//! What `validate` is asked and returns.
ghost use Rattle.std.specs.Prelude.{◌↔◌, IsErr};
ghost use Rattle.iddqd_store.specs.Validation.{IsNotCompact};

/// Whether slots may be vacant.
#[derive(Clone, Copy, Debug, PartialEq, Eq)]
pub enum ValidateCompact {
    /// No slot may be vacant.
    Compact,
    /// Slots may be vacant.
    NonCompact,
}

/// A slot is vacant, and none may be. Other faults of a map's structure cannot occur.
#[derive(Clone, Copy, Debug, PartialEq, Eq, thiserror::Error)]
#[error("there are vacant slots")]
pub struct ValidationError {
    _vacant: (),
}

impl ValidationError {
    /// The error of a map that has vacant slots. Public, for other maps over the store.
    #[doc(hidden)]
    pub fn internal_not_compact() -> Self {
        ValidationError { _vacant: () }
    }
}

impl ValidateCompact {
    /// Returns an error if there are vacant slots and none may be. Both maps' `validate` share it.
    #[doc(hidden)]
    pub fn internal_check(self, vacant: u32) -> Result<(), ValidationError>
        ensures { IsErr result ↔ IsNotCompact self vacant }
    {
        match self {
            ValidateCompact::Compact if vacant > 0 => Err(ValidationError::internal_not_compact()),
            _ => Ok(()),
        }
    }
}
