//! Items whose clone can be refused.
ghost use Rattle.std.specs.Prelude.{◌≡◌, ℕ, IfOk};

use iddqd::{IdHashItem, IdOrdItem};
use std::alloc::{AllocError, Global};
use std::marker::Model;

/// A name, and a value in memory of its own, so that a clone can be refused. Contracts see the two.
#[derive(Drop)]
pub struct Kept {
    /// The key.
    pub name: u32,
    /// What a clone asks memory for.
    pub value: Box<u32>,
}

impl Model for Kept {
    ghost Value = { ℕ × ℕ };

    ghost view = { λ kept. (kept.name, kept.value.value) };
}

impl Clone for Kept {
    ghost is_clone = { λ kept clone. clone ≡ kept };

    fn clone(&self) -> Result<Kept, AllocError> {
        let value = self.value.clone()?;
        Ok(Kept {
            name: self.name,
            value,
        })
    }
}

impl IdOrdItem for Kept {
    type Key = u32;

    ghost key = { λ kept. kept.0 };

    fn key(&self) -> &u32 {
        &self.name
    }
}

impl IdHashItem for Kept {
    type Key = u32;

    ghost key = { λ kept. kept.0 };

    fn key(&self) -> &u32 {
        &self.name
    }
}

/// An item of the name 7, or `Err` where memory for its value was refused.
pub fn make_kept(alloc: Global, value: u32) -> Result<Kept, AllocError>
    ensures { IfOk result (λ kept. kept ≡ (7, value)) }
{
    Ok(Kept {
        name: 7,
        value: Box::new(alloc, value)?,
    })
}
