//! An item of a number, and a function that proves with no clause.
use iddqd::errors::InsertError;
use iddqd::{IdOrdItem, IdOrdMap};
use std::alloc::Global;

/// A part and how many there are.
#[derive(Drop)]
struct Part {
    number: u32,
    count: u32,
}

impl IdOrdItem for Part {
    type Key = u32;

    ghost key = { λ part. part.number };

    fn key(&self) -> &u32 {
        &self.number
    }
}

/// The count of the number, once the part is in.
fn counted(alloc: Global, part: Part, number: u32) -> Option<u32> {
    let mut parts = IdOrdMap::new(alloc);
    match parts.insert_unique(part) {
        Ok(()) => Some(parts.get(&number)?.count),
        Err(InsertError::Duplicate(_) | InsertError::Refused(_)) => None,
    }
}
