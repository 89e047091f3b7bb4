//! The items that rows make most.
use crate::items::{Named, Numbered};

/// An item of the name.
pub fn named(name: [u8; 3], value: u32) -> Named {
    Named { name, value }
}

/// An item of the number.
pub fn numbered(number: u32, value: u32) -> Numbered {
    Numbered { number, value }
}
