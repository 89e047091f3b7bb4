//! Visitors of the rows.
use crate::items::Numbered;
use crate::maps::{Hashed, Ordered};
use iddqd::Visit;

/// Leaves each item as it is, and keeps all or none.
#[derive(Clone, Copy, PartialEq, Eq)]
pub struct Untouched {
    pub keeps: bool,
}

impl<T> Visit<T> for Untouched {
    ghost visits = { λ visitor item. (visitor, item, visitor.keeps) };

    fn visit(&mut self, _item: &mut T) -> bool {
        self.keeps
    }
}

/// What is done with a numbered item: one more for its value, and odd numbers stay; or 0 for its value, and none stays.
#[derive(Clone, Copy, PartialEq, Eq)]
pub enum Change {
    /// With the digits of the numbers that were seen.
    KeepOdd(u32),
    DenyAll,
}

impl Visit<Numbered> for Change {
    ghost use Rattle.test_support.specs.Changed.{changed};

    ghost visits = { changed };

    fn visit(&mut self, item: &mut Numbered) -> bool {
        match self {
            Change::KeepOdd(seen) => {
                *seen = seen.wrapping_mul(10).wrapping_add(item.number);
                item.value = item.value.wrapping_add(1);
                item.number % 2 == 1
            }
            Change::DenyAll => {
                item.value = 0;
                false
            }
        }
    }
}

/// Calls that visit. `visit` returns what the visitor returned of the item of the number, which `get_mut` lends.
impl Ordered<Numbered> {
    #[tactic(auto, using(iddqd::proofs::GuardLemmas::same_key_kept))]
    pub fn visit(&mut self, number: u32, visitor: &mut Change) -> Option<bool> {
        let mut found = self.map.get_mut(&number)?;
        let is_kept = visitor.visit(&mut found);
        found.finish();
        Some(is_kept)
    }
}

/// The same of a hash map.
impl Hashed<Numbered> {
    #[tactic(auto, using(iddqd::proofs::GuardLemmas::hash_key_kept))]
    pub fn visit(&mut self, number: u32, visitor: &mut Change) -> Option<bool> {
        let mut found = self.map.get_mut(&number)?;
        let is_kept = visitor.visit(&mut found);
        found.finish();
        Some(is_kept)
    }
}
