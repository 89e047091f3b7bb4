//! Iterators that lie.
use crate::either::Either;
use crate::items::Named;
use crate::new_items::named;

/// Gives a vector's items, from the last one on. It announces that this many are to come at least, and at most far more
/// than there are.
#[derive(Drop)]
pub struct Announced<T> {
    items: Vec<T>,
    least: usize,
}

impl<T> Announced<T> {
    /// Before the first item.
    pub fn new(items: Vec<T>, least: usize) -> Announced<T> {
        Announced { items, least }
    }
}

impl<T: Drop> Iterator for Announced<T> {
    type Item = T;

    ghost use Rattle.std.specs.Prelude.{◌+◌, length};
    ghost use Rattle.std.specs.Iterator.{at_most};

    ghost remaining = { λ announced. at_most (announced.least + length announced.items.items) };

    fn next(&mut self) -> Option<T> {
        self.items.pop()
    }

    fn size_hint(&self) -> (usize, Option<usize>) {
        match self.least.checked_add(self.items.len()) {
            Some(most) => (self.least, Some(most.max(1 << 40))),
            None => (self.least, None),
        }
    }
}

/// Gives the items of a list, and announces that this many are to come at least.
#[derive(Drop)]
pub struct Hinted<'a, T> {
    rest: &'a [T],
    hint: usize,
}

impl<'a, T> Hinted<'a, T> {
    /// Before the first item.
    pub fn new(items: &'a [T], hint: usize) -> Hinted<'a, T> {
        Hinted { rest: items, hint }
    }
}

impl<T: Copy> Iterator for Hinted<'_, T> {
    type Item = T;

    ghost use Rattle.std.specs.Prelude.{◌+◌, length};
    ghost use Rattle.std.specs.Iterator.{at_most};

    ghost remaining = { λ hinted. at_most (hinted.hint + length hinted.rest.now) };

    fn next(&mut self) -> Option<T> {
        let (first, rest) = self.rest.split_first()?;
        self.rest = rest;
        Some(*first)
    }

    fn size_hint(&self) -> (usize, Option<usize>) {
        (self.hint, None)
    }
}

/// Whether the map refuses an item that is announced as more than there can be, before it asks for it.
pub fn is_not_taken_in(map: &mut Either<Named>) -> bool {
    let item = [named(*b"lie", 0)];
    let mut liar = Hinted::new(&item, usize::MAX);
    let refused = match map.extend(&mut liar) {
        Ok(()) => false,
        Err(stopped) => stopped.item.is_none() && stopped.error.is_capacity_overflow(),
    };
    refused && liar.next().is_some()
}
