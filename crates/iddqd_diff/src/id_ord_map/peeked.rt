//! A walk that shows its next item before it gives it.
ghost use Rattle.std.specs.Prelude.{◌≡◌, ◌≤◌, ◌∷◌, [], drop, length, MatchOption};

use iddqd::id_ord_map::Iter;
use std::marker::Model;

/// The items of an ordered map that are to come. The next one is at hand.
#[derive(Drop)]
pub struct Peeked<'a, T> {
    next: Option<&'a T>,
    rest: Iter<'a, T>,
}

impl<'a, T> Model for Peeked<'a, T> {
    ghost use Rattle.std.specs.Prelude.{◌≡◌, ◌<◌, ◌^◌, List, [], IfNone, length};
    ghost use Rattle.iddqd_diff.specs.Walks.{with_next};

    ghost Value = { List T };

    ghost view = { λ p. with_next p.next p.rest };

    ghost invariant = { λ p. IfNone p.next (p.rest ≡ []) × (length (with_next p.next p.rest) < 2 ^ 32) };
}

impl<'a, T> Peeked<'a, T> {
    /// Takes the first item of the walk.
    pub fn over(mut rest: Iter<'a, T>) -> Self
        requires fits { length rest ≤ u32.MAX }
        ensures { result ≡ rest.entry }
    {
        let next = rest.next();
        Peeked { next, rest }
    }

    /// Returns the next item, and stays before it.
    pub fn peek(&self) -> Option<&'a T>
        ensures { MatchOption result (self.now ≡ [])
            (λ x. self.now ≡ x.now ∷ drop 1 self.now) }
    {
        self.next
    }

    /// Goes on to the item behind the next one.
    pub fn advance(&mut self)
        ensures { self.new ≡ drop 1 self.old }
    {
        self.next = self.rest.next();
    }

    /// Returns the number of items that are to come.
    pub fn len(&self) -> usize
        ensures len { result ≡ length self.now }
        ensures fits { result ≤ u32.MAX }
    {
        self.rest.len() + usize::from(self.next.is_some())
    }
}
