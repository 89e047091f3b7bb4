//! Calls of an ordered map alone, by positions and between bounds too.
use crate::prelude::*;
use crate::random::plain::{Answer, Draws, Plain, is_same};
use std::ops::{Bound, RangeBounds};

// The greatest count of comparisons among this many items: four, and two more for each binary digit of the count.
fn bound(count: usize) -> u32 {
    let digits = 64_u32.saturating_sub((count as u64).leading_zeros());
    digits.saturating_mul(2).saturating_add(4)
}

// How many names of the list are less.
fn rank(plain: &Plain, name: &Caseless) -> usize {
    let mut count: usize = 0;
    for item in plain.items.iter() {
        count = count.saturating_add(usize::from(item.name < *name));
    }
    count
}

// The item of the list that has this many less.
fn nth(plain: &Plain, index: usize) -> Option<Coarse> {
    let mut items = plain.items.iter();
    items.find(|item| rank(plain, &item.name) == index).copied()
}

// A position of the list, or one of the two past its end.
fn drawn_index(plain: &Plain, draws: &mut Draws) -> usize {
    let positions = plain.len().saturating_add(2);
    (draws.next() as usize).checked_rem(positions).unwrap_or(0)
}

fn drawn_bound<'a>(name: &'a Caseless, draws: &mut Draws) -> Bound<&'a Caseless> {
    match draws.below(5) {
        0..=1 => Bound::Included(name),
        2..=3 => Bound::Excluded(name),
        _ => Bound::Unbounded,
    }
}

/// A pair whose map is ordered.
#[derive(Drop)]
pub(crate) struct InOrder<'a> {
    pub(crate) map: &'a mut Ordered<Coarse>,
    pub(crate) plain: &'a mut Plain,
    pub(crate) draws: &'a mut Draws,
}

impl InOrder<'_> {
    pub(crate) fn pop(&mut self) -> bool {
        let is_first = self.draws.coin();
        let by_entry = self.draws.coin();
        let end = self.plain.end(is_first);
        if let Some(item) = end {
            let _ = self.plain.take(&item.name);
        }
        let gone = match (is_first, by_entry) {
            (true, false) => self.map.pop_first(),
            (false, false) => self.map.pop_last(),
            (true, true) => self.map.remove_first(),
            (false, true) => self.map.remove_last(),
        };
        is_same(gone, end)
    }

    pub(crate) fn insert_counted(&mut self) -> Answer {
        let item = self.draws.item();
        let most = bound(self.plain.len());
        let (answer, steps) = self.map.insert_counted(item);
        Ok(self.plain.inserts(item, answer)? && steps <= most)
    }

    pub(crate) fn remove_counted(&mut self) -> bool {
        let name = self.draws.name();
        let most = bound(self.plain.len());
        let (gone, steps) = self.map.remove_counted(&name);
        is_same(gone, self.plain.take(&name)) && steps <= most
    }

    pub(crate) fn show_or_insert(&mut self) -> Answer {
        let item = self.draws.item();
        let expected = self.plain.shown(item)?;
        let answer = if self.draws.coin() {
            self.map.show_or_put(item)
        } else {
            self.map.show_or_put_made(item)
        };
        Ok(is_same(answer.unwrap_or(None), expected))
    }

    pub(crate) fn show_inserted(&mut self) -> Answer {
        let item = self.draws.item();
        let expected = match self.plain.find(&item.name) {
            None => self.plain.shown(item)?,
            Some(_) => None,
        };
        Ok(is_same(self.map.put_shown(item).unwrap_or(None), expected))
    }

    pub(crate) fn position(&mut self) -> bool {
        let name = self.draws.name();
        let index = drawn_index(self.plain, self.draws);
        let less = rank(self.plain, &name);
        let expected = self.plain.find(&name).map(|_| less).ok_or(less);
        let (place, steps) = self.map.index_of(&name);
        place == expected
            && steps <= bound(self.plain.len())
            && is_same(self.map.get_index(index).copied(), nth(self.plain, index))
    }

    pub(crate) fn remove_position(&mut self) -> bool {
        let index = drawn_index(self.plain, self.draws);
        let item = nth(self.plain, index);
        if let Some(item) = item {
            let _ = self.plain.take(&item.name);
        }
        let gone = if self.draws.coin() {
            self.map.remove_index(index)
        } else {
            self.map.take_index(index)
        };
        is_same(gone, item)
    }

    /// Removes the items between two bounds, or looks at them. If a bound is open, `lower_bound` or `upper_bound` shows the
    /// item at the other end.
    pub(crate) fn range(&mut self, alloc: Global, removes: bool) -> Answer {
        let (one, other) = (self.draws.name(), self.draws.name());
        let low = drawn_bound(&one, self.draws);
        let high = drawn_bound(&other, self.draws);
        let mut items = self.map.listed(alloc)?;
        items.retain(|item| (low, high).contains(&item.name));
        if removes {
            for item in items.iter() {
                let _ = self.plain.take(&item.name);
            }
            return Ok(self.map.remove_range((low, high)) == items.len());
        }
        let (first, last) = (items.first().copied(), items.last().copied());
        Ok(
            self.map.has_between((low, high), items.as_slice())
                && (low != Bound::Unbounded || is_same(self.map.upper_bound(high).copied(), last))
                && (high != Bound::Unbounded || is_same(self.map.lower_bound(low).copied(), first)),
        )
    }
}

/// Whether an ordered map has the ends of the list.
pub(crate) fn has_ends(map: &Either<Coarse>, plain: &Plain) -> bool {
    match map {
        Either::Ordered(map) => {
            let map = map.map();
            is_same(map.first().copied(), plain.end(true))
                && is_same(map.last().copied(), plain.end(false))
        }
        Either::Hashed(_) => false,
    }
}

pub(crate) fn ascends(walked: &[Coarse]) -> bool {
    walked.is_sorted_by(|one, next| one.name < next.name)
}
