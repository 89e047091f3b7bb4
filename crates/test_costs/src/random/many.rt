//! Calls on many items, and copies of a map, which a walk writes too: whether they return what the plain list does.
use crate::prelude::*;
use crate::random::calls::holds_the_same;
use crate::random::plain::{Answer, Draws, Pair, Plain, is_same};

// What is added of many, or that the list has no memory.
type Put = Result<Added<Coarse>, AllocError>;

// Some items, of which some have equal names.
fn drawn(alloc: Global, draws: &mut Draws) -> Result<Vec<Coarse>, AllocError> {
    let count = draws.below(12);
    let mut items = Vec::with_capacity(alloc, count as usize)?;
    for _ in 0..count {
        items.push(draws.item())?;
    }
    Ok(items)
}

// Puts the items into the list, each in the place of the one of its name, up to the first that finds it full. If they
// are to be unique, the first whose name is there ends it too.
fn put_all(plain: &mut Plain, items: &[Coarse], is_unique: bool) -> Put {
    for item in items {
        let there = plain.find(&item.name);
        if is_unique && there.is_some() {
            return Ok(Added::Conflict(*item, there));
        }
        if there.is_none() && !plain.has_room(1) {
            return Ok(full(Some(*item)));
        }
        plain.overwrite(*item)?;
    }
    Ok(Added::All)
}

fn full(item: Option<Coarse>) -> Added<Coarse> {
    Added::Stopped(item, TryReserveError::capacity_overflow())
}

// By the spelling of names too.
fn is_told(added: &Added<Coarse>, expected: &Added<Coarse>) -> bool {
    match (added, expected) {
        (Added::All, Added::All) => true,
        (Added::Conflict(new, there), Added::Conflict(item, earlier)) => {
            is_same(Some(*new), Some(*item)) && is_same(*there, *earlier)
        }
        (Added::Stopped(item, error), Added::Stopped(refused, kind)) => {
            is_same(*item, *refused) && error == kind
        }
        _ => false,
    }
}

/// Makes a map of its own of many items: by `from_iter`, or by `from_iter_unique`.
pub(crate) fn collect<S>(kind: Kind, alloc: Global, draws: &mut Draws, is_unique: bool) -> Answer
where
    S: BuildHasher + Default + Drop,
{
    let items = drawn(alloc, draws)?;
    let mut plain = Plain::new(alloc, MAX_ITEMS);
    let expected = put_all(&mut plain, items.as_slice(), is_unique)?;
    let made: Result<Either<Coarse, S>, _> = if is_unique {
        Either::collected_unique_by(kind, alloc, items)
    } else {
        Either::collected_by(kind, alloc, items).map_err(FromIterError::Refused)
    };
    match made {
        Ok(map) => {
            let walked = map.listed(alloc)?;
            let is_held = holds_the_same(&map, &plain, walked.as_slice());
            Ok(is_held && is_told(&Added::All, &expected))
        }
        Err(FromIterError::Duplicate(both)) => {
            let earlier = both.duplicates();
            let told = Added::Conflict(*both.new_item(), earlier.get(0).copied());
            Ok(is_told(&told, &expected) && earlier.len() == 1)
        }
        Err(FromIterError::Refused(_)) => Ok(false),
    }
}

impl<S: BuildHasher + Drop> Pair<S> {
    /// `extend`, or `extend_unique`.
    pub(crate) fn extend(&mut self, alloc: Global, is_unique: bool) -> Answer {
        let items = drawn(alloc, &mut self.draws)?;
        // a map reserves room for as many as it takes for new
        let new = if self.plain.len() == 0 {
            items.len()
        } else {
            items.len().div_ceil(2)
        };
        let expected = if self.plain.has_room(new) {
            put_all(&mut self.plain, items.as_slice(), is_unique)?
        } else {
            full(None)
        };
        if is_unique {
            return Ok(is_told(&self.map.add_each(items), &expected));
        }
        let added = match self.map.extend(items) {
            Ok(()) => Added::All,
            Err(refused) => Added::Stopped(refused.item, refused.error),
        };
        Ok(is_told(&added, &expected))
    }
}

// The items of the map once `iter_mut` has raised this many of them, and how many it had left then.
fn raised<S: BuildHasher + Drop>(
    map: Either<Coarse, S>,
    alloc: Global,
    most: usize,
) -> Result<(Vec<Coarse>, usize), AllocError> {
    match map {
        Either::Ordered(map) => {
            let (map, left) = map.written(most, raise);
            Ok((map.into_iter().collect(alloc)?, left))
        }
        Either::Hashed(map) => {
            let (map, left) = map.written(most, raise);
            Ok((map.into_iter().collect(alloc)?, left))
        }
    }
}

fn raise(item: &mut Coarse) {
    item.value = item.value.wrapping_add(1);
}

impl<S: BuildHasher + Drop> Pair<S>
where
    Hashed<Coarse, S>: Copied,
{
    /// A clone holds the same, equals the map as long as it is not written, and lets its items out.
    pub(crate) fn copy(&mut self, alloc: Global) -> Answer {
        let Ok(mut copy) = self.map.copied() else {
            return Ok(false);
        };
        let is_equal = self.map.equals(&copy) && copy.equals(&self.map);
        let (name, value) = (self.draws.name(), self.draws.below(1000));
        let old = self.plain.find(&name);
        let _ = copy.write_by_reborrow(&name, value);
        let is_changed = matches!(old, Some(item) if item.value != value);
        let is_told = self.map.equals(&copy) != is_changed;
        if let Some(item) = old {
            let _ = copy.write_by_reborrow(&name, item.value);
        }
        let walked = copy.walked_out(alloc)?;
        Ok(is_equal && is_told && holds_the_same(&self.map, &self.plain, walked.as_slice()))
    }

    /// An entry of a clone reads the item there, and shows what it wrote.
    pub(crate) fn write_copy(&mut self) -> bool {
        let Ok(copy) = self.map.copied() else {
            return false;
        };
        let (name, value) = (self.draws.name(), self.draws.below(1000));
        let old = self.plain.find(&name);
        match (copy.write_by_entry(&name, value), old) {
            (Some((read, shown)), Some(item)) => {
                let written = Coarse { value, ..item };
                is_same(Some(read), old) && is_same(Some(shown), Some(written))
            }
            (None, None) => true,
            _ => false,
        }
    }

    /// A walk over a clone writes the first items alone.
    pub(crate) fn write_first(&mut self, alloc: Global) -> Answer {
        let Ok(copy) = self.map.copied() else {
            return Ok(false);
        };
        let most = self.draws.below(40) as usize;
        let mut expected = self.map.listed(alloc)?;
        for item in expected.iter_mut().take(most) {
            raise(item);
        }
        let (written, left) = raised(copy, alloc, most)?;
        let is_left = left == expected.len().saturating_sub(most);
        Ok(is_left && written.iter().map(spelled).eq(expected.iter().map(spelled)))
    }
}
