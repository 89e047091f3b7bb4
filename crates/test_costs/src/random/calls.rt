//! Calls of either map, one method a call: whether the map returns what the plain list does.
use crate::prelude::*;
use crate::random::plain::{Answer, Pair, Plain, is_same};

// A lookup, whose comparisons are counted too, among this many items at most.
fn is_found<S>(map: &Either<Coarse, S>, plain: &Plain, name: &Caseless) -> bool
where
    S: BuildHasher,
{
    let item = plain.find(name);
    let (counted, steps) = map.get_counted(name);
    is_same(map.get(name).copied(), item)
        && is_same(counted.copied(), item)
        && map.contains(name) == item.is_some()
        && steps as usize <= plain.len().saturating_add(4)
}

impl<S: BuildHasher + Drop> Pair<S> {
    pub(crate) fn insert(&mut self) -> Answer {
        let item = self.draws.item();
        self.plain.inserts(item, self.map.insert(item))
    }

    pub(crate) fn overwrite(&mut self) -> Answer {
        let item = self.draws.item();
        let old = self.plain.find(&item.name);
        match self.map.overwrite(item) {
            Ok(answer) => {
                let fits = old.is_some() || self.plain.has_room(1);
                self.plain.overwrite(item)?;
                Ok(fits && is_same(answer, old))
            }
            Err(refused) => {
                let is_back = old.is_none() && is_same(Some(refused.item), Some(item));
                Ok(is_back && self.plain.refuses(refused.error))
            }
        }
    }

    pub(crate) fn remove(&mut self) -> bool {
        let name = self.draws.name();
        is_same(self.map.remove(&name), self.plain.take(&name))
    }

    pub(crate) fn remove_by_entry(&mut self) -> bool {
        let name = self.draws.name();
        is_same(self.map.remove_by_entry(&name), self.plain.take(&name))
    }

    pub(crate) fn find(&mut self) -> bool {
        let name = self.draws.name();
        is_found(&self.map, &self.plain, &name)
    }

    pub(crate) fn write(&mut self) -> bool {
        let (name, value) = (self.draws.name(), self.draws.below(1000));
        let old = self.plain.find(&name);
        self.plain.write(&name, value);
        if self.draws.coin() {
            return self.map.write(&name, value) == old.is_some();
        }
        match self.map.write_by_reborrow(&name, value) {
            Some(three) => {
                let [before, read, shown] = three;
                let written = self.plain.find(&name);
                is_same(Some(before), old)
                    && is_same(Some(read), written)
                    && is_same(Some(shown), written)
            }
            None => old.is_none(),
        }
    }

    pub(crate) fn respell(&mut self) -> bool {
        let item = self.draws.item();
        let is_there = self.plain.find(&item.name).is_some();
        self.plain.replace(item);
        match self.draws.below(3) {
            0 => self.map.respell(&item.name, item, Way::Guard) == is_there,
            1 => self.map.respell(&item.name, item, Way::Entry) == is_there,
            _ => self.map.respell(&item.name, item, Way::Visitor),
        }
    }

    pub(crate) fn retain(&mut self) -> bool {
        let (part, rest) = (self.draws.below(8).saturating_add(3), self.draws.below(3));
        let keeps = |item: &Coarse| item.value.checked_rem(part) != Some(rest);
        let before = self.plain.len();
        self.plain.items.retain(keeps);
        let gone = before.saturating_sub(self.plain.len()).min(4_294_967_295);
        self.plain.vacant = self.plain.vacant.saturating_add(gone as u32);
        self.map.retain(keeps);
        true
    }

    pub(crate) fn insert_by_entry(&mut self) -> Answer {
        let item = self.draws.item();
        let fits = self.plain.find(&item.name).is_none() && self.plain.has_room(1);
        if self.draws.coin() {
            let inserted = self.map.put_vacant(&item.name, item).unwrap_or(None);
            if fits {
                self.plain.put(item)?;
            }
            return Ok(is_same(inserted, fits.then_some(item)));
        }
        let gone = self.map.put_and_remove(item).unwrap_or(None);
        if fits {
            // its slot is vacant then
            self.plain.vacant = self.plain.vacant.max(1);
        }
        Ok(is_same(gone, fits.then_some(item)))
    }

    pub(crate) fn replace_by_entry(&mut self) -> bool {
        let item = self.draws.item();
        let old = self.plain.find(&item.name);
        self.plain.replace(item);
        is_same(self.map.insert_occupied(item), old)
    }

    pub(crate) fn find_or_make(&mut self) -> Answer {
        let item = self.draws.item();
        let was_there = self.plain.find(&item.name).is_some();
        let expected = self.plain.shown(item)?;
        let mut asked = 0;
        let answer = self.map.find_or_put(item, &mut asked).unwrap_or(None);
        // refused, the closure was asked, and its item dropped
        Ok(is_same(answer, expected) && (asked == 0) == was_there)
    }

    pub(crate) fn double_or_insert(&mut self) -> Answer {
        let item = self.draws.item();
        if let Some(old) = self.plain.find(&item.name) {
            self.plain.write(&item.name, old.value.wrapping_mul(2));
        }
        let expected = self.plain.shown(item)?;
        Ok(is_same(self.map.double_or_put(item).unwrap_or(None), expected))
    }

    pub(crate) fn insert_and_write(&mut self) -> Answer {
        let (item, value) = (self.draws.item(), self.draws.below(1000));
        let is_in = self.plain.shown(item)?.is_some();
        self.plain.write(&item.name, value);
        Ok(self.map.insert_and_write(item, value) == is_in)
    }

    pub(crate) fn reserve(&mut self) -> bool {
        let additional = self.draws.below(40) as usize;
        let fits = self.plain.has_room(additional);
        let answer = if self.draws.coin() {
            self.map.reserve(additional)
        } else {
            self.map.try_reserve(additional)
        };
        match answer {
            Ok(()) => {
                fits && self.map.capacity() >= self.plain.len().saturating_add(additional)
                    && self.map.room() >= additional
            }
            Err(error) => !fits && error.is_capacity_overflow(),
        }
    }

    pub(crate) fn shrink(&mut self) -> bool {
        let before = self.map.capacity();
        self.plain.vacant = 0;
        if self.draws.coin() {
            return self.map.shrink_to_fit().is_ok() && self.map.capacity() <= before;
        }
        let min = self.draws.below(60) as usize;
        self.map.shrink_to(min).is_ok()
            && self.map.capacity() <= before
            && self.map.capacity() >= min.min(before)
    }

    pub(crate) fn clear(&mut self) -> bool {
        self.map.clear();
        self.plain.items.clear();
        self.plain.vacant = 0;
        self.map.len() == 0
    }
}

// Whether the map finds each item of the list.
pub(crate) fn are_found<S: BuildHasher>(map: &Either<Coarse, S>, plain: &Plain) -> bool {
    for item in plain.items.iter() {
        if map.get(&item.name).map(spelled) != Some(spelled(item)) {
            return false;
        }
    }
    true
}

// Whether the map holds just what the list does, by what it finds and by its walk, and tells the numbers of the list.
pub(crate) fn holds_the_same<S>(map: &Either<Coarse, S>, plain: &Plain, walked: &[Coarse]) -> bool
where
    S: BuildHasher + Drop,
{
    let count = plain.len();
    for item in walked {
        if !is_same(plain.find(&item.name), Some(*item)) {
            return false;
        }
    }
    are_found(map, plain)
        && walked.len() == count
        && map.len() == count
        && map.capacity() >= count
        && map.limit() == plain.limit
        && map.vacant() == plain.vacant
        && map.is_valid()
        && plain.refusals == 0
}
