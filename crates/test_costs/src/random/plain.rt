//! A plain list of items that is searched, and the random numbers that calls are drawn from, the same at each run.
use crate::prelude::*;

/// Whether a call returns what the list does, or that the list has no memory.
pub(crate) type Answer = Result<bool, AllocError>;

/// A map, the list that it is held against, and what its calls are drawn from.
#[derive(Drop)]
pub(crate) struct Pair<S: BuildHasher = DefaultHashBuilder> {
    pub(crate) map: Either<Coarse, S>,
    pub(crate) plain: Plain,
    pub(crate) draws: Draws,
}

/// A generator by shifts (Marsaglia's of 64 bits).
#[derive(Clone, Copy)]
pub(crate) struct Draws {
    state: u64,
    letters: u32,
}

impl Draws {
    /// From the seed, for names of this many different letters.
    pub(crate) fn new(seed: u64, letters: u32) -> Draws {
        Draws {
            state: seed.wrapping_mul(2).wrapping_add(1),
            letters,
        }
    }

    pub(crate) fn next(&mut self) -> u32 {
        self.state ^= self.state.wrapping_shl(13);
        self.state ^= self.state.wrapping_shr(7);
        self.state ^= self.state.wrapping_shl(17);
        (self.state.wrapping_shr(16) % 4_294_967_296) as u32
    }

    /// A number below the bound, or 0 where that is 0.
    pub(crate) fn below(&mut self, bound: u32) -> u32 {
        self.next().checked_rem(bound).unwrap_or(0)
    }

    pub(crate) fn coin(&mut self) -> bool {
        self.below(2) == 0
    }

    /// A name, each letter in either case.
    pub(crate) fn name(&mut self) -> Caseless {
        Caseless([self.letter(), self.letter(), self.letter()])
    }

    pub(crate) fn item(&mut self) -> Coarse {
        Coarse {
            name: self.name(),
            value: self.below(1000),
        }
    }

    fn letter(&mut self) -> u8 {
        let bound = self.letters.min(26);
        let first: u32 = if self.coin() { 97 } else { 65 };
        first.saturating_add(self.below(bound)).min(122) as u8
    }
}

#[derive(Drop)]
pub(crate) struct Plain {
    /// In no order.
    pub(crate) items: Vec<Coarse>,
    pub(crate) vacant: u32,
    pub(crate) limit: u32,
    /// How often memory was refused to the map.
    pub(crate) refusals: u32,
}

/// Whether both are the same item, by its spelling too, or neither is one.
pub(crate) fn is_same(one: Option<Coarse>, other: Option<Coarse>) -> bool {
    one.as_ref().map(spelled) == other.as_ref().map(spelled)
}

impl Plain {
    pub(crate) fn new(alloc: Global, limit: u32) -> Plain {
        Plain {
            items: Vec::new(alloc),
            vacant: 0,
            limit,
            refusals: 0,
        }
    }

    pub(crate) fn len(&self) -> usize {
        self.items.len()
    }

    pub(crate) fn has_room(&self, additional: usize) -> bool {
        self.len().saturating_add(additional) <= self.limit as usize
    }

    pub(crate) fn find(&self, name: &Caseless) -> Option<Coarse> {
        self.items.iter().find(|item| item.name == *name).copied()
    }

    /// The item of the least name, or of the greatest.
    pub(crate) fn end(&self, is_first: bool) -> Option<Coarse> {
        let mut end: Option<Coarse> = None;
        for item in self.items.iter() {
            match end {
                Some(best) if (best.name < item.name) == is_first => {}
                _ => end = Some(*item),
            }
        }
        end
    }

    pub(crate) fn take(&mut self, name: &Caseless) -> Option<Coarse> {
        let found = self.find(name)?;
        self.items.retain(|item| item.name != *name);
        self.vacant = self.vacant.saturating_add(1);
        Some(found)
    }

    /// Inserts an item whose name no other has.
    pub(crate) fn put(&mut self, item: Coarse) -> Result<(), AllocError> {
        self.items.push(item)?;
        self.vacant = self.vacant.saturating_sub(1);
        Ok(())
    }

    /// Puts the item in the place of the one of its name.
    pub(crate) fn replace(&mut self, new: Coarse) {
        for item in self.items.iter_mut() {
            if item.name == new.name {
                *item = new;
            }
        }
    }

    pub(crate) fn write(&mut self, name: &Caseless, value: u32) {
        if let Some(item) = self.find(name) {
            self.replace(Coarse { value, ..item });
        }
    }

    /// Inserts the item, or puts it in the place of the one of its name.
    pub(crate) fn overwrite(&mut self, item: Coarse) -> Result<(), AllocError> {
        if self.find(&item.name).is_none() {
            return self.put(item);
        }
        self.replace(item);
        Ok(())
    }

    /// Whether an insertion of the item has this result. The list makes it too.
    pub(crate) fn inserts(&mut self, item: Coarse, answer: Inserted<Coarse>) -> Answer {
        match (self.find(&item.name), answer) {
            (None, Inserted::Done) if self.has_room(1) => {
                self.put(item)?;
                Ok(true)
            }
            (None, Inserted::Refused(back, error)) => {
                Ok(is_same(Some(back), Some(item)) && self.refuses(error))
            }
            (Some(old), Inserted::Duplicate(new, existing)) => {
                Ok(is_same(Some(new), Some(item)) && is_same(existing, Some(old)))
            }
            _ => Ok(false),
        }
    }

    /// Whether room for a new item may be refused so. A refusal of memory is counted.
    pub(crate) fn refuses(&mut self, error: TryReserveError) -> bool {
        if error.is_capacity_overflow() {
            return !self.has_room(1);
        }
        self.refusals = self.refusals.saturating_add(1);
        true
    }

    /// The item that `or_insert` and its like show: the one there, or the new one, where there is room.
    pub(crate) fn shown(&mut self, item: Coarse) -> Result<Option<Coarse>, AllocError> {
        let old = self.find(&item.name);
        if old.is_none() && self.has_room(1) {
            self.put(item)?;
            return Ok(Some(item));
        }
        Ok(old)
    }
}
