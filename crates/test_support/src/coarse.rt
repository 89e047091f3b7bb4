//! What rows and random lists ask of a map of either kind whose keys are equal in any case. They ask by its numbers,
//! guards and entries, and write whole an item of an equal key, which is spelled in another way.
use crate::caseless::{Caseless, Coarse};
use crate::hashers::ZeroHasher;
use crate::maps::{Hashed, Ordered};
use iddqd::errors::{Refused, TryReserveError};
use iddqd::{Visit, id_hash_map, id_ord_map};
use std::alloc::{AllocError, Global};
use std::collections::hash_map::RandomState;
use std::hash::{BuildHasher, BuildHasherDefault};
use test_coarse::writes::{hash_put, hash_put_in_walk, put, put_in_walk};

/// Doubles the value, and returns false.
#[derive(Clone, Copy)]
pub struct DoublesAndDenies;

impl Visit<Coarse> for DoublesAndDenies {
    ghost use Rattle.std.specs.Prelude.{◌*◌, ◌%◌, ◌^◌, false};

    ghost visits = { λ visitor item. (visitor, record item { value = item.value * 2 % 2 ^ 32 }, false) };

    fn visit(&mut self, item: &mut Coarse) -> bool {
        item.value = item.value.wrapping_mul(2);
        false
    }
}

/// Puts its item in the place of each whose key is equal, and keeps all.
#[derive(Clone, Copy)]
pub struct Respells(pub Coarse);

impl Visit<Coarse> for Respells {
    ghost use Rattle.std.specs.Prelude.{true};
    ghost use Rattle.test_support.specs.Respelled.{respelled};

    ghost visits = { λ visitor item. (visitor, respelled visitor.0 item, true) };

    fn visit(&mut self, item: &mut Coarse) -> bool {
        if item.name == self.0.name {
            *item = self.0;
        }
        true
    }
}

/// A way to write an item whole: by the guard that `get_mut` lends, by `and_modify` of the entry, or by `retain_mut`. The
/// last is a walk that lends items for writing.
#[derive(Clone, Copy)]
pub enum Way {
    Guard,
    Entry,
    Visitor,
    Walk,
}

/// The item that an insertion by an entry shows, `None` if the entry is not of the kind that it needs, or the refused
/// one.
pub type Put = Result<Option<Coarse>, Refused<Coarse>>;

// What `respell` does, by the functions that write by a guard and in a walk.
macro_rules! respelled {
    ($map:ident, $module:ident, $put:ident, $put_in_walk:ident, $asked:ident, $item:ident, $way:ident) => {
        match $way {
            Way::Guard => {
                if !matches!($map.map.get($asked), Some(found) if found.name == $item.name) {
                    return false;
                }
                $put(&mut $map.map, $asked, $item);
                true
            }
            Way::Entry => {
                let entry = $map.map.entry($asked).and_modify(&mut Respells($item));
                matches!(entry, $module::Entry::Occupied(_))
            }
            Way::Visitor => {
                $map.map.retain_mut(&mut Respells($item));
                true
            }
            Way::Walk => $put_in_walk(&mut $map.map, $item),
        }
    };
}

/// What lends returns a copy. If the entry is not of the kind needed, or if memory was refused, a call that returns no
/// `Put` returns `None` or false. A call without a comment is the map's of that name.
impl Ordered<Coarse> {
    /// Writes by a guard that is lent once more. It returns the old item, what the guard reads once that loan is
    /// over, and what it shows once it is spent.
    #[tactic(auto, using(iddqd::proofs::GuardLemmas::same_key_kept))]
    pub fn write_by_reborrow(&mut self, name: &Caseless, value: u32) -> Option<[Coarse; 3]> {
        let mut outer = self.map.get_mut(name)?;
        let old = *outer;
        let inner = outer.reborrow();
        inner.value = value;
        let read = *outer;
        Some([old, read, *outer.into_ref()])
    }

    /// Reads and writes by the entry of a map that is dropped then: the old item, and what the entry shows.
    pub fn write_by_entry(self, name: &Caseless, value: u32) -> Option<(Coarse, Coarse)> {
        let mut map = self.map;
        match map.entry(name) {
            id_ord_map::Entry::Occupied(mut entry) => {
                let old = *entry.get();
                entry.get_mut().value = value;
                Some((old, *entry.into_ref()))
            }
            id_ord_map::Entry::Vacant(_) => None,
        }
    }

    /// `remove` of the entry.
    pub fn remove_by_entry(&mut self, name: &Caseless) -> Option<Coarse> {
        match self.map.entry(name) {
            id_ord_map::Entry::Occupied(entry) => Some(entry.remove()),
            id_ord_map::Entry::Vacant(_) => None,
        }
    }

    /// `insert` of a vacant entry, of an item whose key no other has.
    pub fn put_vacant(&mut self, asked: &Caseless, item: Coarse) -> Put {
        if self.map.contains_key(&item.name) {
            return Ok(None);
        }
        let id_ord_map::Entry::Vacant(entry) = self.map.entry(asked) else {
            return Ok(None);
        };
        Ok(Some(*entry.insert(item)?.into_ref()))
    }

    /// `insert_entry` of a vacant entry, and `remove` of the entry that it returns.
    pub fn put_and_remove(&mut self, item: Coarse) -> Put {
        let id_ord_map::Entry::Vacant(entry) = self.map.entry(&item.name) else {
            return Ok(None);
        };
        Ok(Some(entry.insert_entry(item)?.remove()))
    }

    /// `insert` of an occupied entry: the old item.
    pub fn insert_occupied(&mut self, item: Coarse) -> Option<Coarse> {
        match self.map.entry(&item.name) {
            id_ord_map::Entry::Occupied(mut entry) => Some(entry.insert(item)),
            id_ord_map::Entry::Vacant(_) => None,
        }
    }

    /// Writes a value through the guard of an occupied entry.
    #[tactic(auto, using(iddqd::proofs::GuardLemmas::same_key_kept))]
    pub fn write(&mut self, name: &Caseless, value: u32) -> bool {
        let id_ord_map::Entry::Occupied(entry) = self.map.entry(name) else {
            return false;
        };
        let mut lent = entry.into_mut();
        lent.value = value;
        lent.finish();
        true
    }

    /// `and_modify`, doubling and answering false, and then `or_insert`.
    pub fn double_or_put(&mut self, item: Coarse) -> Put {
        let entry = self.map.entry(&item.name).and_modify(&mut DoublesAndDenies);
        Ok(Some(*entry.or_insert(item)?.into_ref()))
    }

    /// `or_insert`, written through the guard that is lent.
    #[tactic(auto, using(iddqd::proofs::GuardLemmas::same_key_kept))]
    pub fn insert_and_write(&mut self, item: Coarse, value: u32) -> bool {
        let Ok(mut lent) = self.map.entry(&item.name).or_insert(item) else {
            return false;
        };
        lent.value = value;
        lent.finish();
        true
    }

    /// `or_insert_with`, which counts how often it is asked for the item.
    pub fn find_or_put(&mut self, item: Coarse, asked: &mut u32) -> Put {
        let make = || {
            *asked = asked.saturating_add(1);
            item
        };
        let entry = self.map.entry(&item.name);
        Ok(Some(*entry.or_insert_with(make)?.into_ref()))
    }

    /// Writes the item whole. False if none of the key is there; by a visitor always true.
    #[tactic(auto, using(crate::proofs::RespelledLemmas::respelled_keeps_key))]
    pub fn respell(&mut self, asked: &Caseless, item: Coarse, way: Way) -> bool {
        respelled!(self, id_ord_map, put, put_in_walk, asked, item, way)
    }
}

/// The same of a hash map.
impl<S: BuildHasher + Drop> Hashed<Coarse, S> {
    #[tactic(auto, using(iddqd::proofs::GuardLemmas::same_key_kept))]
    pub fn write_by_reborrow(&mut self, name: &Caseless, value: u32) -> Option<[Coarse; 3]> {
        let mut outer = self.map.get_mut(name)?;
        let old = *outer;
        let inner = outer.reborrow();
        inner.value = value;
        let read = *outer;
        Some([old, read, *outer.into_ref()])
    }

    pub fn write_by_entry(self, name: &Caseless, value: u32) -> Option<(Coarse, Coarse)> {
        let mut map = self.map;
        match map.entry(name) {
            id_hash_map::Entry::Occupied(mut entry) => {
                let old = *entry.get();
                entry.get_mut().value = value;
                Some((old, *entry.into_ref()))
            }
            id_hash_map::Entry::Vacant(_) => None,
        }
    }

    pub fn remove_by_entry(&mut self, name: &Caseless) -> Option<Coarse> {
        match self.map.entry(name) {
            id_hash_map::Entry::Occupied(entry) => Some(entry.remove()),
            id_hash_map::Entry::Vacant(_) => None,
        }
    }

    pub fn put_vacant(&mut self, asked: &Caseless, item: Coarse) -> Put {
        if self.map.contains_key(&item.name) {
            return Ok(None);
        }
        let id_hash_map::Entry::Vacant(entry) = self.map.entry(asked) else {
            return Ok(None);
        };
        Ok(Some(*entry.insert(item)?.into_ref()))
    }

    pub fn put_and_remove(&mut self, item: Coarse) -> Put {
        let id_hash_map::Entry::Vacant(entry) = self.map.entry(&item.name) else {
            return Ok(None);
        };
        Ok(Some(entry.insert_entry(item)?.remove()))
    }

    pub fn insert_occupied(&mut self, item: Coarse) -> Option<Coarse> {
        match self.map.entry(&item.name) {
            id_hash_map::Entry::Occupied(mut entry) => Some(entry.insert(item)),
            id_hash_map::Entry::Vacant(_) => None,
        }
    }

    #[tactic(auto, using(iddqd::proofs::GuardLemmas::same_key_kept))]
    pub fn write(&mut self, name: &Caseless, value: u32) -> bool {
        let id_hash_map::Entry::Occupied(entry) = self.map.entry(name) else {
            return false;
        };
        let mut lent = entry.into_mut();
        lent.value = value;
        lent.finish();
        true
    }

    pub fn double_or_put(&mut self, item: Coarse) -> Put {
        let entry = self.map.entry(&item.name).and_modify(&mut DoublesAndDenies);
        Ok(Some(*entry.or_insert(item)?.into_ref()))
    }

    #[tactic(auto, using(iddqd::proofs::GuardLemmas::same_key_kept))]
    pub fn insert_and_write(&mut self, item: Coarse, value: u32) -> bool {
        let Ok(mut lent) = self.map.entry(&item.name).or_insert(item) else {
            return false;
        };
        lent.value = value;
        lent.finish();
        true
    }

    pub fn find_or_put(&mut self, item: Coarse, asked: &mut u32) -> Put {
        let make = || {
            *asked = asked.saturating_add(1);
            item
        };
        let entry = self.map.entry(&item.name);
        Ok(Some(*entry.or_insert_with(make)?.into_ref()))
    }

    #[tactic(auto, using(crate::proofs::RespelledLemmas::respelled_keeps_key))]
    pub fn respell(&mut self, asked: &Caseless, item: Coarse, way: Way) -> bool {
        respelled!(
            self,
            id_hash_map,
            hash_put,
            hash_put_in_walk,
            asked,
            item,
            way
        )
    }
}

/// A map of either kind that is copied.
pub trait Copied: Sized {
    /// `clone`.
    fn copied(&self) -> Result<Self, TryReserveError>;
}

impl Copied for Ordered<Coarse> {
    fn copied(&self) -> Result<Self, TryReserveError> {
        Ok(Self::new(self.map.clone()?))
    }
}

impl Copied for Hashed<Coarse> {
    fn copied(&self) -> Result<Self, TryReserveError> {
        Ok(Self::new(self.map.clone()?))
    }
}

impl Copied for Hashed<Coarse, BuildHasherDefault<ZeroHasher>> {
    fn copied(&self) -> Result<Self, TryReserveError> {
        Ok(Self::new(self.map.clone()?))
    }
}

impl Copied for Hashed<Coarse, RandomState> {
    fn copied(&self) -> Result<Self, TryReserveError> {
        Ok(Self::new(self.map.clone()?))
    }
}
