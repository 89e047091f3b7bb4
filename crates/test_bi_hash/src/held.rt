//! A map under test. Its calls are the map's, and say nothing of what they leave. A test shows that by what it finds, so
//! that its proof carries no contract of the map along.
ghost use Rattle.std.specs.Prelude.{◌≡◌, IsTrue};
ghost use Rattle.std.specs.Iterator.{IsFiniteIterable as IsFinite};
ghost use Rattle.iddqd_bi_hash.specs.Hashing.{hash_under};
ghost use Rattle.iddqd_bi_hash.specs.BiHashItems.{BiHashItems, IsKeyedByBoth};

pub(crate) use crate::hosts::Host;
use iddqd_bi_hash::{ExtendUniqueError, Few, InsertError, Refused, TryReserveError};
pub(crate) use iddqd_bi_hash::{
    BiHashItem, BiHashMap, DefaultHashBuilder, FromIterError, Keyed, ValidateCompact,
};
pub(crate) use std::alloc::Global;
use std::hash::BuildHasher;
use std::marker::{Model, PhantomData};
pub(crate) use std::process::Abort;
pub(crate) use test_support::bulk::Hinted;
pub(crate) use test_support::heap::{arm, has_leaked, is_met};

/// Ends the test as failed if the condition is false. The proof of a call takes a third of that of an `assert!` in its
/// place.
pub(crate) fn check(rt: &impl Abort, condition: bool)
    ensures { IsTrue condition }
{
    assert!(rt; condition);
}

pub(crate) fn host_of(number: u32, address: u64, load: u32) -> Host {
    Host {
        number,
        address,
        load,
    }
}

/// The host of this number under test.
pub(crate) fn host(number: u32) -> Host {
    host_of(number, u64::from(number).wrapping_add(100), number)
}

pub(crate) fn hosts_between(rt: &impl Abort, alloc: Global, first: u32, end: u32) -> Vec<Host> {
    let mut hosts = Vec::new(alloc);
    for number in first..end {
        check(rt, hosts.push(host(number)).is_ok());
    }
    hosts
}

/// Whether a call inserts new items alone, or in place of those that have their keys.
#[derive(Clone, Copy)]
pub(crate) enum Way {
    Unique,
    Overwrite,
}

#[derive(Clone, Copy)]
pub(crate) enum By {
    First,
    Second,
    Both,
}

/// The one or two hosts that have a key of another, in the order in which they are shown.
pub(crate) type Met = (Option<Host>, Option<Host>);

pub(crate) const NONE: Met = (None, None);

/// What stops the insertion of many hosts: the one that is returned, those in its way, and whether that is the limit.
pub(crate) type Stop = (Option<Host>, Met, bool);

/// Too many hosts are announced.
pub(crate) const TOO_MANY: Option<Stop> = Some((None, NONE, true));

/// A call on a map of hosts and what it has to return, or what the map has to hold.
#[derive(Clone, Copy)]
pub(crate) enum Step<'a> {
    /// An insertion, and the hosts that it meets.
    Insert(Way, Host, Met),
    /// An insertion that the limit refuses, and that returns the host.
    Refuse(Way, Host),
    /// An insertion of many, of which this many are announced, and what stops it.
    Extend(Way, &'a [Host], usize, Option<Stop>),
    Get(By, u32, u64, Option<Host>),
    Contains(By, u32, u64, bool),
    Remove(By, u32, u64, Option<Host>),
    /// Writes this load by a guard, and whether one is lent.
    Load(By, u32, u64, u32, bool),
    /// Adds one to the loads of four hosts, and how many are lent.
    Raise(u32),
    /// The map has these and no other.
    Holds(&'a [Host]),
}

pub(crate) fn met(few: &Few<Host>) -> Met {
    (few.get(0).copied(), few.get(1).copied())
}

pub(crate) fn shown(few: &Few<&Host>) -> Met {
    (few.get(0).copied().copied(), few.get(1).copied().copied())
}

/// An item whose load can be written, if it has one.
pub(crate) trait Load: BiHashItem {
    fn set_load(&mut self, load: u32)
        ensures first { Self.key1 self.new ≡ Self.key1 self.old }
        ensures second { Self.key2 self.new ≡ Self.key2 self.old };
}

impl Load for Host {
    fn set_load(&mut self, load: u32) {
        self.load = load;
    }
}

/// A map that is keyed. It names the keys' types for the borrow checker, which else does not cover keys that hold
/// references.
#[derive(Drop)]
pub(crate) struct Held<T: BiHashItem, S: BuildHasher = DefaultHashBuilder> {
    pub(crate) map: BiHashMap<T, S>,
    keys: PhantomData<(T::K1, T::K2)>,
}

impl<T: BiHashItem, S: BuildHasher> Model for Held<T, S> {
    ghost Value = { BiHashItems S T };

    ghost view = { λ held. held.map };

    ghost invariant = { λ held. IsKeyedByBoth T.key1 T.key2 T.K1.eq T.K2.eq T.K1.hash_input T.K2.hash_input (hash_under S.BuildHasher S.Hasher.Hasher) held.map };
}

pub(crate) type Hosts = Held<Host>;

pub(crate) type Made<T> = Result<Held<T>, FromIterError<T>>;

impl<T: BiHashItem + Drop> Held<T> {
    pub(crate) fn new(alloc: Global) -> Held<T> {
        Held::over(BiHashMap::new(alloc))
    }

    /// `from_iter` or `from_iter_unique` of the items, of which this many are announced.
    pub(crate) fn collected(alloc: Global, way: Way, items: &[T], hint: usize) -> Made<T>
    where
        T: Copy,
    {
        let coming = Hinted::new(items, hint);
        match way {
            Way::Overwrite => match BiHashMap::from_iter(alloc, coming) {
                Ok(map) => Ok(Held::over(map)),
                Err(error) => Err(FromIterError::Refused(error)),
            },
            Way::Unique => Ok(Held::over(BiHashMap::from_iter_unique(alloc, coming)?)),
        }
    }
}

// Writes the load by the guard, and returns whether there is one.
macro_rules! write_load {
    ($lent:expr, $load:expr) => {
        match $lent {
            Some(mut item) => {
                item.set_load($load);
                item.finish();
                true
            }
            None => false,
        }
    };
}

impl<T: BiHashItem + Drop, S: BuildHasher> Held<T, S> {
    pub(crate) fn over(map: BiHashMap<T, S>) -> Held<T, S>
        requires keyed { ⟦<BiHashMap<T, S> as Keyed>⟧.keyed map }
    {
        Held {
            map,
            keys: PhantomData,
        }
    }

    pub(crate) fn is_put(&mut self, item: T) -> bool {
        self.map.insert_unique(item).is_ok()
    }

    /// Whether a repeat ends `extend` or `extend_unique`, and not a refusal. It is `None` if all items are in.
    pub(crate) fn meets_repeat<U: IntoIterator<Item = T>>(
        &mut self,
        way: Way,
        items: U,
    ) -> Option<bool>
        requires ends { IsFinite U.into_iter_gives U.IntoIter.can_next U.IntoIter.remaining items }
    {
        match way {
            Way::Overwrite => self.map.extend(items).is_err().then_some(false),
            Way::Unique => match self.map.extend_unique(items) {
                Ok(()) => None,
                Err(ExtendUniqueError::Duplicate(_)) => Some(true),
                Err(ExtendUniqueError::Refused(_)) => Some(false),
            },
        }
    }

    pub(crate) fn get(&self, by: By, one: &T::K1, other: &T::K2) -> Option<&T> {
        match by {
            By::First => self.map.get1(one),
            By::Second => self.map.get2(other),
            By::Both => self.map.get_unique(one, other),
        }
    }

    pub(crate) fn contains(&self, by: By, one: &T::K1, other: &T::K2) -> bool {
        match by {
            By::First => self.map.contains_key1(one),
            By::Second => self.map.contains_key2(other),
            By::Both => self.map.contains_key_unique(one, other),
        }
    }

    pub(crate) fn remove(&mut self, by: By, one: &T::K1, other: &T::K2) -> Option<T> {
        match by {
            By::First => self.map.remove1(one),
            By::Second => self.map.remove2(other),
            By::Both => self.map.remove_unique(one, other),
        }
    }

    /// Writes the load of the item that `get1_mut`, `get2_mut` or `get_mut_unique` lends. Returns whether there is one.
    #[tactic(auto, using(iddqd_bi_hash::proofs::GuardLemmas::both_keys_kept))]
    pub(crate) fn load(&mut self, by: By, one: &T::K1, other: &T::K2, load: u32) -> bool
    where
        T: Load,
    {
        match by {
            By::First => write_load!(self.map.get1_mut(one), load),
            By::Second => write_load!(self.map.get2_mut(other), load),
            By::Both => write_load!(self.map.get_mut_unique(one, other), load),
        }
    }

    pub(crate) fn shrink(&mut self, min: Option<usize>) -> Result<(), TryReserveError> {
        match min {
            Some(min) => self.map.shrink_to(min),
            None => self.map.shrink_to_fit(),
        }
    }

    pub(crate) fn key_counts(&self) -> (usize, usize) {
        (self.map.keys1().count(), self.map.keys2().count())
    }

    pub(crate) fn is_sound(&self, compact: ValidateCompact) -> bool {
        self.map.validate_structural(compact).is_ok()
    }

    pub(crate) fn is_compact(&self) -> bool {
        self.map.validate(ValidateCompact::Compact).is_ok()
    }
}

impl<S: BuildHasher> Held<Host, S> {
    pub(crate) fn fill(&mut self, rt: &impl Abort, count: u32) {
        for number in 0..count {
            check(rt, self.is_put(host(number)));
        }
    }

    fn has_host(&self, wanted: Host) -> bool {
        self.map.get1(&wanted.number).copied() == Some(wanted)
            && self.map.get2(&wanted.address).copied() == Some(wanted)
    }

    fn has(&self, count: usize) -> bool {
        self.map.len() == count && self.map.iter().count() == count
    }

    /// Whether each host of a number below this one is found by both keys, and the map has no other.
    pub(crate) fn holds_below(&self, count: u32) -> bool {
        for number in 0..count {
            if !self.has_host(host(number)) {
                return false;
            }
        }
        self.has(count as usize) && self.is_compact()
    }

    /// Whether each of the hosts is found by both keys, and the map has no other.
    pub(crate) fn holds(&self, hosts: &[Host]) -> bool {
        for wanted in hosts {
            if !self.has_host(*wanted) {
                return false;
            }
        }
        self.has(hosts.len())
    }
}

// Raises the load of the next host of the walk, or returns how many were lent.
macro_rules! raise_next {
    ($walk:ident, $lent:expr) => {
        match $walk.next() {
            Some(host) => host.load = host.load.saturating_add(1),
            None => return $lent,
        }
    };
}

// Adds one to the loads of the first four hosts of a walk, and returns how many it lends, four at most.
fn raise_four(map: &mut BiHashMap<Host>) -> u32
    requires keyed { ⟦<BiHashMap<Host> as Keyed>⟧.keyed map.old }
    ensures keyed { ⟦<BiHashMap<Host> as Keyed>⟧.keyed map.new }
{
    let mut walk = map.iter_mut();
    raise_next!(walk, 0);
    raise_next!(walk, 1);
    raise_next!(walk, 2);
    raise_next!(walk, 3);
    4
}

impl Held<Host> {
    pub(crate) fn below(rt: &impl Abort, alloc: Global, count: u32) -> Hosts {
        let mut all = Hosts::new(alloc);
        all.fill(rt, count);
        all
    }

    /// The hosts 0 to 5, of which 1 and 4 leave, so that slots are vacant.
    pub(crate) fn with_gaps(rt: &impl Abort, alloc: Global) -> Hosts {
        let mut all = Hosts::below(rt, alloc, 6);
        check(rt, all.remove(By::First, &1, &0).is_some());
        check(rt, all.remove(By::Second, &0, &104).is_some());
        all
    }

    pub(crate) fn with_limit(alloc: Global, limit: u32) -> Hosts {
        Held::over(BiHashMap::with_limit(alloc, limit, Default::default()))
    }

    /// A map of these hosts, inserted in this order.
    pub(crate) fn of(rt: &impl Abort, alloc: Global, hosts: &[Host]) -> Hosts {
        let mut all = Hosts::new(alloc);
        for each in hosts {
            check(rt, all.is_put(*each));
        }
        all
    }

    /// `insert_unique` or `insert_overwrite`: the hosts that are in the way, or replaced.
    pub(crate) fn insert(&mut self, way: Way, new: Host) -> Result<Met, Refused<Host>> {
        match way {
            Way::Unique => match self.map.insert_unique(new) {
                Ok(()) => Ok(NONE),
                Err(InsertError::Duplicate(both)) => Ok(shown(both.duplicates())),
                Err(InsertError::Refused(refused)) => Err(refused),
            },
            Way::Overwrite => match self.map.insert_overwrite(new)? {
                Some(replaced) => Ok(met(&replaced)),
                None => Ok(NONE),
            },
        }
    }

    /// `extend_unique` or `extend` by hosts of which this many are announced: what stops it.
    pub(crate) fn stopped(&mut self, way: Way, hosts: &[Host], hint: usize) -> Option<Stop> {
        let coming = Hinted::new(hosts, hint);
        let stopped = match way {
            Way::Overwrite => self.map.extend(coming).err()?,
            Way::Unique => match self.map.extend_unique(coming) {
                Ok(()) => return None,
                Err(ExtendUniqueError::Refused(stopped)) => stopped,
                Err(ExtendUniqueError::Duplicate(both)) => {
                    return Some((Some(*both.new_item()), shown(both.duplicates()), false));
                }
            },
        };
        Some((stopped.item, NONE, stopped.error.is_capacity_overflow()))
    }

    /// Takes each of the steps, which has to do as it says.
    pub(crate) fn run(&mut self, rt: &impl Abort, steps: &[Step<'_>]) {
        for step in steps {
            let is_so = match *step {
                Step::Insert(way, new, wanted) => {
                    self.insert(way, new).is_ok_and(|met| met == wanted)
                }
                Step::Refuse(way, new) => match self.insert(way, new) {
                    Ok(_) => false,
                    Err(refused) => refused.item == new && refused.error.is_capacity_overflow(),
                },
                Step::Extend(way, hosts, hint, stop) => self.stopped(way, hosts, hint) == stop,
                Step::Get(by, one, other, found) => self.get(by, &one, &other).copied() == found,
                Step::Contains(by, one, other, is_in) => self.contains(by, &one, &other) == is_in,
                Step::Remove(by, one, other, gone) => self.remove(by, &one, &other) == gone,
                Step::Load(by, one, other, load, is_lent) => {
                    self.load(by, &one, &other, load) == is_lent
                }
                Step::Raise(lent) => raise_four(&mut self.map) == lent,
                Step::Holds(hosts) => self.holds(hosts),
            };
            check(rt, is_so);
        }
    }

    /// Whether the map has room for so many hosts, and not for too many.
    pub(crate) fn has_room(&self, least: usize, too_many: usize) -> bool {
        self.map.capacity() >= least && self.map.capacity() < too_many
    }

    pub(crate) fn copied(&self) -> Made<Host> {
        let map = self.map.clone().map_err(FromIterError::Refused)?;
        Ok(Held::over(map))
    }
}

/// The hosts of `Hosts::with_gaps`.
pub(crate) fn left() -> [Host; 4] {
    [host(0), host(2), host(3), host(5)]
}
