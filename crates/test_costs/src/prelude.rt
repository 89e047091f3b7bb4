//! What most tests here name, and what calls cost: how often they hash keys, and how often they compare them.
ghost use Rattle.std.specs.Prelude.{IsTrue};

pub(crate) use iddqd::errors::{FromIterError, TryReserveError};
pub(crate) use iddqd::{DefaultHashBuilder, IdHashItem, IdHashMap, IdOrdItem, IdOrdMap, MAX_ITEMS};
pub(crate) use std::alloc::{AllocError, Global};
use std::cell::Cell;
pub(crate) use std::collections::hash_map::RandomState;
pub(crate) use std::hash::BuildHasher;
use std::hash::BuildHasherDefault;
pub(crate) use std::process::Abort;
pub(crate) use std::test::Fail;
pub(crate) use test_support::bulk::Hinted;
pub(crate) use test_support::caseless::{Caseless, Coarse, item_of, spelled};
pub(crate) use test_support::coarse::{Copied, Way};
use test_support::counting::Counts;
pub(crate) use test_support::counting::{CountingKey, Tallied};
pub(crate) use test_support::either::{Either, Kind, by_hash, by_hash_of, in_order, in_order_of};
use test_support::hashers::ZeroHasher;
pub(crate) use test_support::items::Numbered;
pub(crate) use test_support::maps::{self, Added, Hashed, Inserted, Ordered};

/// Ends the test as failed if the condition is false. The proof of a call takes a third of that of an `assert!` in its
/// place.
pub(crate) fn check(rt: &impl Abort, condition: bool)
    ensures { IsTrue condition }
{
    assert!(rt; condition);
}

/// What a test passes to its helpers: it ends the process as failed, prints, and gives memory.
pub(crate) trait Host: Abort + Print + AllocGlobal {}

impl<R: Abort + Print + AllocGlobal> Host for R {}

/// Hashes every key to 0.
pub(crate) type Zero = BuildHasherDefault<ZeroHasher>;

/// An empty hash map of another hasher.
pub(crate) fn hashed_by<T: IdOrdItem + IdHashItem, S: BuildHasher>(
    alloc: Global,
    hasher: S,
) -> Either<T, S> {
    Either::Hashed(Hashed::new(IdHashMap::with_hasher(alloc, hasher)))
}

/// A map of either kind whose keys count. A hash map's every hash is 0.
pub(crate) type Metered<'a> = Either<Tallied<'a>, Zero>;

/// Hashings, and comparisons.
pub(crate) type Cost = (u32, u32);

/// What the keys of a test count, and whether anything was wrong.
#[derive(Default, Drop)]
pub(crate) struct Tally {
    counts: Counts,
    is_wrong: Cell<bool>,
}

impl Tally {
    /// Reads what the keys of an ordered map count.
    pub(crate) fn of_order(&self) -> Meter<'_> {
        Meter {
            counts: &self.counts,
            is_wrong: &self.is_wrong,
            hashings: 0,
        }
    }

    /// Reads what the keys of a hash map count.
    pub(crate) fn of_hashes(&self) -> Meter<'_> {
        Meter {
            hashings: 1,
            ..self.of_order()
        }
    }

    /// Fails if anything that was told is not so.
    pub(crate) fn end(&self) -> Result<(), Fail> {
        if self.is_wrong.get() {
            return Err(Fail::from("a call went wrong, or cost more or less than it should"));
        }
        Ok(())
    }
}

/// Reads what the keys of a map have counted. A search of the map hashes its key so often: once, or in an ordered map
/// never.
#[derive(Clone, Copy)]
pub(crate) struct Meter<'a> {
    pub(crate) counts: &'a Counts,
    is_wrong: &'a Cell<bool>,
    pub(crate) hashings: u32,
}

impl<'a> Meter<'a> {
    /// What a test holds to be so.
    pub(crate) fn hold(self, is_so: bool) {
        self.is_wrong.set(self.is_wrong.get() || !is_so);
    }

    /// A call did what it should, and cost this since the last one was told.
    pub(crate) fn tell(self, is_done: bool, cost: Cost) {
        self.hold(is_done && self.counts.since() == cost);
    }

    /// A call did what it should, and compared keys no more often than this since the last one was told.
    pub(crate) fn tell_within(self, is_done: bool, bound: u32) {
        self.hold(is_done && self.counts.since().1 <= bound);
    }

    /// The cost of one search for the key, as `get_counted` tells it.
    pub(crate) fn once(self, map: &Metered<'a>, key: &CountingKey<'a>) -> Cost {
        let _ = self.counts.since();
        let (_, steps) = map.get_counted(key);
        let cost = (self.hashings, steps);
        self.tell(true, cost);
        cost
    }

    /// An ordered map of the items. Its making is not told.
    pub(crate) fn ordered(self, alloc: Global, items: &[Tallied<'a>]) -> Ordered<Tallied<'a>> {
        let mut map = maps::in_order(alloc);
        self.hold(map.extend(Hinted::new(items, 0)).is_ok());
        let _ = self.counts.since();
        map
    }

    /// A hash map of them.
    pub(crate) fn hashed<S: BuildHasher + Default>(
        self,
        alloc: Global,
        items: &[Tallied<'a>],
    ) -> Hashed<Tallied<'a>, S> {
        let mut map = Hashed::new(IdHashMap::with_hasher(alloc, S::default()));
        self.hold(map.extend(Hinted::new(items, 0)).is_ok());
        let _ = self.counts.since();
        map
    }

    /// A map of them, of the kind that this reads.
    pub(crate) fn map_of(self, alloc: Global, items: &[Tallied<'a>]) -> Metered<'a> {
        match self.hashings {
            0 => Either::Ordered(self.ordered(alloc, items)),
            _ => Either::Hashed(self.hashed(alloc, items)),
        }
    }
}
