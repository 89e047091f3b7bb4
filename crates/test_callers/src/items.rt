//! Items that hold text, by number and by two numbers.

ghost use Rattle.std.specs.Prelude.{nat_lt};
ghost use Rattle.test_callers.specs.Groups.{taken_off};

use iddqd::{IdHashItem, IdOrdItem, Visit};

/// A number and a note.
#[derive(Drop)]
pub(crate) struct Noted {
    pub(crate) number: u32,
    pub(crate) note: String,
}

impl IdOrdItem for Noted {
    type Key = u32;

    ghost key = { λ item. item.number };

    fn key(&self) -> &u32 {
        &self.number
    }
}

impl IdHashItem for Noted {
    type Key = u32;

    ghost key = { λ item. item.number };

    fn key(&self) -> &u32 {
        &self.number
    }
}

/// A time, and which of the events at that time.
#[derive(Clone, Copy, PartialEq, Eq, PartialOrd, Ord, Hash)]
pub(crate) struct At {
    /// The time.
    pub(crate) time: u64,
    /// How many came before it at that time.
    pub(crate) seq: u32,
}

/// What happened, and how long it took.
#[derive(Drop)]
pub(crate) struct Event {
    pub(crate) at: At,
    pub(crate) took: u32,
    pub(crate) note: String,
}

impl IdOrdItem for Event {
    type Key = At;

    ghost key = { λ event. event.at };

    fn key(&self) -> &At {
        &self.at
    }
}

impl IdHashItem for Event {
    type Key = At;

    ghost key = { λ event. event.at };

    fn key(&self) -> &At {
        &self.at
    }
}

/// Takes off some of what each event took. Those that took more stay.
#[derive(Drop)]
pub(crate) struct TakesOff {
    pub(crate) off: u32,
}

impl Visit<Event> for TakesOff {
    ghost visits = { λ v e. (v, taken_off v.off e, nat_lt v.off e.took) };

    fn visit(&mut self, event: &mut Event) -> bool {
        let stays = self.off < event.took;
        event.took = event.took.saturating_sub(self.off);
        stays
    }
}
