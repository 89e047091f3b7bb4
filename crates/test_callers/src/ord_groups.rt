//! Events by a key of two fields: a range finds those of one time.
ghost use Rattle.std.specs.Prelude.{◌≡◌, ◌==◌, ◌+◌, ◌<◌, ◌≤◌, List, filter, length, map, nat_lt, option_copied, sum_by};
ghost use Rattle.iddqd.specs.Contents.{Ascends, IsAbsent};
ghost use Rattle.iddqd.specs.IdOrdMap.{WalksPart};
ghost use Rattle.test_callers.specs.Groups.{last_of_time, of_time, taken_off, without_time};
ghost use Rattle.test_callers.specs.declared.items.Event.{Event};

use crate::items::{At, Event, TakesOff};
use iddqd::IdOrdMap;
use iddqd::id_ord_map::Iter;
use std::marker::Model;

/// Events, seen as a list that ascends by their keys.
#[derive(Drop)]
struct Log(IdOrdMap<Event>);

impl Model for Log {
    ghost Value = { List Event };

    ghost view = { λ log. log.0.items };

    ghost invariant = { λ log. Ascends (λ e. e.at) ⟦<At as Ord>⟧.cmp log.0.items };
}

impl Log {
    /// The events of one time, in order.
    fn of_time(&self, time: u64) -> Iter<'_, Event>
        requires later { time < u64.MAX }
        ensures items { result ≡ filter (λ e. time == e.at.time) self.now }
        ensures part { WalksPart result self.now }
    {
        let from = At { time, seq: 0 };
        let time = time + 1;
        self.0.range(from..At { time, seq: 0 })
    }

    /// How many events there are of one time.
    fn count(&self, time: u64) -> usize
        requires later { time < u64.MAX }
        ensures { result ≡ length (of_time time self.now) }
    {
        self.of_time(time).count()
    }

    /// The last event of one time.
    fn last(&self, time: u64) -> Option<&Event>
        requires later { time < u64.MAX }
        ensures { option_copied result ≡ last_of_time time self.now }
    {
        self.of_time(time).next_back()
    }

    /// How long the events of one time took.
    fn took(&self, time: u64) -> u64
        requires later { time < u64.MAX }
        requires fits { sum_by (λ e. e.took) self.now ≤ u64.MAX }
        ensures { result ≡ sum_by (λ e. e.took) (of_time time self.now) }
    {
        self.of_time(time).map(|e| e.took as u64).sum()
    }

    /// Removes the events of one time, and returns how many there were.
    #[tactic(auto, using(iddqd::proofs::ChangeLemmas::after_changes))]
    fn remove(&mut self, time: u64) -> usize
        requires later { time < u64.MAX }
        ensures left { self.new ≡ without_time time self.old }
        ensures gone { IsAbsent (λ e. e.at) (λ at. time == at.time) self.new }
        ensures number { result + length self.new ≡ length self.old }
    {
        let from = At { time, seq: 0 };
        let time = time + 1;
        self.0.remove_range(from..At { time, seq: 0 })
    }
    /// Keeps the events that took longer.
    fn keep_longer(&mut self, least: u32)
        ensures kept { self.new ≡ filter (λ e. nat_lt least e.took) self.old }
    {
        self.0.retain(|event| least < event.took);
    }

    /// Takes off some of what each event took, and keeps those that took more.
    fn take_off(&mut self, off: u32)
        ensures kept { self.new ≡ map (taken_off off) (filter (λ e. nat_lt off e.took) self.old) }
    {
        self.0.retain_mut(&mut TakesOff { off });
    }
}
