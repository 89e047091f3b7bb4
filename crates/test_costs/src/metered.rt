//! The rows over maps whose keys count, and a function that runs one.
use crate::calls::{each_call, guards_and_entries};
use crate::counting::{hash_steps, plain_calls};
use crate::many_items::{leave_and_move, takes_many, walks};
use crate::prelude::*;

/// A row, with how many items it has if that varies.
#[derive(Clone, Copy)]
pub(crate) enum Row {
    EachCall(u32),
    GuardsAndEntries,
    HashSteps(u32),
    /// And the most comparisons of a call.
    PlainCalls(u32, u32),
    TakesMany,
    Walks,
    LeaveAndMove,
}

impl Row {
    fn count(self) -> u32 {
        match self {
            Row::EachCall(count) | Row::HashSteps(count) | Row::PlainCalls(count, _) => count,
            _ => 50,
        }
    }
}

/// Items of even numbers, those beside them of odd ones, which are absent, and what reads their keys.
#[derive(Clone, Copy)]
pub(crate) struct Given<'i, 'a> {
    pub(crate) alloc: Global,
    pub(crate) items: &'i [Tallied<'a>],
    pub(crate) absent: &'i [Tallied<'a>],
    pub(crate) meter: Meter<'a>,
}

impl<'a> Given<'_, 'a> {
    /// A map of these items.
    pub(crate) fn of(self, items: &[Tallied<'a>]) -> Metered<'a> {
        self.meter.map_of(self.alloc, items)
    }

    /// A map of its items.
    pub(crate) fn map(self) -> Metered<'a> {
        self.of(self.items)
    }
}

fn run_row(row: Row, given: Given<'_, '_>, kind: Kind) {
    match row {
        Row::EachCall(_) => each_call(given),
        Row::GuardsAndEntries => guards_and_entries(given),
        Row::HashSteps(_) => hash_steps(given),
        Row::PlainCalls(_, bound) => plain_calls(given, bound),
        Row::TakesMany => takes_many(given, kind),
        Row::Walks => walks(given.map(), given.meter),
        Row::LeaveAndMove => leave_and_move(given.map(), given.meter),
    }
}

/// Runs the row over a map of this kind.
pub(crate) fn run(alloc: Global, row: Row, kind: Kind) -> Result<(), Fail> {
    let tally = Tally::default();
    let meter = match kind {
        Kind::Ordered => tally.of_order(),
        Kind::Hashed => tally.of_hashes(),
    };
    let items = meter.counts.items(alloc, 0, row.count())?;
    let absent = meter.counts.items(alloc, 1, row.count().max(1))?;
    let given = Given {
        alloc,
        items: items.as_slice(),
        absent: absent.as_slice(),
        meter,
    };
    run_row(row, given, kind);
    tally.end()
}
