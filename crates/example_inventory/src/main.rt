//! An inventory: parts by number, whose counts are written through guards. It relies on this promise: a part of a number
//! that exists is refused with both shown, and nothing has changed.
#![tactic(auto)]

ghost use Rattle.std.specs.Prelude.{List, ◌≡◌, IfNone, IfSome};
ghost use Rattle.std.specs.Ordering.{nat_cmp};
ghost use Rattle.iddqd.specs.Contents.{Ascends};
ghost use Rattle.example_inventory.specs.Inventory.{IsTaken};
ghost use Rattle.example_inventory.specs.declared.Part.{Part};

use iddqd::errors::InsertError;
use iddqd::{IdOrdItem, IdOrdMap};
use std::io;
use std::io::Write;
use std::marker::Model;
use std::process::ExitCode;

#[derive(Debug, Drop)]
struct Part {
    number: u32,
    count: u32,
}

impl IdOrdItem for Part {
    type Key = u32;

    ghost key = { λ part. part.number };

    fn key(&self) -> &u32 {
        &self.number
    }
}

/// The parts, seen as a list that is sorted by their numbers.
#[derive(Drop)]
struct Inventory(IdOrdMap<Part>);

impl Model for Inventory {
    ghost Value = { List Part };

    ghost view = { λ all. all.0.items };

    ghost invariant = { λ all. Ascends (λ p. p.number) nat_cmp all.0.items };
}

impl Inventory {
    /// Takes some of a part, and returns how many are left. It returns `None` if there are too few, and then nothing has
    /// changed. Its contract took two lines of proof: that the new count keeps the part's number.
    fn take(&mut self, number: u32, count: u32) -> Option<u32>
        ensures unchanged { IfNone result (self.new ≡ self.old) }
        ensures taken { IfSome result (λ left. IsTaken number count left self.old self.new) }
    {
        let mut part = self.0.get_mut(&number)?;
        let Some(left) = part.count.checked_sub(count) else {
            part.finish();
            return None;
        };
        part.count = left;
        part.finish();
        Some(left)
    }
}

fn add_parts(all: &mut Inventory, out: &mut impl Write) -> io::Result<()> {
    for (number, count) in [(7, 40), (3, 12), (7, 5)] {
        match all.0.insert_unique(Part { number, count }) {
            Ok(()) => {}
            Err(InsertError::Duplicate(both)) => writeln!(out, "{both:?}")?,
            Err(InsertError::Refused(refused)) => writeln!(out, "{}", refused.error)?,
        }
    }
    Ok(())
}

fn take_parts(all: &mut Inventory, out: &mut impl Write) -> io::Result<()> {
    for (number, count) in [(7, 15), (3, 13), (8, 1)] {
        let left = all.take(number, count);
        writeln!(out, "{count} of part {number} taken, left: {left:?}")?;
    }
    Ok(())
}

fn run(all: &mut Inventory, out: &mut impl Write) -> io::Result<()> {
    add_parts(all, out)?;
    take_parts(all, out)
}

fn main(rt: HostRuntime) -> ExitCode {
    let outcome = run(&mut Inventory(IdOrdMap::new(rt.alloc())), &mut rt.stdout());
    ExitCode::from(if outcome.is_ok() { 0 } else { 1 })
}
