//! A registry of call signs that counts their visits, equal in any case. It relies on this promise: an item that
//! overwrites one of an equal key takes its place whole, the spelling of its key too.
#![tactic(auto)]

ghost use Rattle.std.specs.Prelude.{◌≡◌, IfNone};
ghost use Rattle.example_registry.specs.Registry.{VisitsAgain, VisitsFirst};

mod sign;

use crate::sign::Sign;
use iddqd::id_hash_map::Entry;
use iddqd::{IdHashItem, IdHashMap, Keyed};
use std::process::ExitCode;

#[derive(Drop)]
struct Guest {
    sign: Sign,
    visits: u32,
}

impl IdHashItem for Guest {
    type Key = Sign;

    ghost key = { λ guest. guest.sign };

    fn key(&self) -> &Sign {
        &self.sign
    }
}

/// Counts a visit: one more if the sign is known, which is spelled as this one from now on, and else the first. It
/// returns the count, or `None` if there was no room. Its contract took no line of proof.
fn visit(guests: &mut IdHashMap<Guest>, sign: Sign) -> Option<u32>
    requires keyed { ⟦<IdHashMap<Guest> as Keyed>⟧.keyed guests.old }
    ensures again { VisitsAgain sign guests.old.items guests.new.items result }
    ensures first { VisitsFirst sign guests.old.items guests.new.items result }
    ensures kept { IfNone result (guests.new.items ≡ guests.old.items) }
    ensures keyed { ⟦<IdHashMap<Guest> as Keyed>⟧.keyed guests.new }
{
    match guests.entry(&sign) {
        Entry::Occupied(mut entry) => {
            let visits = entry.get().visits.saturating_add(1);
            let _ = entry.insert(Guest { sign, visits });
            Some(visits)
        }
        Entry::Vacant(entry) => {
            let Ok(guest) = entry.insert(Guest { sign, visits: 1 }) else {
                return None;
            };
            guest.finish();
            Some(1)
        }
    }
}

fn main(rt: HostRuntime) -> ExitCode {
    let mut guests = IdHashMap::new(rt.alloc());
    let first = visit(&mut guests, Sign(*b"ann"));
    let other = visit(&mut guests, Sign(*b"BOB"));
    let again = visit(&mut guests, Sign(*b"Ann"));
    let reset = guests.insert_overwrite(Guest {
        sign: Sign(*b"Bob"),
        visits: 0,
    });
    let Some(ann) = guests.get(&Sign(*b"ANN")) else {
        return ExitCode::from(1);
    };
    let (letters, visits) = (ann.sign.0.map(|byte| char::from(byte)), ann.visits);
    let told = println!(rt;
        "visits: {first:?} {other:?} {again:?}; {letters:?} came {visits} times"
    );
    ExitCode::from(u8::from(told.is_err() || reset.is_err()))
}
