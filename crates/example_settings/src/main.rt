//! Settings in lines, each a name and a value. It relies on two promises: `from_iter_unique` reports the first name
//! that a line has twice, and `insert_unique` one that an earlier line has. Each shows both items, and nothing is
//! overwritten.
#![tactic(auto)]

ghost use Rattle.std.specs.Prelude.{◌≡◌, List, IfNone, IfOk, IfSome, option_map};
ghost use Rattle.iddqd.specs.Contents.{AddsItem};
ghost use Rattle.iddqd.specs.IdHashMap.{IsKeyedByText};
ghost use Rattle.example_settings.specs.Settings.{ShowsExisting, setting_at};
ghost use Rattle.example_settings.specs.declared.Setting.{Setting};

use iddqd::errors::{FromIterError, InsertError, TryReserveError};
use iddqd::{IdHashItem, IdHashMap, Text};
use std::alloc::{AllocError, Global};
use std::io;
use std::marker::Model;

#[derive(Debug, Drop)]
struct Setting {
    name: String,
    value: u32,
}

impl IdHashItem for Setting {
    type Key = String;

    ghost key = { λ setting. setting.name };

    fn key(&self) -> &String {
        &self.name
    }
}

/// The settings, seen as a list in which no two names are equal.
#[derive(Drop)]
struct Settings(IdHashMap<Setting>);

impl Model for Settings {
    ghost Value = { List Setting };

    ghost view = { λ all. all.0.items };

    ghost invariant = { λ all. IsKeyedByText (λ s. s.name) all.0 };
}

/// Adds the setting. If its name exists, returns it and the existing value. Its contract took no line of proof.
fn add(all: &mut Settings, setting: Setting) -> Result<Option<(Setting, u32)>, TryReserveError>
    ensures added { IfOk result (λ known. IfNone known (AddsItem setting all.old all.new)) }
    ensures new { IfOk result (λ known. IfSome known (λ both. both.0 ≡ setting)) }
    ensures there { IfOk result (λ known. IfSome known (ShowsExisting all.old)) }
{
    match all.0.insert_unique(setting) {
        Ok(()) => Ok(None),
        Err(InsertError::Duplicate(both)) => {
            let there = both.duplicates().first().value;
            Ok(Some((both.into_parts().0, there)))
        }
        Err(InsertError::Refused(refused)) => Err(refused.error),
    }
}

/// The value of the name. Its contract took no line of proof.
fn value_of(all: &Settings, name: &str) -> Option<u32>
    ensures { result ≡ option_map (λ s. s.value) (setting_at name.now all.now) }
{
    Some(all.0.get(&Text(name))?.value)
}

fn parsed(alloc: Global, line: &str) -> Result<Vec<Setting>, AllocError> {
    let mut settings = Vec::new(alloc);
    for word in line.split_whitespace() {
        let Some((name, value)) = word.split_once('=') else {
            continue;
        };
        let Ok(value) = value.parse::<u32>() else {
            continue;
        };
        settings.push(Setting {
            name: String::from_str(alloc, name)?,
            value,
        })?;
    }
    Ok(settings)
}

fn main(rt: HostRuntime) -> io::Result<()> {
    let mut all = Settings(IdHashMap::new(rt.alloc()));
    for line in ["port=80 seats=5", "rate=3 rate=4", "host=1 port=8080"] {
        match IdHashMap::<Setting>::from_iter_unique(rt.alloc(), parsed(rt.alloc(), line)?) {
            Ok(settings) => {
                for setting in settings {
                    println!(rt; "{:?}", add(&mut all, setting))?;
                }
            }
            Err(FromIterError::Duplicate(both)) => println!(rt; "{both:?}")?,
            Err(FromIterError::Refused(error)) => println!(rt; "{error}")?,
        }
    }
    let (port, seats) = (value_of(&all, "port"), value_of(&all, "seats"));
    println!(rt; "{port:?} and {seats:?} of {}", all.0.len())
}
