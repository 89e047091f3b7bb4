//! Times the maps against std's, in one run, taking turns: `idbench [check|full|bytes]`. A line has the map, the type
//! of the keys, the number of items, and the phase. After them come the nanoseconds an operation of this map and of
//! std's, their ratio, and a bar that shows it. `bytes` fills the maps for `tools/measure-bytes`, and times nothing.
#![tactic(auto)]

mod differences;
mod items;
mod phases;
mod ranges;
mod report;
mod subjects;

use crate::differences::compare_differences;
use crate::items::{BenchKey, Item};
use crate::phases::{Plan, Times, filled, timed};
use crate::ranges::compare_ranges;
use crate::report::write_times;
use crate::subjects::Subject;
use std::alloc::Global;
use std::collections::{BTreeMap, HashMap};
use std::env::Env;
use std::io::Write;
use std::process::ExitCode;
use std::time::Clock;
use std::{env, io};
use test_support::heap::{arm, tell_bytes};
use test_support::maps::{Hashed, Ordered};

// The numbers of items of a quick run, each with how many rounds.
const QUICK: [(u64, u32); 2] = [(1_000, 9), (100_000, 3)];

// The same of a full run.
const FULL: [(u64, u32); 3] = [(1_000, 9), (100_000, 3), (1_000_000, 3)];

/// Which sizes are measured, and whether times or bytes are printed.
#[derive(Clone, Copy)]
enum Mode {
    Check,
    Quick,
    Full,
    Bytes,
}

// What the argument asks for. Any other word is a quick run.
fn mode_asked<R: Env + AllocGlobal>(rt: &R) -> io::Result<Mode> {
    for word in env::args(rt)? {
        match word.as_str() {
            "check" => return Ok(Mode::Check),
            "full" => return Ok(Mode::Full),
            "bytes" => return Ok(Mode::Bytes),
            _ => {}
        }
    }
    Ok(Mode::Quick)
}

// The least times of our map and of std's, over some rounds in which they take turns.
fn in_turns<S: Subject, R: Subject>(
    clock: &impl Clock,
    alloc: Global,
    plan: &Plan,
    rounds: u32,
) -> io::Result<(Times, Times)> {
    let mut ours = timed::<S>(clock, alloc, plan)?;
    let mut std = timed::<R>(clock, alloc, plan)?;
    for _ in 1..rounds {
        ours = ours.least(timed::<S>(clock, alloc, plan)?);
        std = std.least(timed::<R>(clock, alloc, plan)?);
    }
    Ok((ours, std))
}

// Times both kinds of map with keys of one type: whether their sums agree. The times are written if they are asked for.
fn compare<K: BenchKey>(
    clock: &impl Clock,
    alloc: Global,
    out: &mut impl Write,
    plan: (&Plan, u64, u32),
    is_told: bool,
) -> io::Result<bool> {
    let (plan, size, rounds) = plan;
    let hash = in_turns::<Hashed<Item<K>>, HashMap<K, Item<K>>>(clock, alloc, plan, rounds)?;
    let ord = in_turns::<Ordered<Item<K>>, BTreeMap<K, Item<K>>>(clock, alloc, plan, rounds)?;
    if is_told {
        write_times(out, ("hash", K::name()), size, (&hash.0, &hash.1))?;
        write_times(out, ("ord", K::name()), size, (&ord.0, &ord.1))?;
    }
    Ok(hash.0.found == hash.1.found && ord.0.found == ord.1.found)
}

// Fills a map, and lets the heap tell its bytes. The line names the map.
fn measure<S: Subject>(
    alloc: Global,
    out: &mut impl Write,
    plan: &Plan,
    name: &str,
) -> io::Result<()> {
    arm(alloc);
    let map: S = filled(alloc, plan)?;
    tell_bytes(alloc);
    writeln!(out, "{name:<8} {:<7} {:>8}", S::Key::name(), plan.size())
}

// Fills a map of each kind, of ours and of std's, with keys of one type.
fn measure_all<K: BenchKey>(alloc: Global, out: &mut impl Write, plan: &Plan) -> io::Result<()> {
    measure::<Hashed<Item<K>>>(alloc, out, plan, "hash")?;
    measure::<HashMap<K, Item<K>>>(alloc, out, plan, "HashMap")?;
    measure::<Ordered<Item<K>>>(alloc, out, plan, "ord")?;
    measure::<BTreeMap<K, Item<K>>>(alloc, out, plan, "BTreeMap")
}

// Times both kinds of map with the numbers of the plan: whether all sums agree.
fn time_size(
    clock: &impl Clock,
    alloc: Global,
    out: &mut impl Write,
    plan: (&Plan, u64, u32),
    is_told: bool,
) -> io::Result<bool> {
    let by_number = compare::<u64>(clock, alloc, out, plan, is_told)?;
    let by_text = compare::<String>(clock, alloc, out, plan, is_told)?;
    let of_numbers = compare_ranges::<u64>(clock, alloc, out, plan, is_told)?;
    let of_texts = compare_ranges::<String>(clock, alloc, out, plan, is_told)?;
    let pair = (plan.0, plan.2);
    let number_differences = compare_differences::<u64>(clock, alloc, out, pair, is_told)?;
    let text_differences = compare_differences::<String>(clock, alloc, out, pair, is_told)?;
    Ok(by_number && by_text && of_numbers && of_texts && number_differences && text_differences)
}

// Times both kinds of map at each size: whether all sums agree.
fn time_all<R: Clock>(
    rt: &R,
    alloc: Global,
    out: &mut impl Write,
    sizes: &[(u64, u32)],
    is_told: bool,
) -> io::Result<bool> {
    let mut do_agree = true;
    for (size, rounds) in sizes {
        let plan = Plan::new(alloc, *size)?;
        do_agree &= time_size(rt, alloc, out, (&plan, *size, *rounds), is_told)?;
    }
    Ok(do_agree)
}

fn run<R: Env + AllocGlobal + Clock>(
    rt: &R,
    alloc: Global,
    out: &mut impl Write,
) -> io::Result<bool> {
    match mode_asked(rt)? {
        Mode::Check => time_all(rt, alloc, out, &[(1_000, 1)], false),
        Mode::Quick => time_all(rt, alloc, out, &QUICK, true),
        Mode::Full => time_all(rt, alloc, out, &FULL, true),
        Mode::Bytes => {
            let plan = Plan::new(alloc, 100_000)?;
            measure_all::<u64>(alloc, out, &plan)?;
            measure_all::<String>(alloc, out, &plan)?;
            Ok(true)
        }
    }
}

fn main(rt: HostRuntime) -> ExitCode {
    let alloc = rt.alloc();
    let mut out = rt.stdout();
    let told = match run(&rt, alloc, &mut out) {
        Ok(true) => writeln!(out, "the sums agree").is_ok(),
        Ok(false) => {
            let _ = writeln!(out, "the sums differ");
            false
        }
        Err(_) => false,
    };
    ExitCode::from(if told { 0 } else { 1 })
}
