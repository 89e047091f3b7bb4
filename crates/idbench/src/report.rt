//! The lines of the report.
use crate::phases::{CALLS, Times, WALKS};
use std::io;
use std::io::Write;

// Tenths of a nanosecond an operation.
fn tenths(nanos: u64, size: u64) -> u64 {
    nanos.saturating_mul(10).checked_div(size).unwrap_or(0)
}

// A character for each tenth of the ratio, 60 at most, and the end of the line.
fn write_bar(out: &mut impl Write, hundredths: u64) -> io::Result<()> {
    for _ in 0..(hundredths / 10).min(60) {
        write!(out, "#")?;
    }
    writeln!(out, "")
}

// Tenths, as a number with one digit behind the point.
fn write_tenths(out: &mut impl Write, tenths: u64) -> io::Result<()> {
    write!(out, "{:>6}.{} ", tenths / 10, tenths % 10)
}

// The tenths of a nanosecond that an operation took of this map and of std's, their ratio, and a bar that shows it. Std's
// are 0 if it has no such call.
fn write_pair(out: &mut impl Write, ours: u64, std: u64) -> io::Result<()> {
    write_tenths(out, ours)?;
    if std == 0 {
        return writeln!(out, "     -");
    }
    write_tenths(out, std)?;
    let ratio = ours.saturating_mul(100) / std.max(1);
    write!(out, "{:>3}.{:02} ", ratio / 100, ratio % 100)?;
    write_bar(out, ratio)
}

/// Writes a line for each of these phases that this map has.
pub(crate) fn write_phases(
    out: &mut impl Write,
    (map, key): (&str, &str),
    size: u64,
    phases: &[&str],
    (ours, std): (&[u64], &[u64]),
) -> io::Result<()> {
    for (phase, (ours, std)) in phases.iter().zip(ours.iter().zip(std)) {
        if *ours == 0 {
            continue;
        }
        write!(out, "{map:<5} {key:<7} {size:>8} {phase:<10} ")?;
        write_pair(out, tenths(*ours, size), tenths(*std, size))?;
    }
    Ok(())
}

/// Writes a line for each phase that the map has: the nanoseconds an operation of this map and of std's, their ratio,
/// and a bar.
pub(crate) fn write_times(
    out: &mut impl Write,
    pair: (&str, &str),
    size: u64,
    (ours, std): (&Times, &Times),
) -> io::Result<()> {
    write_phases(out, pair, size, &CALLS, (&ours.calls, &std.calls))?;
    write_phases(out, pair, size, &WALKS, (&ours.walks, &std.walks))
}
