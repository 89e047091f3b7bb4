//! The lines that tell what has changed.
use crate::settings::{Setting, Settings};
use iddqd_diff::{Diffable, Difference};
use std::io::{self, Write};

// Writes the line of what two files have at a name.
fn show(difference: &Difference<&Setting>, out: &mut impl Write) -> io::Result<()> {
    match difference {
        Difference::Removed(old) => writeln!(out, "- {} = {}", old.name, old.value),
        Difference::Added(new) => writeln!(out, "+ {} = {}", new.name, new.value),
        Difference::Kept(old, new) => {
            writeln!(out, "~ {} = {} -> {}", new.name, old.value, new.value)
        }
    }
}

/// Writes a line for each name that has changed, and returns whether any has.
pub(crate) fn show_all(
    before: &Settings,
    after: &Settings,
    out: &mut impl Write,
) -> io::Result<bool> {
    let mut is_any = false;
    for difference in before.0.diff(&after.0) {
        if difference.is_changed() {
            show(&difference, out)?;
            is_any = true;
        }
    }
    Ok(is_any)
}
