//! What has changed between two configuration files of lines `name = value`. A removed setting is shown as
//! `- name = value`, and an added one as `+ name = value`. One of another value is shown as `~ name = old -> new`. The
//! lines stand in the order of the names. The exit status is that of `diff`: 0 if nothing has changed, 1 if something
//! has, and 2 if there is trouble. It relies on this promise: the difference gives each name of either file once, in
//! order.
#![tactic(auto)]

mod changes;
mod settings;

use crate::changes::show_all;
use crate::settings::Settings;
use std::alloc::Global;
use std::env::{self, Env};
use std::io;
use std::process::ExitCode;
use std::rt::Files;

// Reads the settings of the file that the next argument names.
fn read<R: Files + AllocGlobal>(
    rt: &R,
    alloc: Global,
    path: Option<String>,
) -> io::Result<Settings> {
    let Some(path) = path else {
        return Err(io::Error::from(io::ErrorKind::InvalidInput));
    };
    let text = std::fs::read_to_string(rt, path.as_str())?;
    Settings::parse(alloc, text.as_str())
}

// Compares the files that the two arguments name, and returns whether a line was written.
fn compare(rt: &HostRuntime) -> io::Result<bool> {
    let alloc = rt.alloc();
    let mut words = env::args(rt)?.skip(1);
    let before = read(rt, alloc, words.next())?;
    let after = read(rt, alloc, words.next())?;
    show_all(&before, &after, &mut rt.stdout())
}

fn main(rt: HostRuntime) -> ExitCode {
    match compare(&rt) {
        Ok(false) => ExitCode::from(0),
        Ok(true) => ExitCode::from(1),
        Err(_error) => ExitCode::from(2),
    }
}
