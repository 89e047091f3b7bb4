//! Runs the lines of standard input over a map whose keys live in its items, and writes a reply to each.
#![tactic(auto)]

use iddqd_run::{Fault, Kind, Stop, after_name, exit_status, fault_text, kind_of, serve};
use std::alloc::Global;
use std::env;
use std::env::Env;
use std::io::ErrorKind;
use std::process::ExitCode;

// The kind of map that the arguments ask for. An argument that is no text is a wrong one.
fn kind_asked<R: Env + AllocGlobal>(rt: &R, alloc: Global) -> Result<Kind, Stop> {
    let args = match env::args(rt) {
        Ok(args) => args,
        Err(error) if error.kind() == ErrorKind::OutOfMemory => {
            return Err(Stop::Fault(Fault::Memory));
        }
        Err(_) => return Err(Stop::Usage),
    };
    let mut words = Vec::new(alloc);
    for word in args {
        if words.push(word).is_err() {
            return Err(Stop::Fault(Fault::Memory));
        }
    }
    kind_of(after_name(words.as_slice())).ok_or(Stop::Usage)
}

fn main(rt: HostRuntime) -> ExitCode {
    let alloc = rt.alloc();
    let outcome = match kind_asked(&rt, alloc) {
        Ok(kind) => serve(alloc, kind, &mut rt.stdin(), &mut rt.stdout()).map_err(Stop::Fault),
        Err(stop) => Err(stop),
    };
    let _ = match &outcome {
        Ok(_) => Ok(()),
        Err(Stop::Usage) => eprintln!(rt; "usage: idtable [hash|ord]"),
        Err(Stop::Fault(fault)) => eprintln!(rt; "{}", fault_text(fault)),
    };
    ExitCode::from(exit_status(&outcome))
}
