//! How a program over `serve` ends.
ghost use Rattle.std.specs.Prelude.{◌≡◌};
ghost use Rattle.iddqd_run.specs.Words.{status_for};

use crate::serving::Fault;

/// Why a program wrote no replies.
#[derive(Clone, Copy, Debug, PartialEq, Eq)]
pub enum Stop {
    /// Its arguments are wrong: it tells its usage.
    Usage,
    /// It met a fault.
    Fault(Fault),
}

/// Returns the exit status: 0 if all replies were written, 1 after a fault, 2 after the usage line.
pub fn exit_status(outcome: &Result<u64, Stop>) -> u8
    ensures { result ≡ status_for outcome.now }
{
    match outcome {
        Ok(_) => 0,
        Err(Stop::Fault(_)) => 1,
        Err(Stop::Usage) => 2,
    }
}
