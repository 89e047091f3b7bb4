//! A reader and a writer in memory that fail at a call of a given number. They are for tests of what `serve` and its
//! like do then.
ghost use Rattle.std.specs.Prelude.{◌≡◌, ◌≢◌, ◌-◌, ◌==◌, Some, IfOk, IsOk, length};
ghost use Rattle.std.specs.Io.{ReadsAtMost, WritesAtMost};
ghost use Rattle.std.specs.Io.KnownBytes.{Keeps, ReadConsumes, WriteAppends};
ghost use Rattle.std.specs.declared.io.ErrorKind.{ErrorKind};
ghost use Rattle.idtable_lines.specs.Failing.{FailsBy, FailsOnlyBy, GivesWhatFits};

use std::io::{Error, ErrorKind, Read, Result, Write};
use std::marker::Model;

/// Gives its bytes, and fails at one read. Contracts see the bytes that are left, and how far off that read is.
#[derive(Drop)]
pub struct FailingReader {
    bytes: Vec<u8>,
    given: usize,
    after: u32,
}

impl Model for FailingReader {
    ghost use Rattle.idtable_lines.specs.Failing.{Reading};
    ghost use Rattle.std.specs.Prelude.{drop, length, ◌≤◌};

    ghost Value = { Reading };

    ghost view = { λ reader. record { rest = drop reader.given reader.bytes.items; after = reader.after } };

    ghost invariant = { λ reader. reader.given ≤ length reader.bytes.items };
}

impl FailingReader {
    /// Returns a reader that gives the bytes, and fails at the read numbered `after`, the first being 1. 0 means
    /// never.
    pub fn new(bytes: Vec<u8>, after: u32) -> FailingReader
        ensures rest { result.rest ≡ bytes.items }
        ensures after { result.after ≡ after }
    {
        FailingReader {
            bytes,
            given: 0,
            after,
        }
    }
}

impl Read for FailingReader {
    ghost remaining = { λ reader. Some reader.rest };

    /// Gives as many bytes as there is room for, or fails at its turn. Then nothing is lost, and the next reads go
    /// on.
    fn read(&mut self, buf: &mut [u8]) -> Result<usize>
        ensures bound { ReadsAtMost result buf.new }
        ensures bytes { ReadConsumes (Some self.old.rest) (Some self.new.rest) result buf.new }
        ensures fails { self.old.after ≡ 1 → FailsBy ErrorKind.Other result }
        ensures gives { self.old.after ≢ 1 → GivesWhatFits self.old.rest buf.old result }
        ensures turn { self.new.after ≡ self.old.after - 1 }
    {
        if is_turn(&mut self.after) {
            return Err(Error::from(ErrorKind::Other));
        }
        let mut rest = &self.bytes[self.given..];
        let count = rest.read(buf)?;
        self.given += count;
        Ok(count)
    }
}

/// Takes bytes, and fails at one write. Contracts see the bytes that it holds, and how far off that write is.
#[derive(Drop)]
pub struct FailingWriter {
    taken: Vec<u8>,
    after: u32,
}

impl Model for FailingWriter {
    ghost use Rattle.idtable_lines.specs.Failing.{Writing};

    ghost Value = { Writing };

    ghost view = { λ writer. record { taken = writer.taken.items; after = writer.after } };
}

impl FailingWriter {
    /// Returns a writer that holds the bytes, takes more behind them, and fails at the write numbered `after`, the
    /// first being 1. 0 means never.
    pub fn new(bytes: Vec<u8>, after: u32) -> FailingWriter
        ensures taken { result.taken ≡ bytes.items }
        ensures after { result.after ≡ after }
    {
        FailingWriter {
            taken: bytes,
            after,
        }
    }

    /// Returns the bytes that it holds: those that it began with, and then those that it took.
    pub fn taken(&self) -> &[u8]
        ensures { result.now ≡ self.now.taken }
    {
        self.taken.as_slice()
    }
}

impl Write for FailingWriter {
    ghost contents = { λ writer. Some writer.taken };

    /// Takes all bytes, or fails at its turn, or if memory for them is refused. Then it holds what it held.
    fn write(&mut self, buf: &[u8]) -> Result<usize>
        // on success
        ensures bound { WritesAtMost result buf.now }
        ensures bytes { WriteAppends (Some self.old.taken) (Some self.new.taken) result buf.now }

        // on refusal
        ensures fails { self.old.after ≡ 1 → FailsBy ErrorKind.Other result }

        // either way
        ensures takes { IfOk result (λ count. count ≡ length buf.now) }
        ensures memory { self.old.after ≢ 1 → FailsOnlyBy ErrorKind.OutOfMemory result }
        ensures turn { self.new.after ≡ self.old.after - 1 }
    {
        if is_turn(&mut self.after) {
            return Err(Error::from(ErrorKind::Other));
        }
        self.taken.write(buf)
    }

    /// Does nothing, and never fails.
    fn flush(&mut self) -> Result<()>
        ensures bytes { Keeps (Some self.old.taken) (Some self.new.taken) }
        ensures ok { IsOk result }
        ensures unchanged { self.new ≡ self.old }
    {
        Ok(())
    }
}

// Counts a call. Whether it is the one that fails.
fn is_turn(after: &mut u32) -> bool
    ensures answer { result ≡ (after.old == 1) }
    ensures left { after.new ≡ after.old - 1 }
{
    let fails = *after == 1;
    *after = after.saturating_sub(1);
    fails
}
