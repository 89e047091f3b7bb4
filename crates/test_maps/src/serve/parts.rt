//! A reader and a writer in memory that give and take a few bytes at a call, fail at some calls, and count them.
ghost use Rattle.std.specs.Prelude.{Some};

use std::io::{Error, ErrorKind, Read, Result, Write};

/// Which calls fail, and by what error.
#[derive(Clone, Copy)]
pub(crate) enum Failure {
    Never,
    /// The call of this number, from 1 on.
    At(u32, ErrorKind),
    /// Each second call, from the first on, is interrupted.
    Interruptions,
}

impl Failure {
    // What the call of this number does before anything else.
    fn meet(&self, call: u32) -> Result<()> {
        match *self {
            Failure::At(at, kind) if call == at => Err(Error::from(kind)),
            Failure::Interruptions if call % 2 == 1 => Err(Error::from(ErrorKind::Interrupted)),
            _ => Ok(()),
        }
    }
}

/// Gives its bytes, at most this many at a read, and fails at some reads.
#[derive(Drop)]
pub(crate) struct PartReader<'a> {
    rest: &'a [u8],
    part: usize,
    failure: Failure,
    /// How many reads there were.
    pub(crate) reads: u32,
}

impl<'a> PartReader<'a> {
    /// Gives at least one byte at a read, where one is left.
    pub(crate) fn new(bytes: &'a [u8], part: usize, failure: Failure) -> PartReader<'a> {
        PartReader {
            rest: bytes,
            part,
            failure,
            reads: 0,
        }
    }
}

impl Read for PartReader<'_> {
    ghost remaining = { λ reader. Some reader.rest.now };

    fn read(&mut self, buf: &mut [u8]) -> Result<usize> {
        self.reads = self.reads.saturating_add(1);
        self.failure.meet(self.reads)?;
        let room = buf.len().min(self.part.max(1));
        self.rest.read(&mut buf[..room])
    }
}

/// Takes bytes, at most this many at a write, and fails at some writes.
#[derive(Drop)]
pub(crate) struct PartWriter {
    taken: Vec<u8>,
    part: usize,
    failure: Failure,
    /// How many writes there were.
    pub(crate) writes: u32,
    flushes: u32,
    flushed: usize,
    /// Whether each flush fails.
    pub(crate) fails_flush: bool,
}

impl PartWriter {
    /// Takes no byte at all where the part is 0.
    pub(crate) fn new(bytes: Vec<u8>, part: usize, failure: Failure) -> PartWriter {
        PartWriter {
            taken: bytes,
            part,
            failure,
            writes: 0,
            flushes: 0,
            flushed: 0,
            fails_flush: false,
        }
    }

    /// The bytes that it holds.
    pub(crate) fn taken(&self) -> &[u8] {
        self.taken.as_slice()
    }

    /// How many flushes there were, and how many bytes it held at the last one.
    pub(crate) fn flushes(&self) -> (u32, usize) {
        (self.flushes, self.flushed)
    }
}

impl Write for PartWriter {
    ghost contents = { λ writer. Some writer.taken.items };

    fn write(&mut self, buf: &[u8]) -> Result<usize> {
        self.writes = self.writes.saturating_add(1);
        self.failure.meet(self.writes)?;
        let part = &buf[..buf.len().min(self.part)];
        if self.taken.extend_from_slice(part).is_err() {
            return Err(Error::from(ErrorKind::OutOfMemory));
        }
        Ok(part.len())
    }

    fn flush(&mut self) -> Result<()> {
        self.flushes = self.flushes.saturating_add(1);
        self.flushed = self.taken.len();
        if self.fails_flush {
            return Err(Error::from(ErrorKind::Other));
        }
        Ok(())
    }
}
