//! What `serve` asks of its reader and its writer, and what it does where one fails.
use crate::prelude::check;
use crate::serve::parts::{Failure, PartReader, PartWriter};
use iddqd_run::{FailingReader, FailingWriter, Fault, Kind, serve};
use std::alloc::{AllocError, Global};
use std::io::ErrorKind;
use std::process::Abort;
use std::test::Fail;

const LINES: &[u8] = b"add bob 2\nadd bob 9\nget bob\ndel bob\nlen\n";

const ANSWER: &[u8] = b"added\nduplicate bob 2\n2\nremoved 2\n0\n";

// What `serve` returns for the lines if the read and the write of these numbers fail, and what was written.
fn served_failing(
    alloc: Global,
    kind: Kind,
    read: u32,
    write: u32,
) -> Result<(Result<u64, Fault>, FailingWriter), AllocError> {
    let mut lines = Vec::new(alloc);
    lines.extend_from_slice(LINES)?;
    let mut reader = FailingReader::new(lines, read);
    let mut writer = FailingWriter::new(Vec::new(alloc), write);
    let outcome = serve(alloc, kind, &mut reader, &mut writer);
    Ok((outcome, writer))
}

#[test]
fn failing_read(rt: HostRuntime) -> Result<(), Fail> {
    for kind in [Kind::Hash, Kind::Ord] {
        let (outcome, writer) = served_failing(rt.alloc(), kind, 1, 0)?;
        check(&rt, outcome == Err(Fault::Read));
        check(&rt, writer.taken().is_empty());
    }
    Ok(())
}

#[test]
fn failing_write(rt: HostRuntime) -> Result<(), Fail> {
    for kind in [Kind::Hash, Kind::Ord] {
        let (outcome, _) = served_failing(rt.alloc(), kind, 0, 1)?;
        check(&rt, outcome == Err(Fault::Write));
    }
    Ok(())
}

#[test]
fn no_failure(rt: HostRuntime) -> Result<(), Fail> {
    for kind in [Kind::Hash, Kind::Ord] {
        let (outcome, writer) = served_failing(rt.alloc(), kind, 0, 0)?;
        check(&rt, outcome == Ok(0));
        check(&rt, writer.taken() == ANSWER);
    }
    Ok(())
}

// How many bytes a write takes at most.
const PART: usize = 8;

// What `serve` returns for the lines, with some reads and writes failing, and its reader and writer afterwards.
fn served(
    alloc: Global,
    read: Failure,
    write: Failure,
) -> (Result<u64, Fault>, PartReader<'static>, PartWriter) {
    let mut reader = PartReader::new(LINES, usize::MAX, read);
    let mut writer = PartWriter::new(Vec::new(alloc), PART, write);
    let outcome = serve(alloc, Kind::Ord, &mut reader, &mut writer);
    (outcome, reader, writer)
}

#[test]
fn flushes_after_writing(rt: HostRuntime) {
    let (outcome, _, writer) = served(rt.alloc(), Failure::Never, Failure::Never);
    check(&rt, outcome == Ok(0));
    check(&rt, writer.taken() == ANSWER);
    check(&rt, writer.flushes() == (1, ANSWER.len()));
    let mut reader = LINES;
    let mut writer = PartWriter::new(Vec::new(rt.alloc()), PART, Failure::Never);
    writer.fails_flush = true;
    let outcome = serve(rt.alloc(), Kind::Ord, &mut reader, &mut writer);
    check(&rt, outcome == Err(Fault::Write));
}

#[test]
fn stops_reading_at_an_error(rt: HostRuntime) {
    for at in [1, 2] {
        let failure = Failure::At(at, ErrorKind::Other);
        let (outcome, reader, writer) = served(rt.alloc(), failure, Failure::Never);
        check(&rt, outcome == Err(Fault::Read));
        check(&rt, reader.reads == at);
        check(&rt, (writer.writes, writer.flushes()) == (0, (0, 0)));
        let failure = Failure::At(at, ErrorKind::Interrupted);
        let (outcome, reader, writer) = served(rt.alloc(), failure, Failure::Never);
        check(&rt, outcome == Ok(0));
        check(&rt, reader.reads == 3);
        check(&rt, writer.taken() == ANSWER);
    }
}

#[test]
fn writes_nothing_more_after_a_failure(rt: HostRuntime) {
    for at in [1, 2, 4] {
        let failure = Failure::At(at, ErrorKind::Other);
        let (outcome, _, writer) = served(rt.alloc(), Failure::Never, failure);
        check(&rt, outcome == Err(Fault::Write));
        check(&rt, (writer.writes, writer.flushes()) == (at, (0, 0)));
        check(&rt, writer.taken() == &ANSWER[..(at as usize - 1) * PART]);
        let failure = Failure::At(at, ErrorKind::Interrupted);
        let (outcome, _, writer) = served(rt.alloc(), Failure::Never, failure);
        check(&rt, outcome == Ok(0));
        check(&rt, writer.taken() == ANSWER);
    }
}

// The lines have these replies if reads and writes are of this many bytes and meet such failures.
fn serve_in_parts(rt: &impl Abort, alloc: Global, part: usize, failure: Failure) {
    for kind in [Kind::Hash, Kind::Ord] {
        let mut reader = PartReader::new(LINES, part, failure);
        let mut writer = PartWriter::new(Vec::new(alloc), part, failure);
        let outcome = serve(alloc, kind, &mut reader, &mut writer);
        check(rt, outcome == Ok(0));
        check(rt, writer.taken() == ANSWER);
    }
}

#[test]
fn one_byte_at_a_time(rt: HostRuntime) {
    serve_in_parts(&rt, rt.alloc(), 1, Failure::Never);
    serve_in_parts(&rt, rt.alloc(), 1, Failure::Interruptions);
    serve_in_parts(&rt, rt.alloc(), 7, Failure::Interruptions);
}

// More bytes than 16 bits number, each read and each written by a call of its own: lines of one letter, which are bad.
fn lines_of_letters(alloc: Global) -> Result<Vec<u8>, AllocError> {
    let mut lines = Vec::new(alloc);
    for _ in 0..35_000 {
        lines.extend_from_slice(b"x\n")?;
    }
    Ok(lines)
}

#[test]
fn many_bytes_one_at_a_time(rt: HostRuntime) -> Result<(), Fail> {
    let lines = lines_of_letters(rt.alloc())?;
    for kind in [Kind::Hash, Kind::Ord] {
        let mut reader = PartReader::new(lines.as_slice(), 1, Failure::Never);
        let mut writer = PartWriter::new(Vec::new(rt.alloc()), 1, Failure::Never);
        let outcome = serve(rt.alloc(), kind, &mut reader, &mut writer);
        check(&rt, outcome == Ok(0));
        check(&rt, (reader.reads, writer.writes) == (70_001, 140_000));
        check(&rt, writer.taken().len() == 140_000);
        let mut lines = writer.taken().chunks(4);
        check(&rt, lines.all(|line| line == b"bad\n".as_slice()));
    }
    Ok(())
}

#[test]
fn writer_that_takes_no_byte(rt: HostRuntime) {
    for kind in [Kind::Hash, Kind::Ord] {
        let mut reader = LINES;
        let mut writer = PartWriter::new(Vec::new(rt.alloc()), 0, Failure::Never);
        let outcome = serve(rt.alloc(), kind, &mut reader, &mut writer);
        check(&rt, outcome == Err(Fault::Write));
        check(&rt, writer.taken().is_empty());
    }
}
