//! From a reader to a writer.
ghost use Rattle.std.specs.Prelude.{◌≡◌, ◌≢◌, OnOk, OnErr, IfOk, IfErr};
ghost use Rattle.std.specs.Io.KnownBytes.{Appends, IsAtEnd};
ghost use Rattle.iddqd_run.specs.Served.{AppendsBeginning, ReadsBeginning, ReadsInto, ServesAll, ServesBeginning, WritesNothing};
ghost use Rattle.iddqd_run.specs.Words.{text_for};

use crate::answering::answer;
use crate::table::Table;
use iddqd::{IdHashMap, IdOrdMap};
use idtable_lines::Kind;
use std::alloc::Global;
use std::io::{ErrorKind, Read, Write};

/// Why no reply was written, or not all.
#[derive(Clone, Copy, Debug, PartialEq, Eq)]
pub enum Fault {
    /// The reader failed, or its end had not come after 4,294,967,295 reads.
    Read,
    /// The writer failed. A beginning of the text may be out.
    Write,
    /// Memory was refused for the input or for the text.
    Memory,
}

/// Returns the words for a fault, which the program writes to standard error.
pub fn fault_text(fault: &Fault) -> &'static str
    ensures { result.now ≡ text_for fault.now }
{
    match fault {
        Fault::Read => "read failed",
        Fault::Write => "write failed",
        Fault::Memory => "no memory",
    }
}

/// Reads all input, replies to each line from the entries so far, writes the whole text, and flushes the writer. It
/// returns how many lines were refused memory. After `Fault::Read` and `Fault::Memory` nothing was written, and what
/// was read is a beginning of the input. After `Fault::Write` all input was read, and a beginning of the text was
/// written or all of it. A read or a write that is interrupted is made again. The
/// kind of map decides only whether it has ends, and whether `list` can be refused memory. Over a hash map the
/// reply to `first`, `last`, `popfirst` and `poplast` is `unsupported`, and `list` allocates to sort the entries.
/// The whole input and the whole text are in memory at once.
pub fn serve<R: Read, W: Write>(
    alloc: Global,
    kind: Kind,
    reader: &mut R,
    writer: &mut W,
) -> Result<u64, Fault>
    ensures answered { IfOk result (ServesAll R.remaining W.contents kind reader.old reader.new writer.old writer.new) }
    ensures begun { IfErr result (ServesBeginning R.remaining W.contents kind reader.old reader.new writer.old writer.new) }
    ensures unwritten { IfErr result (WritesNothing W.contents writer.old writer.new) }
    ensures read { ReadsBeginning R.remaining reader.old reader.new }
{
    let input = read_whole(alloc, reader)?;
    let answered = match kind {
        Kind::Hash => {
            let map = IdHashMap::new(alloc);
            answer(alloc, Table { map }, input.as_slice())
        }
        Kind::Ord => {
            let map = IdOrdMap::new(alloc);
            answer(alloc, Table { map }, input.as_slice())
        }
    };
    let Ok((text, refusals)) = answered else {
        return Err(Fault::Memory);
    };
    write_whole(writer, text.as_bytes())?;
    if writer.flush().is_err() {
        return Err(Fault::Write);
    }
    Ok(refusals)
}

// The reader's bytes to its end, a large chunk at a time.
fn read_whole<R: Read>(alloc: Global, reader: &mut R) -> Result<Vec<u8>, Fault>
    ensures bytes { IfOk result (ReadsInto R.remaining reader.old reader.new) }
    ensures at_end { OnOk result (IsAtEnd (R.remaining reader.new)) }
    ensures read { ReadsBeginning R.remaining reader.old reader.new }
    ensures fault { IfErr result (λ fault. fault ≢ Fault.Write) }
{
    let mut input = Vec::new(alloc);
    let mut chunk = [0u8; 65536];
    for _ in 0..u32::MAX {
        match reader.read(&mut chunk) {
            Ok(0) => return Ok(input),
            Ok(count) => {
                if input.extend_from_slice(&chunk[..count]).is_err() {
                    return Err(Fault::Memory);
                }
            }
            Err(error) => {
                if error.kind() != ErrorKind::Interrupted {
                    return Err(Fault::Read);
                }
            }
        }
    }
    Err(Fault::Read)
}

// Writes the text, and nothing more after a write that failed.
fn write_whole<W: Write>(writer: &mut W, text: &[u8]) -> Result<(), Fault>
    ensures whole { OnOk result (Appends (W.contents writer.old) (W.contents writer.new) text.now) }
    ensures begun { OnErr result (AppendsBeginning W.contents writer.old writer.new text.now) }
    ensures fault { IfErr result (λ fault. fault ≡ Fault.Write) }
{
    let mut rest = text;
    for _ in 0..u64::MAX {
        if rest.is_empty() {
            return Ok(());
        }
        match writer.write(rest) {
            Ok(0) => return Err(Fault::Write),
            Ok(count) => rest = &rest[count..],
            Err(error) => {
                if error.kind() != ErrorKind::Interrupted {
                    return Err(Fault::Write);
                }
            }
        }
    }
    Err(Fault::Write)
}
