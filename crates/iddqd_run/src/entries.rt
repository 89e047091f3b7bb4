//! The entries that lines put into a map, and the replies to lines.
ghost use Rattle.std.specs.Prelude.{◌≡◌, ◌++◌, ◌∷◌, [], IfOk, OnOk, Some, true, nat_lt, codes, decimal};
ghost use Rattle.iddqd_run.specs.Answer.{list_text};
ghost use Rattle.iddqd_run.specs.Shown.{AppendsBytes, entry_of, line_of, refusals_of, reply_text};

use crate::by_name::Keeps;
use iddqd::{IdHashItem, IdOrdItem, Visit};
use std::alloc::AllocError;
use std::fmt::{self, Display, Formatter, Write};
use std::mem;

/// A name and its value.
#[derive(Drop)]
pub(crate) struct Entry {
    pub(crate) name: String,
    pub(crate) value: u64,
}

impl IdOrdItem for Entry {
    type Key = String;

    ghost key = { λ entry. entry.name };

    fn key(&self) -> &String {
        &self.name
    }
}

impl IdHashItem for Entry {
    type Key = String;

    ghost key = { λ entry. entry.name };

    fn key(&self) -> &String {
        &self.name
    }
}

/// Writes its value to an entry, and has the entry's own then.
#[derive(Drop)]
pub(crate) struct ValueExchange {
    pub(crate) value: u64,
}

impl Visit<Entry> for ValueExchange {
    ghost visits = { λ exchange entry. (record exchange { value = entry.value }, record entry { value = exchange.value }, true) };

    fn visit(&mut self, entry: &mut Entry) -> bool {
        mem::swap(&mut self.value, &mut entry.value);
        true
    }
}

/// Keeps the entries of greater value.
#[derive(Drop)]
pub(crate) struct Above {
    pub(crate) value: u64,
}

impl Keeps<Entry> for Above {
    ghost keeps = { λ least entry. nat_lt least.value entry.value };

    fn keeps(&self, entry: &Entry) -> bool {
        self.value < entry.value
    }
}

/// The reply to a line.
#[derive(Clone, Copy)]
pub(crate) enum LineReply<'a> {
    Added,
    Duplicate {
        name: &'a str,
        value: u64,
    },
    New,
    Replaced(u64),
    Found(u64),
    Removed(u64),
    Named {
        name: &'a str,
        value: u64,
    },
    AddedAll(usize),
    DuplicateAfter {
        name: &'a str,
        value: u64,
        count: usize,
    },
    Absent,
    Within,
    Set(u64),
    Kept {
        kept: usize,
        dropped: usize,
    },
    Length(usize),
    Done,
    Unsupported,
    Bad,
    RefusedCapacity,
    RefusedMemory,
}

impl LineReply<'_> {
    /// 1 if memory was refused, and else 0.
    pub(crate) fn refusals(&self) -> u64
        ensures { result ≡ refusals_of self.now }
    {
        match self {
            LineReply::RefusedMemory => 1,
            _ => 0,
        }
    }
}

impl Display for LineReply<'_> {
    ghost output = { λ reply. Some (reply_text reply) };

    fn fmt<W: Write>(&self, f: &mut Formatter<W>) -> fmt::Result {
        match self {
            LineReply::Added => write!(f, "added"),
            LineReply::Duplicate { name, value } => write!(f, "duplicate {name} {value}"),
            LineReply::New => write!(f, "new"),
            LineReply::Replaced(value) => write!(f, "replaced {value}"),
            LineReply::Found(value) => write!(f, "{value}"),
            LineReply::Removed(value) => write!(f, "removed {value}"),
            LineReply::Named { name, value } => write!(f, "{name} {value}"),
            LineReply::AddedAll(count) => write!(f, "added {count}"),
            LineReply::DuplicateAfter { name, value, count } => {
                write!(f, "duplicate {name} {value} after {count}")
            }
            LineReply::Absent => write!(f, "none"),
            LineReply::Within => write!(f, "within"),
            LineReply::Set(value) => write!(f, "set {value}"),
            LineReply::Kept { kept, dropped } => write!(f, "kept {kept} dropped {dropped}"),
            LineReply::Length(count) => write!(f, "{count}"),
            LineReply::Done => write!(f, "ok"),
            LineReply::Unsupported => write!(f, "unsupported"),
            LineReply::Bad => write!(f, "bad"),
            LineReply::RefusedCapacity => write!(f, "refused capacity"),
            LineReply::RefusedMemory => write!(f, "refused memory"),
        }
    }
}

/// Writes the reply as a line of its own, and returns how many refusals of memory it reports.
pub(crate) fn write_reply(text: &mut String, reply: LineReply<'_>) -> Result<u64, AllocError>
    ensures refusals { IfOk result (λ refusals. refusals ≡ refusals_of reply.entry) }
    ensures line { OnOk result (AppendsBytes (line_of (reply_text reply.entry)) text.old text.new) }
{
    writeln!(text, "{reply}")?;
    Ok(reply.refusals())
}

/// Begins a list of this many entries.
pub(crate) fn begin_list(text: &mut String, count: usize) -> Result<(), AllocError>
    ensures { OnOk result (AppendsBytes (codes "list " ++ decimal count) text.old text.new) }
{
    write!(text, "list {count}")?;
    Ok(())
}

/// Writes one entry of a list.
pub(crate) fn write_entry(text: &mut String, entry: &Entry) -> Result<(), AllocError>
    ensures { OnOk result (AppendsBytes (list_text (entry_of entry.now ∷ [])) text.old text.new) }
{
    let Entry { name, value } = entry;
    write!(text, " {name}={value}")?;
    Ok(())
}
