//! What a line asks of the whole table or of its ends, and its reply.
ghost use Rattle.std.specs.Prelude.{◌≡◌, IfOk, option_copied, option_map};
ghost use Rattle.iddqd_run.specs.Answer.{end_text};
ghost use Rattle.idtable_lines.specs.Parsed.{end_asked};
ghost use Rattle.idtable_lines.specs.Lines.{ListAll, First, Last, PopFirst, PopLast};
ghost use Rattle.iddqd_run.specs.Shown.{AnswersRequest, Replies, entry_of, refusals_of, reply_text};

use crate::by_name::{ByName, ListStop, NoEnds};
use crate::entries::{Entry, LineReply, write_reply};
use crate::table::Table;
use idtable_lines::End;
use std::alloc::{AllocError, Global};

impl<M: ByName<Item = Entry, Key = String>> Table<M> {
    /// `list`: every entry, by ascending name. A map that keeps no order allocates to sort them.
    pub(crate) fn list(&self, alloc: Global, text: &mut String) -> Result<u64, AllocError>
        ensures { IfOk result (Replies M.kind ListAll self.now self.now text.old text.new) }
    {
        match self.map.write_list(alloc, text) {
            Ok(()) => {
                text.push('\n')?;
                Ok(0)
            }
            Err(ListStop::Entries) => write_reply(text, LineReply::RefusedMemory),
            Err(ListStop::Text) => Err(AllocError),
        }
    }

    /// Writes the reply to a request for the entry at an end.
    pub(crate) fn at_end(&mut self, end: End, text: &mut String) -> Result<u64, AllocError>
        ensures { IfOk result (Replies M.kind (end_asked end) self.old self.new text.old text.new) }
    {
        match end {
            End::First => write_reply(text, self.first()),
            End::Last => write_reply(text, self.last()),
            End::PopFirst => self.pop_first(text),
            End::PopLast => self.pop_last(text),
        }
    }

    // `first`: the entry of the least name.
    fn first(&self) -> LineReply<'_>
        ensures { AnswersRequest M.kind First self.now result self.now }
    {
        match self.map.least() {
            Ok(entry) => end_reply(entry),
            Err(NoEnds) => LineReply::Unsupported,
        }
    }

    // `last`: the entry of the greatest name.
    fn last(&self) -> LineReply<'_>
        ensures { AnswersRequest M.kind Last self.now result self.now }
    {
        match self.map.greatest() {
            Ok(entry) => end_reply(entry),
            Err(NoEnds) => LineReply::Unsupported,
        }
    }

    // `popfirst`: removes the entry of the least name.
    fn pop_first(&mut self, text: &mut String) -> Result<u64, AllocError>
        ensures { IfOk result (Replies M.kind PopFirst self.old self.new text.old text.new) }
    {
        match self.map.take_least() {
            Ok(taken) => write_reply(text, end_reply(taken.as_ref())),
            Err(NoEnds) => write_reply(text, LineReply::Unsupported),
        }
    }

    // `poplast`: removes the entry of the greatest name.
    fn pop_last(&mut self, text: &mut String) -> Result<u64, AllocError>
        ensures { IfOk result (Replies M.kind PopLast self.old self.new text.old text.new) }
    {
        match self.map.take_greatest() {
            Ok(taken) => write_reply(text, end_reply(taken.as_ref())),
            Err(NoEnds) => write_reply(text, LineReply::Unsupported),
        }
    }
}

// The reply that shows the entry at an end, if there is one.
fn end_reply(end: Option<&Entry>) -> LineReply<'_>
    ensures text { reply_text result ≡ end_text (option_map entry_of (option_copied end.entry)) }
    ensures plain { refusals_of result ≡ 0 }
{
    match end {
        Some(entry) => LineReply::Named {
            name: entry.name.as_str(),
            value: entry.value,
        },
        None => LineReply::Absent,
    }
}
