//! The replies to a text, line by line, over a map of either kind.
ghost use Rattle.std.specs.Prelude.{◌≡◌, [], IfOk};
ghost use Rattle.idtable_lines.specs.Parsed.{request_asked};
ghost use Rattle.iddqd_run.specs.Shown.{AnswersAsText, AnswersRequest, RepliesTo};

use crate::by_name::ByName;
use crate::entries::{Entry, LineReply, write_reply};
use crate::table::Table;
use idtable_lines::{Line, Request, first_line, parse};
use std::alloc::{AllocError, Global};

/// Returns the replies to a text, from a table without entries, and how many of its lines were refused memory.
pub(crate) fn answer<M: ByName<Item = Entry, Key = String> + Drop>(
    alloc: Global,
    mut table: Table<M>,
    input: &[u8],
) -> Result<(String, u64), AllocError>
    requires empty { table ≡ [] }
    ensures { IfOk result (AnswersAsText M.kind input.now) }
{
    let mut text = String::new(alloc);
    let mut refusals = 0;
    let mut rest = input;
    while !rest.is_empty() {
        let (line, after) = first_line(rest);
        refusals += table.answer_line(alloc, parse(line), &mut text)?;
        rest = after;
    }
    Ok((text, refusals))
}

impl<M: ByName<Item = Entry, Key = String>> Table<M> {
    // Writes the reply to one line, and returns how many refusals of memory it reports. Beside the text, memory is for
    // new entries, for the list of a map that keeps no order, and for room.
    fn answer_line(
        &mut self,
        alloc: Global,
        line: Line<'_>,
        text: &mut String,
    ) -> Result<u64, AllocError>
        ensures { IfOk result (RepliesTo M.kind line.entry self.old self.new text.old text.new) }
    {
        match line {
            Line::Request(request) => write_reply(text, self.reply_to(alloc, request)),
            Line::AddAll { fields } => self.add_all(alloc, fields, text),
            Line::List => self.list(alloc, text),
            Line::End(end) => self.at_end(end, text),
            Line::Bad => write_reply(text, LineReply::Bad),
        }
    }

    // Returns the reply to a request.
    fn reply_to<'a>(&mut self, alloc: Global, request: Request<'a>) -> LineReply<'a>
        ensures { AnswersRequest M.kind (request_asked request.entry) self.old result self.new }
    {
        match request {
            Request::Add(pair) => self.add(alloc, pair.name, pair.value),
            Request::Put(pair) => self.put(alloc, pair.name, pair.value),
            Request::Get(name) => self.get(name),
            Request::Del(name) => self.delete(name),
            Request::Cost(name) => self.cost(name),
            Request::Set(pair) => self.set(pair.name, pair.value),
            Request::Keep(value) => self.keep(value),
            Request::Reserve(value) => self.reserve(value),
            Request::Shrink => self.shrink(),
            Request::Len => self.len(),
        }
    }
}
