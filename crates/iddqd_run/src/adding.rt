//! The line that adds many entries, and its reply.
ghost use Rattle.std.specs.Prelude.{◌≡◌, IfOk, is_some, if◌then◌else◌};
ghost use Rattle.idtable_lines.specs.Lines.{pairs_of, words_of};
ghost use Rattle.iddqd_run.specs.Shown.{AddsAll, AddsEach, IsPairs};
ghost use Rattle.iddqd_run.specs.declared.entries.LineReply.TheVariants.{RefusedMemory, Bad};

use crate::by_name::ByName;
use crate::entries::{Entry, LineReply, write_reply};
use crate::requests::{no_room, value_of};
use crate::table::Table;
use iddqd::errors::ExtendUniqueError;
use idtable_lines::{Pair, first_pair};
use std::alloc::{AllocError, Global};

impl<M: ByName<Item = Entry, Key = String>> Table<M> {
    /// `addall`: makes all entries, and then inserts them one after the other.
    pub(crate) fn add_all(
        &mut self,
        alloc: Global,
        fields: &[u8],
        text: &mut String,
    ) -> Result<u64, AllocError>
        ensures { IfOk result (AddsAll M.kind fields.now self.old self.new text.old text.new) }
    {
        match entries_in(alloc, fields) {
            Ok(Some(entries)) => self.add_entries(entries, text),
            Ok(None) => write_reply(text, LineReply::Bad),
            Err(_) => write_reply(text, not_made(fields)),
        }
    }

    // Inserts the entries, one after the other, up to one whose name is there by then, or a full map.
    fn add_entries(&mut self, entries: Vec<Entry>, text: &mut String) -> Result<u64, AllocError>
        ensures { IfOk result (AddsEach M.kind entries.items self.old self.new text.old text.new) }
    {
        let before = self.map.len();
        let count = entries.len();
        match self.map.extend_unique(entries) {
            Ok(()) => write_reply(text, LineReply::AddedAll(count)),
            Err(ExtendUniqueError::Duplicate(duplicate)) => {
                let (new, shown) = duplicate.into_parts();
                let value = value_of(&shown);
                let count = self.map.len() - before;
                let name = new.name.as_str();
                write_reply(text, LineReply::DuplicateAfter { name, value, count })
            }
            Err(ExtendUniqueError::Refused(refused)) => write_reply(text, no_room(refused.error)),
        }
    }
}

// The entries of the pairs that the fields are, if they follow the form.
fn entries_in(alloc: Global, fields: &[u8]) -> Result<Option<Vec<Entry>>, AllocError>
    ensures { IfOk result (IsPairs fields.now) }
{
    let mut entries = Vec::new(alloc);
    let mut left = Some(fields);
    while let Some(some) = left {
        let Some(Pair { name, value, rest }) = first_pair(some) else {
            return Ok(None);
        };
        let name = String::from_str(alloc, name)?;
        entries.push(Entry { name, value })?;
        left = rest;
    }
    Ok(Some(entries))
}

// The reply if an entry could not be made: fields that follow no form are bad all the same.
fn not_made<'a>(fields: &[u8]) -> LineReply<'a>
    ensures { result ≡ (if is_some (pairs_of (words_of fields.now)) then RefusedMemory else Bad) }
{
    let mut left = Some(fields);
    while let Some(some) = left {
        let Some(pair) = first_pair(some) else {
            return LineReply::Bad;
        };
        left = pair.rest;
    }
    LineReply::RefusedMemory
}
