//! What a line asks of a table, and its reply.
ghost use Rattle.std.specs.Prelude.{◌≡◌, ◌≢◌, ℕ, ◌+◌, ◌≤◌, List, length, string_bytes};
ghost use Rattle.iddqd.specs.Errors.{values_of};
ghost use Rattle.iddqd.specs.Refusal.{IsOnly, reservation_kind};
ghost use Rattle.idtable_lines.specs.Lines.{Add, Put, Get, Del, Cost, Set, Keep, Reserve, Shrink, Len};
ghost use Rattle.iddqd_run.specs.Shown.{AnswersRequest, ShowsNoRoom, no_space_reply};
ghost use Rattle.iddqd_run.specs.declared.entries.Entry.{Entry};
ghost use Rattle.iddqd_run.specs.declared.entries.LineReply.TheVariants.{RefusedMemory};

use crate::by_name::ByName;
use crate::entries::{Above, Entry, LineReply, ValueExchange};
use crate::table::Table;
use iddqd::errors::{Few, InsertError, TryReserveError};
use iddqd::{MAX_ITEMS, Steps};
use std::alloc::Global;

impl<M: ByName<Item = Entry, Key = String>> Table<M> {
    /// `get`: looks the name up. Does not allocate.
    pub(crate) fn get<'a>(&self, name: &'a str) -> LineReply<'a>
        ensures { AnswersRequest M.kind (Get name.now) self.now result self.now }
    {
        match self.map.find(name) {
            Some(entry) => LineReply::Found(entry.value),
            None => LineReply::Absent,
        }
    }

    /// `del`: removes the entry of the name. Does not allocate.
    pub(crate) fn delete<'a>(&mut self, name: &'a str) -> LineReply<'a>
        ensures { AnswersRequest M.kind (Del name.now) self.old result self.new }
    {
        match self.map.take_out(name) {
            Some(entry) => LineReply::Removed(entry.value),
            None => LineReply::Absent,
        }
    }

    /// `cost`: looks the name up, and counts the comparisons. Does not allocate.
    pub(crate) fn cost<'a>(&self, name: &'a str) -> LineReply<'a>
        ensures { AnswersRequest M.kind (Cost name.now) self.now result self.now }
    {
        look_up(&self.map, name, &mut Steps::new());
        LineReply::Within
    }

    /// `set`: writes the value of the entry of the name, through a guard. Does not allocate.
    pub(crate) fn set<'a>(&mut self, name: &'a str, value: u64) -> LineReply<'a>
        ensures { AnswersRequest M.kind (Set name.now value) self.old result self.new }
    {
        let mut exchange = ValueExchange { value };
        match self.map.visit_found(name, &mut exchange) {
            Some(_) => LineReply::Set(exchange.value),
            None => LineReply::Absent,
        }
    }

    /// `keep`: keeps the entries of greater value. Does not allocate.
    pub(crate) fn keep<'a>(&mut self, value: u64) -> LineReply<'a>
        ensures { AnswersRequest M.kind (Keep value) self.old result self.new }
    {
        let before = self.map.len();
        self.map.keep(&Above { value });
        let kept = self.map.len();
        LineReply::Kept {
            kept,
            dropped: before.saturating_sub(kept),
        }
    }

    /// `len`: how many entries there are.
    pub(crate) fn len<'a>(&self) -> LineReply<'a>
        ensures { AnswersRequest M.kind Len self.now result self.now }
    {
        LineReply::Length(self.map.len())
    }

    /// `add`: makes the entry, and then looks for its name.
    pub(crate) fn add<'a>(&mut self, alloc: Global, name: &'a str, value: u64) -> LineReply<'a>
        ensures { AnswersRequest M.kind (Add name.now value) self.old result self.new }
    {
        match String::from_str(alloc, name) {
            Ok(copy) => self.add_entry(name, Entry { name: copy, value }),
            Err(_) => LineReply::RefusedMemory,
        }
    }

    // Inserts the entry of this name, if there is none and the map is not full.
    fn add_entry<'a>(&mut self, name: &'a str, entry: Entry) -> LineReply<'a>
        requires name { string_bytes entry.name ≡ name.now }
        ensures reply { AnswersRequest M.kind (Add name.now entry.value) self.old result self.new }
        ensures not_full { result ≡ RefusedMemory → length self.old ≢ MAX_ITEMS }
    {
        match self.map.insert_unique(entry) {
            Ok(()) => LineReply::Added,
            Err(InsertError::Duplicate(duplicate)) => LineReply::Duplicate {
                name,
                value: value_of(duplicate.duplicates()),
            },
            Err(InsertError::Refused(refused)) => no_room(refused.error),
        }
    }

    /// `put`: makes the entry, and then puts it in the place of the one of its name, if there is one.
    pub(crate) fn put<'a>(&mut self, alloc: Global, name: &'a str, value: u64) -> LineReply<'a>
        ensures { AnswersRequest M.kind (Put name.now value) self.old result self.new }
    {
        match String::from_str(alloc, name) {
            Ok(copy) => self.put_entry(name, Entry { name: copy, value }),
            Err(_) => LineReply::RefusedMemory,
        }
    }

    // Replaces the entry of this name, or inserts it if there is none and the map is not full.
    fn put_entry<'a>(&mut self, name: &'a str, entry: Entry) -> LineReply<'a>
        requires name { string_bytes entry.name ≡ name.now }
        ensures reply { AnswersRequest M.kind (Put name.now entry.value) self.old result self.new }
        ensures not_full { result ≡ RefusedMemory → length self.old ≢ MAX_ITEMS }
    {
        match self.map.insert_overwrite(entry) {
            Ok(Some(old)) => LineReply::Replaced(old.value),
            Ok(None) => LineReply::New,
            Err(refused) => no_room(refused.error),
        }
    }

    /// `reserve`: makes room for this many more entries.
    pub(crate) fn reserve<'a>(&mut self, additional: u64) -> LineReply<'a>
        ensures { AnswersRequest M.kind (Reserve additional) self.old result self.new }
    {
        match self.map.reserve(additional as usize) {
            Ok(()) => LineReply::Done,
            Err(error) => no_room(error),
        }
    }

    /// `shrink`: gives back what memory the entries do not need.
    pub(crate) fn shrink<'a>(&mut self) -> LineReply<'a>
        ensures { AnswersRequest M.kind Shrink self.old result self.new }
    {
        match self.map.shrink() {
            Ok(()) => LineReply::Done,
            Err(_) => LineReply::RefusedMemory,
        }
    }
}

// Looks the name up, within the bound of the map's lookups.
fn look_up<M: ByName>(map: &M, name: &str, steps: &mut Steps)
    requires keyed { M.keyed map.now }
    ensures { steps.new ≤ steps.old + M.most_steps map.now name.now }
{
    let _ = map.find_counted(name, steps);
}

/// The reply if there was no room: for a new entry, or for this many in all.
pub(crate) fn no_room<'a>(error: TryReserveError) -> LineReply<'a>
    ensures entry { ShowsNoRoom error result }
    ensures space { (n : ℕ) → error ≡ reservation_kind MAX_ITEMS n → result ≡ no_space_reply n }
{
    if error.is_capacity_overflow() {
        LineReply::RefusedCapacity
    } else {
        LineReply::RefusedMemory
    }
}

/// The value of the one entry that is lent.
pub(crate) fn value_of(shown: &Few<&Entry>) -> u64
    ensures { (entry : _) → IsOnly (values_of shown.now) entry → result ≡ entry.value }
{
    match shown {
        Few::One(entry) | Few::Two(entry, _) | Few::Three(entry, _, _) => entry.value,
    }
}
