//! `run` with a request refused: the commands come back, or the replies are one of the rows that a refusal allows.
ghost use Rattle.std.specs.Prelude.{nat_eq};
ghost use Rattle.iddqd.specs.Visiting.{VisitsKeepKeys};

use crate::prelude::*;
use test_support::kept::make_kept;
use test_support::rows;
use test_support::words::{Word, tell, word_of};

fn value(kept: &Option<Kept>) -> u32 {
    kept.as_ref().map_or(0, |kept| *kept.value)
}

// What the replies say: a word each, the values of the items that they show, 0 for none, and counts. The length has to be
// that of the others.
fn text_of(alloc: Global, replies: &[Reply<Kept>], others: usize) -> Result<String, AllocError> {
    let mut text = String::new(alloc);
    for reply in replies {
        match reply {
            Reply::Inserted => write!(text, "inserted, ")?,
            Reply::Duplicate { new, existing } => {
                write!(text, "duplicate {} {}, ", *new.value, value(existing))?
            }
            Reply::Replaced(kept) => write!(text, "replaced {}, ", *kept.value)?,
            Reply::Found(kept) => write!(text, "found {}, ", *kept.value)?,
            Reply::Removed(kept) => write!(text, "removed {}, ", *kept.value)?,
            Reply::Length(count) if *count == others => write!(text, "others")?,
            Reply::Done => write!(text, "done, ")?,
            Reply::Extended(count) => write!(text, "extended {count}, ")?,
            Reply::Conflict {
                new,
                existing,
                after,
            } => {
                let (new, existing) = (*new.value, value(existing));
                write!(text, "conflict {new} {existing} {after}, ")?
            }
            Reply::Stopped { item, error, after } if !error.is_capacity_overflow() => {
                write!(text, "stopped {} {after}, ", value(item))?
            }
            Reply::Refused { item, error } if !error.is_capacity_overflow() => {
                write!(text, "refused {}, ", value(item))?
            }
            _ => write!(text, "other, ")?,
        }
    }
    Ok(text)
}

// A word, what the six replies say, and whether a request was refused.
type Row = (&'static str, (&'static str, bool));

static ROWS: [Row; 4] = rows! {
    "answered": ("inserted, duplicate 2 1, found 1, replaced 1, removed 3, others", false);
    "insertion_refused": ("refused 1, inserted, found 2, replaced 2, removed 3, others", true);
    "duplicate_not_shown": ("inserted, duplicate 2 0, found 1, replaced 1, removed 3, others", true);
    "clone_refused": ("inserted, duplicate 2 1, refused 0, replaced 1, removed 3, others", true);
};

// If the first item is not in, the second is. If a shrink is refused, the store keeps its room, and the reply does not
// say so.
static BULK_ROWS: [Row; 7] = rows! {
    "answered": ("extended 1, conflict 2 1 0, done, done, removed 1, others", false);
    "shrunk_without": ("extended 1, conflict 2 1 0, done, done, removed 1, others", true);
    "none_added": ("stopped 0 0, extended 1, done, done, removed 2, others", true);
    "added_back": ("stopped 1 0, extended 1, done, done, removed 2, others", true);
    "conflict_not_shown": ("extended 1, conflict 2 0 0, done, done, removed 1, others", true);
    "room_refused": ("extended 1, conflict 2 1 0, refused 0, done, removed 1, others", true);
    "shrink_refused": ("extended 1, conflict 2 1 0, done, refused 0, removed 1, others", true);
};

type Swept = (Vec<Command<Kept, u32, Untouched>>, &'static [Row]);

// Six commands, all of one name, and the rows of their replies.
fn commands(alloc: Global) -> Result<Swept, AllocError> {
    let commands = [
        Command::InsertUnique(make_kept(alloc, 1)?),
        Command::InsertUnique(make_kept(alloc, 2)?),
        Command::Get(7),
        Command::InsertOverwrite(make_kept(alloc, 3)?),
        Command::Remove(7),
        Command::Len,
    ];
    Ok((Vec::from_array(alloc, commands)?, &ROWS))
}

// Six more, of the same name: many items at once, and room.
fn bulk_commands(alloc: Global) -> Result<Swept, AllocError> {
    let commands = [
        Command::ExtendUnique(Vec::from_array(alloc, [make_kept(alloc, 1)?])?),
        Command::ExtendUnique(Vec::from_array(alloc, [make_kept(alloc, 2)?])?),
        Command::Reserve(100),
        Command::Shrink,
        Command::Remove(7),
        Command::Len,
    ];
    Ok((Vec::from_array(alloc, commands)?, &BULK_ROWS))
}

// Runs the commands with a request refused. Commands that come back are run again. In the end the map has the others that
// it had before.
fn swept_run<M: KeyedMap<Item = Kept, Key = u32>>(
    alloc: Global,
    map: &mut M,
    others: usize,
    swept: Swept,
) -> Word
    requires keyed { M.keyed map.old }
    requires keeps_keys { VisitsKeepKeys M.key nat_eq ⟦<Untouched as Visit<Kept>>⟧.visits }
{
    let (commands, rows) = swept;
    arm(alloc);
    let outcome = run(alloc, map, commands);
    let is_met = is_met(alloc);
    if map.len() != others {
        return Err(Fail::from("an item is gone, or stays"));
    }
    let (replies, is_back) = match outcome {
        Ok(replies) => (replies, false),
        Err(stop) => match run(alloc, map, stop.commands) {
            Ok(replies) => (replies, true),
            Err(_) => return Err(Fail::from("no memory for the replies")),
        },
    };
    let text = text_of(alloc, replies.as_slice(), others)?;
    let word = word_of(rows, &(text.as_str(), is_met && !is_back))?;
    if is_back && !(is_met && word == "answered") {
        return Err(Fail::from("the commands did not come back whole"));
    }
    Ok(if is_back { "commands_back" } else { word })
}

#[test]
fn run_of_commands(rt: HostRuntime) -> Result<(), Fail> {
    let map = &mut IdOrdMap::new(rt.alloc());
    tell(&rt, swept_run(rt.alloc(), map, 0, commands(rt.alloc())?))
}

#[test]
fn hash_run_of_commands(rt: HostRuntime) -> Result<(), Fail> {
    let map = &mut IdHashMap::new(rt.alloc());
    tell(&rt, swept_run(rt.alloc(), map, 0, commands(rt.alloc())?))
}

// The map has eleven items of other names, as many as a node has room for. The store and the node are full, so both ask
// for memory.
#[test]
fn run_of_bulk_commands(rt: HostRuntime) -> Result<(), Fail> {
    let (alloc, commands) = (rt.alloc(), bulk_commands(rt.alloc())?);
    let mut map = Ordered::new(IdOrdMap::with_capacity(alloc, 11)?);
    for name in 8..19 {
        let value = Box::new(alloc, 0)?;
        let _ = map.is_put(Kept { name, value });
    }
    tell(&rt, swept_run(alloc, &mut map.into_map(), 11, commands))
}

#[test]
fn hash_run_of_bulk_commands(rt: HostRuntime) -> Result<(), Fail> {
    let (alloc, commands) = (rt.alloc(), bulk_commands(rt.alloc())?);
    let map = &mut IdHashMap::new(alloc);
    tell(&rt, swept_run(alloc, map, 0, commands))
}
