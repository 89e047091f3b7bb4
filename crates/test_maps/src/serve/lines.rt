//! `serve` with a request refused: nothing is written, or the lines whose item was refused say so.
use iddqd_run::{Fault, Kind, serve};
use std::alloc::Global;
use std::test::Fail;
use test_support::heap::{arm, is_met};
use test_support::rows;
use test_support::words::{Word, tell, word_of};

// A word, and what `serve` does then.
type Row = (&'static str, (&'static [u8], Result<u64, Fault>, bool));

type Lines = (&'static [u8], &'static [Row]);

// The text that `serve` writes, with room for it reserved first, what it returns, and whether a request was refused.
type Served = (Vec<u8>, Result<u64, Fault>, bool);

fn served(alloc: Global, kind: Kind, mut lines: &[u8]) -> Result<Served, Fail> {
    let mut text = Vec::with_capacity(alloc, 200)?;
    arm(alloc);
    let outcome = serve(alloc, kind, &mut lines, &mut text);
    Ok((text, outcome, is_met(alloc)))
}

fn word(alloc: Global, kind: Kind, (lines, rows): Lines) -> Word {
    let (text, outcome, is_met) = served(alloc, kind, lines)?;
    word_of(rows, &(text.as_slice(), outcome, is_met))
}

const ONE_NAME: Lines = (
    b"add bob 2\nadd bob 9\nget bob\ndel bob\nlen\n",
    &rows! {
        "answered": (b"added\nduplicate bob 2\n2\nremoved 2\n0\n", Ok(0), false);
        "first_item_refused": (b"refused memory\nadded\n9\nremoved 9\n0\n", Ok(1), true);
        "second_item_refused": (b"added\nrefused memory\n2\nremoved 2\n0\n", Ok(1), true);
        "no_memory": (b"", Err(Fault::Memory), true);
    },
);

// Memory for the item of `add bob 2` is refused: the row of this name comes in some run, as `tools/sweeps` wants it.
#[test]
fn first_item_refused(rt: HostRuntime) -> Result<(), Fail> {
    tell(&rt, word(rt.alloc(), Kind::Ord, ONE_NAME))
}

// The same of `add bob 9`.
#[test]
fn second_item_refused(rt: HostRuntime) -> Result<(), Fail> {
    tell(&rt, word(rt.alloc(), Kind::Ord, ONE_NAME))
}

#[test]
fn hash_lines(rt: HostRuntime) -> Result<(), Fail> {
    tell(&rt, word(rt.alloc(), Kind::Hash, ONE_NAME))
}

const THREE_ITEMS: Lines = (
    b"put a 1\nadd b 2\nput c 3\nlen\n",
    &rows! {
        "answered": (b"new\nadded\nnew\n3\n", Ok(0), false);
        "line_refused": (b"refused memory\nadded\nnew\n2\n", Ok(1), true);
        "line_refused": (b"new\nrefused memory\nnew\n2\n", Ok(1), true);
        "line_refused": (b"new\nadded\nrefused memory\n2\n", Ok(1), true);
        "no_memory": (b"", Err(Fault::Memory), true);
    },
);

#[test]
fn served_lines(rt: HostRuntime) -> Result<(), Fail> {
    tell(&rt, word(rt.alloc(), Kind::Ord, THREE_ITEMS))
}

#[test]
fn hash_served_lines(rt: HostRuntime) -> Result<(), Fail> {
    tell(&rt, word(rt.alloc(), Kind::Hash, THREE_ITEMS))
}

// Memory to order the entries of a hash map is refused in some run, and the reply to `list` says so.
const LIST: Lines = (
    b"add b 1\nadd a 2\nlist\nlen\n",
    &rows! {
        "listed": (b"added\nadded\nlist 2 a=2 b=1\n2\n", Ok(0), false);
        "list_refused": (b"added\nadded\nrefused memory\n2\n", Ok(1), true);
        "item_refused": (b"refused memory\nadded\nlist 1 a=2\n1\n", Ok(1), true);
        "item_refused": (b"added\nrefused memory\nlist 1 b=1\n1\n", Ok(1), true);
        "no_memory": (b"", Err(Fault::Memory), true);
    },
);

#[test]
fn hash_list(rt: HostRuntime) -> Result<(), Fail> {
    tell(&rt, word(rt.alloc(), Kind::Hash, LIST))
}

// Memory for the pairs or for their room is refused, or memory for one of them when others are in.
const PAIRS: Lines = (
    b"addall a 1 b 2 c 3\nlen\n",
    &rows! {
        "added": (b"added 3\n3\n", Ok(0), false);
        "none_added": (b"refused memory\n0\n", Ok(1), true);
        "some_added": (b"refused memory\n1\n", Ok(1), true);
        "some_added": (b"refused memory\n2\n", Ok(1), true);
        "no_memory": (b"", Err(Fault::Memory), true);
    },
);

#[test]
fn added_pairs(rt: HostRuntime) -> Result<(), Fail> {
    tell(&rt, word(rt.alloc(), Kind::Ord, PAIRS))
}

#[test]
fn hash_added_pairs(rt: HostRuntime) -> Result<(), Fail> {
    tell(&rt, word(rt.alloc(), Kind::Hash, PAIRS))
}

// One name, and twenty more that are added at once. That is more than there is room for, so room is refused to one
// of them when others are in.
const MANY: Lines = (
    b"add z 0\naddall a 1 b 2 c 3 d 4 e 5 f 6 g 7 h 8 i 9 j 10 k 11 l 12 m 13 n 14 o 15 p 16 q 17 r 18 s 19 t 20\nlen\n",
    &rows! {
        "added": (b"added\nadded 20\n21\n", Ok(0), false);
        "first_refused": (b"refused memory\nadded 20\n20\n", Ok(1), true);
        "none_added": (b"added\nrefused memory\n1\n", Ok(1), true);
        "no_memory": (b"", Err(Fault::Memory), true);
    },
);

// The word for what `serve` does with many pairs. Some were added if the second line was refused, and 2 to 20 names
// are in.
fn word_of_many(alloc: Global, kind: Kind) -> Word {
    let (lines, rows) = MANY;
    let (text, outcome, is_met) = served(alloc, kind, lines)?;
    for len in 2..21u32 {
        let wanted = format!(in alloc; "added\nrefused memory\n{len}\n")?;
        if outcome == Ok(1) && is_met && text.as_slice() == wanted.as_bytes() {
            return Ok("some_added");
        }
    }
    word_of(rows, &(text.as_slice(), outcome, is_met))
}

#[test]
fn many_pairs(rt: HostRuntime) -> Result<(), Fail> {
    tell(&rt, word_of_many(rt.alloc(), Kind::Ord))
}

#[test]
fn hash_many_pairs(rt: HostRuntime) -> Result<(), Fail> {
    tell(&rt, word_of_many(rt.alloc(), Kind::Hash))
}

// An item, room for a hundred more, and its return. If a shrink is refused, the store keeps its room, and the reply does
// not say so.
const ROOM: Lines = (
    b"add a 1\nreserve 100\nshrink\nget a\n",
    &rows! {
        "answered": (b"added\nok\nok\n1\n", Ok(0), false);
        "shrunk_without": (b"added\nok\nok\n1\n", Ok(0), true);
        "item_refused": (b"refused memory\nok\nok\nnone\n", Ok(1), true);
        "reserve_refused": (b"added\nrefused memory\nok\n1\n", Ok(1), true);
        "shrink_refused": (b"added\nok\nrefused memory\n1\n", Ok(1), true);
        "no_memory": (b"", Err(Fault::Memory), true);
    },
);

#[test]
fn room_lines(rt: HostRuntime) -> Result<(), Fail> {
    tell(&rt, word(rt.alloc(), Kind::Ord, ROOM))
}

#[test]
fn hash_room_lines(rt: HostRuntime) -> Result<(), Fail> {
    tell(&rt, word(rt.alloc(), Kind::Hash, ROOM))
}
