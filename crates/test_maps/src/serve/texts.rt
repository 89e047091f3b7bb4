//! Lines of text and their replies, through `serve`.
use crate::prelude::check;
use iddqd_run::{Fault, Kind, Stop, after_name, exit_status, fault_text, kind_of, serve};
use std::alloc::{AllocError, Global};
use std::fmt::Write;
use std::process::Abort;
use std::test::Fail;

/// The lines have these replies over a map of this kind, without a refusal.
fn replies(rt: &impl Abort, alloc: Global, kind: Kind, mut input: &[u8], text: &[u8]) {
    let mut written = Vec::new(alloc);
    check(rt, serve(alloc, kind, &mut input, &mut written) == Ok(0));
    check(rt, written.as_slice() == text);
}

/// The same over maps of both kinds.
fn both_reply(rt: &impl Abort, alloc: Global, input: &[u8], text: &[u8]) {
    replies(rt, alloc, Kind::Hash, input, text);
    replies(rt, alloc, Kind::Ord, input, text);
}

// The kind that a program is asked for that is called by its name and these words.
fn kind_of_words(alloc: Global, args: &[&str]) -> Result<Option<Kind>, AllocError> {
    let mut words = Vec::new(alloc);
    words.push(String::from_str(alloc, "idtable")?)?;
    for word in args {
        words.push(String::from_str(alloc, word)?)?;
    }
    Ok(kind_of(after_name(words.as_slice())))
}

#[test]
fn answers_texts(rt: HostRuntime) {
    for (input, text) in [
        (b"".as_slice(), b"".as_slice()),
        (b"\n", b"bad\n"),
        (
            b"add bob 2\nadd bob 9\nget bob\ndel bob\nlen\n",
            b"added\nduplicate bob 2\n2\nremoved 2\n0\n",
        ),
        // no newline at the end
        (
            b"add a 0\nget a\nget b\ndel b\nlen",
            b"added\n0\nnone\nnone\n1\n",
        ),
        // a counted lookup, present and absent
        (
            b"add a 0\ncost a\ncost b\ncost\ncost A\n",
            b"added\nwithin\nwithin\nbad\nbad\n",
        ),
        // bytes that are no text
        (b"add \xff 1\n\xc3\x28\nlen\n", b"bad\nbad\n0\n"),
        // the greatest value, one more, a leading zero, a sign
        (
            b"add a 18446744073709551615\nadd b 18446744073709551616\nadd c 01\nadd d +1\nlen\n",
            b"added\nbad\nbad\nbad\n1\n",
        ),
        // a field too few, a field too many, an empty field
        (
            b"add a\nadd a 1 2\nadd  1\nget\nlen 1\n len\n",
            b"bad\nbad\nbad\nbad\nbad\nbad\n",
        ),
        // unknown words
        (b"lists\nadds a 1\n", b"bad\nbad\n"),
    ] {
        both_reply(&rt, rt.alloc(), input, text);
    }
}

#[test]
fn bad_lines(rt: HostRuntime) -> Result<(), Fail> {
    let alloc = rt.alloc();
    let input =
        b"add Bob 2\nlen \nadd aaaaaaaaaaaaaaaaaaaaaaaaaaaaaaaaa 1\nadd aaaaaaaaaaaaaaaaaaaaaaaaaaaaaaaa 0\nlen\n";
    let text = b"bad\nbad\nbad\nadded\n1\n";
    both_reply(&rt, alloc, input, text);
    both_reply(&rt, alloc, b"", b"");
    for (words, kind) in [
        ([].as_slice(), Some(Kind::Ord)),
        (["ord"].as_slice(), Some(Kind::Ord)),
        (["tree"].as_slice(), None),
        (["hash"].as_slice(), Some(Kind::Hash)),
        (["hash", "ord"].as_slice(), None),
        (["ord", "ord"].as_slice(), None),
    ] {
        check(&rt, kind_of_words(alloc, words)? == kind);
    }
    check(&rt, exit_status(&Ok(3)) == 0);
    check(&rt, exit_status(&Err(Stop::Fault(Fault::Write))) == 1);
    check(&rt, exit_status(&Err(Stop::Usage)) == 2);
    check(&rt, fault_text(&Fault::Read) == "read failed");
    check(&rt, fault_text(&Fault::Write) == "write failed");
    check(&rt, fault_text(&Fault::Memory) == "no memory");
    Ok(())
}

#[test]
fn long_line(rt: HostRuntime) -> Result<(), Fail> {
    let alloc = rt.alloc();
    let mut input = vec![in alloc; b'a'; 1 << 20]?;
    input.extend_from_slice(b"\nlen\n")?;
    both_reply(&rt, alloc, input.as_slice(), b"bad\n0\n");
    Ok(())
}

#[test]
fn put_and_delete(rt: HostRuntime) {
    let input = b"put a 1\nput a 2\ndel a\nput b 3\nlen\n";
    let text = b"new\nreplaced 1\nremoved 2\nnew\n1\n";
    both_reply(&rt, rt.alloc(), input, text);
}

#[test]
fn set_and_keep(rt: HostRuntime) {
    let input = b"add a 5\nadd b 9\nset a 10\nkeep 9\nset b 1\nget a\nlen\n";
    let text = b"added\nadded\nset 5\nkept 1 dropped 1\nnone\n10\n1\n";
    both_reply(&rt, rt.alloc(), input, text);
}

#[test]
fn table_for_both_kinds(rt: HostRuntime) {
    let input = b"add bob 2\nadd al 1\nadd bob 9\nset al 7\nlist\nreserve 5000000000\ndel zed\n\n";
    let text =
        b"added\nadded\nduplicate bob 2\nset 1\nlist 2 al=7 bob=2\nrefused capacity\nnone\nbad\n";
    both_reply(&rt, rt.alloc(), input, text);
}

#[test]
fn reserve_and_shrink(rt: HostRuntime) {
    let input = b"reserve 3\nadd a 1\nshrink\nlen\nreserve\nshrink 0\n";
    let text = b"ok\nadded\nok\n1\nbad\nbad\n";
    both_reply(&rt, rt.alloc(), input, text);
}

#[test]
fn add_all_lines(rt: HostRuntime) {
    let input =
        b"addall a 1 b 2\naddall c 3 a 9 d 4\nlist\naddall a\naddall\naddall d 1 d 2\naddall e 5 f 06\nlen\n";
    let text =
        b"added 2\nduplicate a 1 after 1\nlist 3 a=1 b=2 c=3\nbad\nbad\nduplicate d 1 after 1\nbad\n4\n";
    both_reply(&rt, rt.alloc(), input, text);
}

// Two spaces, one at the end, none after the word, and a name that is none.
#[test]
fn add_all_of_other_forms(rt: HostRuntime) {
    let input = b"addall  a 1\naddall a 1 \naddalla 1\naddall a 1 B 2\naddall 1 2\nlen\n";
    let text = b"bad\nbad\nbad\nbad\nadded 1\n1\n";
    both_reply(&rt, rt.alloc(), input, text);
}

// A line of a megabyte.
#[test]
fn add_all_of_many(rt: HostRuntime) -> Result<(), Fail> {
    let alloc = rt.alloc();
    let mut input = String::from_str(alloc, "addall")?;
    for number in 0..50_000u32 {
        write!(input, " megabytek{number} {number}")?;
    }
    input.push_str("\nget megabytek49999\naddall a 0 megabytek7 1\nlen\n")?;
    let text = b"added 50000\n49999\nduplicate megabytek7 7 after 1\n50001\n";
    both_reply(&rt, alloc, input.as_bytes(), text);
    Ok(())
}

#[test]
fn table_of_ends(rt: HostRuntime) {
    let alloc = rt.alloc();
    let input =
        b"first\nadd b 1\nadd a 18446744073709551615\nadd c 18446744073709551616\nput b 01\nput b 5\nfirst\nkeep 5\npoplast\npopfirst\nlist";
    let text =
        b"none\nadded\nadded\nbad\nbad\nreplaced 1\na 18446744073709551615\nkept 1 dropped 1\na 18446744073709551615\nnone\nlist 0\n";
    replies(&rt, alloc, Kind::Ord, input, text);
    let text =
        b"unsupported\nadded\nadded\nbad\nbad\nreplaced 1\nunsupported\nkept 1 dropped 1\nunsupported\nunsupported\nlist 1 a=18446744073709551615\n";
    replies(&rt, alloc, Kind::Hash, input, text);
}
