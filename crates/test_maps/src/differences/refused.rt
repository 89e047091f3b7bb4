//! Applying a difference with requests for memory refused, and what a difference asks for.
use super::applied::kept_brought_up;
use super::cases::hundreds;
use super::held::{count_changes, have_same_keys};
use crate::prelude::*;

// Inserts items of these names, all of this value, whose clones ask for memory.
fn fill(rt: &impl Host, map: &mut Either<Kept>, names: &[u32], value: u32) {
    for name in names {
        let value = Box::new(rt.alloc(), value).expect(rt, "no memory");
        check(rt, map.is_put(Kept { name: *name, value }));
    }
}

// The value of the name, or 0 if there is none.
fn value(map: &Either<Kept>, name: u32) -> u32 {
    map.get(&name).map_or(0, |kept| *kept.value)
}

// The word for how far the old names 1, 2 and 3 are brought up to the new ones 2 to 5: the first differences are
// applied, and no other.
fn word(rt: &impl Abort, copy: &Either<Kept>, is_refused: bool) -> &'static str {
    let values = [1, 2, 3, 4, 5u32].map(|name| value(copy, name));
    let word = match values {
        [0, 10, 10, 0, 0] => "first_refused",
        [0, 20, 10, 0, 0] => "second_refused",
        [0, 20, 20, 0, 0] => "third_refused",
        [0, 20, 20, 20, 0] => "fourth_refused",
        [0, 20, 20, 20, 20] => "applied",
        _ => "neither",
    };
    check(rt, word != "neither" && is_refused == (word != "applied"));
    word
}

// That word, once a map of the old names is brought up to one of the new.
fn applied(
    rt: &impl Host,
    mut before: Either<Kept>,
    mut after: Either<Kept>,
) -> Result<&'static str, Fail> {
    fill(rt, &mut before, &[1, 2, 3], 10);
    fill(rt, &mut after, &[2, 3, 4, 5], 20);
    let (copy, is_refused) = kept_brought_up(rt.alloc(), &before, &after)?;
    check(rt, is_refused == is_met(rt.alloc()));
    Ok(word(rt, &copy, is_refused))
}

#[test]
fn apply(rt: HostRuntime) -> Result<(), Fail> {
    let word = applied(&rt, in_order(rt.alloc()), in_order(rt.alloc()))?;
    println!(rt; "{word}")?;
    Ok(())
}

#[test]
fn hash_apply(rt: HostRuntime) -> Result<(), Fail> {
    let word = applied(&rt, by_hash(rt.alloc()), by_hash(rt.alloc()))?;
    println!(rt; "{word}")?;
    Ok(())
}

// A difference asks for nothing, and neither does the question whether the keys are the same.
fn compare(rt: &impl Host, kind: Kind) {
    let (before, after) = hundreds(rt, kind);
    arm(rt.alloc());
    check(rt, count_changes(&before, &after) > 0);
    check(rt, !have_same_keys(&before, &after));
    check(rt, have_same_keys(&before, &before));
    check(rt, !is_met(rt.alloc()));
}

#[test]
fn compared_without_memory(rt: HostRuntime) {
    compare(&rt, Kind::Ordered);
}

#[test]
fn hash_compared_without_memory(rt: HostRuntime) {
    compare(&rt, Kind::Hashed);
}
