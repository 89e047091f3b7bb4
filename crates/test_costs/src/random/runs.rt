//! The runs: lists of calls from fixed seeds. After each call the whole contents and the numbers are compared too, and
//! `validate`.
use crate::prelude::*;
use crate::random::calls::holds_the_same;
use crate::random::lengths::{CALLS, MANY_CALLS, MAPS};
use crate::random::many::collect;
use crate::random::ordered::{InOrder, ascends, has_ends};
use crate::random::plain::{Answer, Draws, Pair, Plain};

#[derive(Clone, Copy, Debug)]
pub(crate) struct Run {
    seed: u64,
    calls: u32,
    letters: u32,
    limit: u32,
}

fn run_of(seed: u64, calls: u32, letters: u32, limit: u32) -> Run {
    Run {
        seed,
        calls,
        letters,
        limit,
    }
}

// Ends the test as failed, with the place of the call in its list, if the condition is false.
fn check_call(rt: &impl Abort, condition: bool, run: Run, (number, drawn): (u32, u32), what: &str) {
    assert!(rt; condition, "{run:?}: call {number}, {drawn}, {what}");
}

impl<S: BuildHasher + Drop> Pair<S>
where
    Hashed<Coarse, S>: Copied,
{
    fn new(alloc: Global, run: Run, map: Either<Coarse, S>) -> Pair<S> {
        Pair {
            map,
            plain: Plain::new(alloc, run.limit),
            draws: Draws::new(run.seed, run.letters),
        }
    }

    // Makes the call of the number drawn below 200, by weights that leave the map some two thirds full of all names.
    // Whether its result is the list's.
    fn is_answered(&mut self, alloc: Global, drawn: u32) -> Answer {
        match drawn {
            0..=44 => self.insert(),
            45..=64 => self.overwrite(),
            65..=84 => Ok(self.remove()),
            85..=94 => Ok(self.remove_by_entry()),
            95..=109 => Ok(self.find()),
            110..=124 => Ok(self.write()),
            125..=134 => Ok(self.respell()),
            135 => Ok(self.retain()),
            136..=145 => self.insert_by_entry(),
            146..=153 => Ok(self.replace_by_entry()),
            154..=161 => self.find_or_make(),
            162..=169 => self.double_or_insert(),
            170..=177 => self.insert_and_write(),
            178..=182 => Ok(self.reserve()),
            183..=185 => Ok(self.shrink()),
            186..=190 => self.extend(alloc, false),
            191..=194 => self.extend(alloc, true),
            195..=196 => self.copy(alloc),
            197 => Ok(self.write_copy()),
            198 => self.write_first(alloc),
            _ if self.draws.below(8) == 0 => Ok(self.clear()),
            _ => Ok(self.find()),
        }
    }

    // Makes the call of this number in the list.
    fn call(&mut self, rt: &impl Host, run: Run, number: u32) {
        let drawn = self.draws.below(200);
        let answered = self.is_answered(rt.alloc(), drawn).expect(rt, "memory");
        check_call(rt, answered, run, (number, drawn), "is wrong");
        let walked = self.map.listed(rt.alloc()).expect(rt, "memory");
        let held = holds_the_same(&self.map, &self.plain, walked.as_slice());
        check_call(rt, held, run, (number, drawn), "leaves others");
    }
}

fn run_hashed<S: BuildHasher + Drop>(rt: &impl Host, run: Run, map: Either<Coarse, S>)
where
    Hashed<Coarse, S>: Copied,
{
    check(rt, println!(rt; "{run:?}").is_ok());
    let mut pair = Pair::new(rt.alloc(), run, map);
    for number in 0..run.calls {
        pair.call(rt, run, number);
    }
}

// The answer to a call of the ordered map alone. It stands apart from the pair. Where a branch leaves the pair's map in
// the middle of a `match`, a proof by hand would have to say what the map is.
fn is_answered_by(
    map: &mut Ordered<Coarse>,
    plain: &mut Plain,
    draws: &mut Draws,
    alloc: Global,
    drawn: u32,
) -> Answer {
    let mut pair = InOrder { map, plain, draws };
    match drawn {
        200..=202 => Ok(pair.pop()),
        203..=209 => pair.insert_counted(),
        210..=211 => Ok(pair.remove_counted()),
        212..=213 => pair.show_or_insert(),
        214..=215 => pair.show_inserted(),
        216..=218 => Ok(pair.position()),
        219 => Ok(pair.remove_position()),
        220..=222 => pair.range(alloc, false),
        _ => pair.range(alloc, true),
    }
}

impl Pair {
    // The number of a call: a third of the calls are an ordered map's alone.
    fn drawn_in_order(&mut self) -> u32 {
        if self.draws.below(3) != 0 {
            return self.draws.below(200);
        }
        self.draws.below(24).saturating_add(200)
    }

    fn is_answered_in_order(&mut self, alloc: Global, drawn: u32) -> Answer {
        if drawn < 200 {
            return self.is_answered(alloc, drawn);
        }
        match &mut self.map {
            Either::Ordered(map) => {
                is_answered_by(map, &mut self.plain, &mut self.draws, alloc, drawn)
            }
            Either::Hashed(_) => Ok(false),
        }
    }

    // Makes the call of this number in the list.
    fn call_in_order(&mut self, rt: &impl Host, run: Run, number: u32) {
        let drawn = self.drawn_in_order();
        let answered = self
            .is_answered_in_order(rt.alloc(), drawn)
            .expect(rt, "memory");
        check_call(rt, answered, run, (number, drawn), "is wrong");
        let walked = self.map.listed(rt.alloc()).expect(rt, "memory");
        let walked = walked.as_slice();
        let held = ascends(walked)
            && has_ends(&self.map, &self.plain)
            && holds_the_same(&self.map, &self.plain, walked);
        check_call(rt, held, run, (number, drawn), "leaves others");
    }
}

fn run_ordered(rt: &impl Host, run: Run) {
    check(rt, println!(rt; "{run:?}").is_ok());
    let map = in_order_of(rt.alloc(), run.limit);
    let mut pair = Pair::new(rt.alloc(), run, map);
    for number in 0..run.calls {
        pair.call_in_order(rt, run, number);
    }
}

#[test]
fn ordered_calls(rt: HostRuntime) {
    for seed in [11, 12, 13] {
        run_ordered(&rt, run_of(seed, CALLS, 3, MAX_ITEMS));
    }
}

#[test]
fn ordered_calls_of_many_names(rt: HostRuntime) {
    for seed in [21, 22] {
        run_ordered(&rt, run_of(seed, MANY_CALLS, 7, MAX_ITEMS));
    }
}

#[test]
fn ordered_calls_at_the_limit(rt: HostRuntime) {
    for seed in [31, 32] {
        run_ordered(&rt, run_of(seed, CALLS, 3, 14));
    }
}

#[test]
fn hash_calls(rt: HostRuntime) {
    for seed in [41, 42] {
        let run = run_of(seed, MANY_CALLS, 7, MAX_ITEMS);
        run_hashed(&rt, run, by_hash(rt.alloc()));
    }
}

#[test]
fn hash_calls_at_the_limit(rt: HostRuntime) {
    for seed in [51, 52] {
        let run = run_of(seed, CALLS, 3, 14);
        run_hashed(&rt, run, by_hash_of(rt.alloc(), 14));
    }
}

#[test]
fn calls_of_equal_hashes(rt: HostRuntime) {
    for seed in [61, 62, 63] {
        let run = run_of(seed, CALLS, 3, MAX_ITEMS);
        run_hashed(&rt, run, hashed_by(rt.alloc(), Zero::new()));
    }
}

#[test]
fn calls_of_random_hashes(rt: HostRuntime) {
    for seed in [71, 72] {
        let run = run_of(seed, CALLS, 7, MAX_ITEMS);
        let hasher = RandomState::new(&rt).ok().expect(&rt, "a state");
        run_hashed(&rt, run, hashed_by(rt.alloc(), hasher));
    }
}

// Maps that are made of many items, each compared with its list.
fn make_many<S: BuildHasher + Default + Drop>(rt: &impl Host, seed: u64, kind: Kind) {
    let mut draws = Draws::new(seed, 3);
    for number in 0..MAPS {
        for is_unique in [false, true] {
            let made = collect::<S>(kind, rt.alloc(), &mut draws, is_unique).expect(rt, "memory");
            assert!(rt; made, "seed {seed}: map {number}, unique: {is_unique}");
        }
    }
}

#[test]
fn maps_of_many_items(rt: HostRuntime) {
    check(&rt, println!(rt; "seeds 81, 82, 83").is_ok());
    make_many::<DefaultHashBuilder>(&rt, 81, Kind::Ordered);
    make_many::<DefaultHashBuilder>(&rt, 82, Kind::Hashed);
    make_many::<Zero>(&rt, 83, Kind::Hashed);
}
