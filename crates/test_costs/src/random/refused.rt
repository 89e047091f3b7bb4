//! Random lists of calls with one request for memory refused (`tools/sweep` runs them): a call that is refused leaves
//! the items.
use crate::prelude::*;
use crate::random::calls::are_found;
use crate::random::plain::{Answer, Draws, Pair, Plain};
use test_support::heap::{arm, is_met};

// Whether each item of the list is found, and no more are there. It asks for no memory.
fn finds_all(map: &Either<Coarse>, plain: &Plain) -> bool {
    let is_whole = are_found(map, plain) && map.len() == plain.len();
    is_whole && map.vacant() == plain.vacant && map.is_sound()
}

// Whether room may be refused so, if it is.
fn is_told(plain: &mut Plain, answer: Result<(), TryReserveError>) -> bool {
    match answer {
        Ok(()) => true,
        Err(error) => plain.refuses(error),
    }
}

impl Pair {
    // Makes the call of the number drawn below 32.
    fn made(&mut self, drawn: u32) -> Answer {
        match drawn {
            0..=13 => self.insert(),
            14..=21 => self.overwrite(),
            22..=29 => Ok(self.remove()),
            30 => {
                let answer = self.map.reserve(self.draws.below(64) as usize);
                Ok(is_told(&mut self.plain, answer))
            }
            _ => {
                self.plain.vacant = 0;
                let answer = self.map.shrink_to(self.draws.below(64) as usize);
                Ok(is_told(&mut self.plain, answer))
            }
        }
    }

    // Makes the call of this number in the list.
    fn refusable_call(&mut self, rt: &impl Abort, seed: u64, number: u32) {
        let drawn = self.draws.below(32);
        let answered = self.made(drawn).expect(rt, "memory");
        let held = finds_all(&self.map, &self.plain);
        assert!(rt;
            answered && held,
            "seed {seed}: call {number}, of {drawn}, is answered otherwise, or the contents differ"
        );
    }
}

// Makes the calls, and prints whether one was refused. The list has its room from the beginning.
fn run_refused(rt: &impl Host, map: Either<Coarse>, seed: u64) {
    check(rt, println!(rt; "seed {seed}").is_ok());
    let mut plain = Plain::new(rt.alloc(), MAX_ITEMS);
    check(rt, plain.items.reserve(125).is_ok());
    let draws = Draws::new(seed, 5);
    let mut pair = Pair { map, plain, draws };
    arm(rt.alloc());
    for number in 0..400 {
        pair.refusable_call(rt, seed, number);
    }
    // a shrink that keeps its memory need not tell
    check(rt, pair.plain.refusals <= u32::from(is_met(rt.alloc())));
    let word = match pair.plain.refusals {
        0 => "answered",
        _ => "call_refused",
    };
    check(rt, println!(rt; "{word}").is_ok());
}

#[test]
fn ordered_calls(rt: HostRuntime) {
    run_refused(&rt, in_order(rt.alloc()), 91);
}

#[test]
fn hash_calls(rt: HostRuntime) {
    run_refused(&rt, by_hash(rt.alloc()), 92);
}
