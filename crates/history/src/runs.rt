// A run: a cache is formed on a chip, and a list of calls is made on it, under the law of its history.
ghost use Rattle.std.specs.Prelude.{◌≡◌, ◌≤◌, [], length, vec_len, vec_capacity, Ok, Err};
ghost use Rattle.history.specs.Following.{Follows};
ghost use Rattle.history.specs.Histories.{at_first, Fits};
ghost use Rattle.history.specs.Histories.Phase.{on};
ghost use Rattle.history.specs.Serving.{Law};

use crate::calls::{Answer, Call};
use crate::serving::serve;
use cache::{BareCache, Cache};
use device::{Chip, Fault};
use std::alloc::Global;

// Why no call of a run was made.
#[derive(Clone, Copy, Drop)]
pub enum NotRun {
    // there was no memory for the answers, and nothing was touched
    NoMemory,
    // the form was refused
    NotFormed(Fault),
}

// The chip as it is after a run, and an answer for each call.
pub struct Ran<C> {
    pub chip: C,
    pub answers: Result<Vec<Answer>, NotRun>,
}

// Forms a cache on the chip and makes each call in turn, whatever the calls before it answered.
pub fn run<C: Chip>(heap: Global, chip: C, calls: &[Call]) -> Ran<C>
    ensures law { Law (C.Chip.meaning chip) calls.now result.answers (C.Chip.meaning result.chip) }
{
    let Ok(answers) = Vec::with_capacity(heap, calls.len()) else {
        return Ran {
            chip,
            answers: Err(NotRun::NoMemory),
        };
    };
    let mut bare = BareCache::new(chip);
    match bare.form() {
        Ok(permit) => answer_all(bare.open(permit), calls, answers),
        Err(fault) => Ran {
            chip: bare.retire(),
            answers: Err(NotRun::NotFormed(fault)),
        },
    }
}

// Makes each call, on a cache that was just formed, with memory for all the answers.
fn answer_all<C: Chip>(mut cache: Cache<C>, calls: &[Call], mut answers: Vec<Answer>) -> Ran<C>
    requires follows { Follows C.Chip.meaning (on at_first) cache }
    requires none { (answers.items ≡ []) × (vec_len answers ≡ 0) }
    requires room { length calls.now ≤ vec_capacity answers }
    ensures law { elim result.answers [ Ok xs ↦ Fits calls.now xs.items | Err e ↦ ⊥ ] }
{
    let mut scratch = [0u8; 65536];
    for call in calls {
        let answer = serve(&mut cache, call, &mut scratch);
        answers.push_reserved(answer);
    }
    Ran {
        chip: cache.retire(),
        answers: Ok(answers),
    }
}
