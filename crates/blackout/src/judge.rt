// Whether the answers of a run, in which power fails at most once, fit a history.
use crate::law::{History, is_dark};
use history::{Answer, Call, Served};
use std::cmp::Ordering;

// What became of the call in which power failed, as far as the reads after it tell.
#[derive(Clone, Copy)]
pub(super) enum CutCall {
    Counted,
    NotCounted,
    // the reads fit either way
    Untold,
}

// What is found of a run.
#[derive(Clone, Copy)]
pub(super) struct Verdict {
    pub reads: u32,
    // answers that broke the law
    pub broken: u32,
    pub cut_call: CutCall,
}

// A history that a run may have had, and how many answers do not fit it.
#[derive(Clone, Copy)]
struct Guess {
    history: History,
    misfits: u32,
}

impl Guess {
    fn hear(&mut self, call: &Call, answer: &Answer) {
        if !self.history.fits(call, answer) {
            self.misfits = self.misfits.saturating_add(1);
        }
        if answer.is_ok() {
            self.history.count(call);
        }
    }
}

// Hears a run call by call. The call in which power fails counts wholly or not at all, so from then on there are two histories.
#[derive(Drop)]
struct Judge {
    without: Guess,
    with: Guess,
    is_on: bool,
    reads: u32,
    // answers that fit neither history
    strays: u32,
}

impl Judge {
    fn new() -> Judge {
        let guess = Guess {
            history: History::at_first(),
            misfits: 0,
        };
        Judge {
            without: guess,
            with: guess,
            is_on: true,
            reads: 0,
            strays: 0,
        }
    }

    // With power: a call counts if it was served.
    fn hear_on(&mut self, call: &Call, answer: &Answer) {
        if is_dark(answer) {
            self.with.history.count(call);
            self.is_on = false;
            return;
        }
        if matches!(call, Call::Read(..)) {
            self.reads = self.reads.saturating_add(1);
        }
        self.without.hear(call, answer);
        self.with.hear(call, answer);
    }

    // Without power nothing but a power-on is served, and nothing is refused otherwise than for want of power.
    fn hear_off(&mut self, call: &Call, answer: &Answer) {
        match (call, answer) {
            (Call::PowerOn, Ok(Served::Done)) => self.is_on = true,
            _ if is_dark(answer) => {}
            _ => self.strays = self.strays.saturating_add(1),
        }
    }

    fn hear(&mut self, call: &Call, answer: &Answer) {
        if self.is_on {
            self.hear_on(call, answer)
        } else {
            self.hear_off(call, answer)
        }
    }

    // The reads together have to fit one of the two histories.
    fn verdict(&self) -> Verdict {
        let without = self.without.misfits;
        let with = self.with.misfits;
        let cut_call = match without.cmp(&with) {
            Ordering::Less => CutCall::NotCounted,
            Ordering::Greater => CutCall::Counted,
            Ordering::Equal => CutCall::Untold,
        };
        Verdict {
            reads: self.reads,
            broken: without.min(with).saturating_add(self.strays),
            cut_call,
        }
    }
}

// Judges a run that ends with power: it has an answer for each call.
pub(super) fn judge_run(calls: &[Call], answers: &[Answer]) -> Verdict {
    let mut judge = Judge::new();
    for (call, answer) in calls.iter().zip(answers) {
        judge.hear(call, answer);
    }
    if calls.len() != answers.len() || !judge.is_on {
        judge.strays = judge.strays.saturating_add(1);
    }
    judge.verdict()
}
