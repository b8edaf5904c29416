// Calls of a device with the answers that they are to have, and how to check them.
use crate::bytes::is_untouched;
use device::Fault;

// An answer. A refusal has its number, layer and place; a read is known by the tag that it found. That the numbers are right
// is what is tested, so they stay numbers. A `Result` would be no plainer: it would put a second pair of brackets round the
// answer of every row.
#[derive(Clone, Copy, PartialEq, Debug)]
pub(super) enum Answer {
    Done,
    Found(u8),
    Counted(u32),
    Refused(u8, u8, u32),
    // a buffer that has what it should not
    Spoilt,
}

// A call and its answer.
#[derive(Clone, Copy)]
pub(super) struct Step<C>(pub C, pub Answer);

// A refusal by its numbers.
impl From<Fault> for Answer {
    fn from(fault: Fault) -> Answer {
        Answer::Refused(fault.refusal.number(), fault.layer.number(), fault.place)
    }
}

// The answer of a call that says no more than that it is done.
pub(super) fn done(answer: Result<(), Fault>) -> Answer {
    match answer {
        Ok(()) => Answer::Done,
        Err(fault) => fault.into(),
    }
}

// A refusal that left the buffer alone.
pub(super) fn unread(fault: Fault, buf: &[u8]) -> Answer {
    if is_untouched(buf) {
        fault.into()
    } else {
        Answer::Spoilt
    }
}

// A step that was answered otherwise than it was to be.
#[derive(Clone, Copy, PartialEq, Debug)]
pub(super) struct Wrong {
    pub step: usize,
    pub got: Answer,
    pub wanted: Answer,
}

// Makes the calls in turn and checks every answer. It answers the first wrong step and asserts nothing, so that it needs no
// leave to abort.
pub(super) fn check_steps<C: Copy, F: FnMut(C) -> Answer>(
    steps: &[Step<C>],
    mut answer_to: F,
) -> Result<(), Wrong>
    requires { F.IsAlwaysCallable answer_to }
{
    for (step, Step(call, wanted)) in steps.iter().enumerate() {
        let got = answer_to(*call);
        if got != *wanted {
            return Err(Wrong {
                step,
                got,
                wanted: *wanted,
            });
        }
    }
    Ok(())
}
