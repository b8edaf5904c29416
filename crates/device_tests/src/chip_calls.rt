// Calls of a chip, and what they answer.
use crate::bytes::{UNTOUCHED, data_of, has_tag, note_of};
use crate::calls::{Answer, Step, Wrong, check_steps, done, unread};
use device::{Chip, ChipPage, EraseBlock, Fault};

// A call. A read has its page and the length of its buffer, a program its page, the number of its bytes and their tag.
#[derive(Clone, Copy)]
pub(super) enum Call {
    Read(u32, usize),
    Program(u32, usize, u8),
    Erase(u32),
    Sync,
    PowerOn,
    Blocks,
}

// The answer of a read: the tag that note and data agree on.
fn found(answer: Result<(u8, u8, u32), Fault>, buf: &[u8]) -> Answer {
    match answer {
        Ok(note) if note == note_of(note.0) && has_tag(buf, note.0) => Answer::Found(note.0),
        Ok(_) => Answer::Spoilt,
        Err(fault) => unread(fault, buf),
    }
}

fn read<C: Chip>(chip: &mut C, page: u32, len: usize) -> Answer {
    let mut room = [UNTOUCHED; 513];
    let buf = &mut room[0..len.min(513)];
    let answer = chip.read(ChipPage(page), buf);
    found(answer, buf)
}

fn program<C: Chip>(chip: &mut C, page: u32, len: usize, tag: u8) -> Answer {
    let bytes = data_of::<513>(tag);
    done(chip.program(ChipPage(page), note_of(tag), &bytes[0..len.min(513)]))
}

impl Call {
    // Makes the call of a chip.
    fn make<C: Chip>(self, chip: &mut C) -> Answer {
        match self {
            Call::Read(page, len) => read(chip, page, len),
            Call::Program(page, len, tag) => program(chip, page, len, tag),
            Call::Erase(block) => done(chip.erase(EraseBlock(block))),
            Call::Sync => done(chip.sync()),
            Call::PowerOn => done(chip.power_on()),
            Call::Blocks => Answer::Counted(chip.blocks()),
        }
    }
}

// Makes the calls in turn and checks every answer.
pub(super) fn check_chip<C: Chip>(chip: &mut C, steps: &[Step<Call>]) -> Result<(), Wrong> {
    check_steps(steps, |call| call.make(chip))
}
