// Calls of a disk, and what they answer.
use crate::bytes::{UNTOUCHED, data_of, has_tag};
use crate::calls::{Answer, Step, Wrong, check_steps, done, unread};
use device::{Disk, DiskAddress, Fault};

// A call. A read has its block and the length of its buffer, a write its block, the number of its bytes and their tag.
#[derive(Clone, Copy)]
pub(super) enum DiskCall {
    Read(u32, usize),
    Write(u32, usize, u8),
    Sync,
    PowerOn,
    Blocks,
}

// The answer of a read: the tag that its first byte gives, if the others agree.
fn found(answer: Result<(), Fault>, buf: &[u8]) -> Answer {
    match (answer, buf) {
        (Ok(()), [tag, ..]) if has_tag(buf, *tag) => Answer::Found(*tag),
        (Ok(()), _) => Answer::Spoilt,
        (Err(fault), _) => unread(fault, buf),
    }
}

fn read<D: Disk>(disk: &mut D, block: u32, len: usize) -> Answer {
    let mut room = [UNTOUCHED; 513];
    let buf = &mut room[0..len.min(513)];
    let answer = disk.read(DiskAddress(block), buf);
    found(answer, buf)
}

fn write<D: Disk>(disk: &mut D, block: u32, len: usize, tag: u8) -> Answer {
    let bytes = data_of::<513>(tag);
    done(disk.write(DiskAddress(block), &bytes[0..len.min(513)]))
}

impl DiskCall {
    // Makes the call of a disk.
    fn make<D: Disk>(self, disk: &mut D) -> Answer {
        match self {
            DiskCall::Read(block, len) => read(disk, block, len),
            DiskCall::Write(block, len, tag) => write(disk, block, len, tag),
            DiskCall::Sync => done(disk.sync()),
            DiskCall::PowerOn => done(disk.power_on()),
            DiskCall::Blocks => Answer::Counted(disk.blocks()),
        }
    }
}

// Makes the calls in turn and checks every answer.
pub(super) fn check_disk<D: Disk>(disk: &mut D, steps: &[Step<DiskCall>]) -> Result<(), Wrong> {
    check_steps(steps, |call| call.make(disk))
}
