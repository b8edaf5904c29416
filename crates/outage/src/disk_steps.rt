// A run of calls on any disk, each printed with its answer.
use crate::lines::{COLUMNS, answered};
use bench::{BLOCK, block_of, refused, text_in};
use device::{Disk, DiskAddress};
use std::io;

// One line of a run: something to say, or a call.
pub(super) enum DiskStep {
    Say(&'static str),
    Write(DiskAddress, &'static str),
    Sync,
    PowerOn,
    Read(DiskAddress),
}

// Writes a text into a block.
fn write<D: Disk>(rt: &impl Print, disk: &mut D, block: DiskAddress, text: &str) -> io::Result<()> {
    COLUMNS.called_at(rt, "write", block.0)?;
    print!(rt; "{text}: ")?;
    answered(rt, disk.write(block, &block_of(text)))
}

// Reads a block and prints the text that it holds.
fn read<D: Disk>(rt: &impl Print, disk: &mut D, block: DiskAddress) -> io::Result<()> {
    let mut bytes = [0; BLOCK];
    COLUMNS.called_at(rt, "read", block.0)?;
    match disk.read(block, &mut bytes) {
        Ok(()) => {
            let text = text_in(&bytes);
            println!(rt; "{text}")
        }
        Err(fault) => refused(rt, fault),
    }
}

// Takes one step.
fn take<D: Disk>(rt: &impl Print, disk: &mut D, step: &DiskStep) -> io::Result<()> {
    match step {
        DiskStep::Say(words) => println!(rt; "{words}"),
        DiskStep::Write(block, text) => write(rt, disk, *block, text),
        DiskStep::Sync => {
            COLUMNS.called(rt, "sync")?;
            answered(rt, disk.sync())
        }
        DiskStep::PowerOn => {
            COLUMNS.called(rt, "power-on")?;
            answered(rt, disk.power_on())
        }
        DiskStep::Read(block) => read(rt, disk, *block),
    }
}

// Takes the steps in turn.
pub(super) fn take_disk_steps<D: Disk>(
    rt: &impl Print,
    disk: &mut D,
    steps: &[DiskStep],
) -> io::Result<()> {
    for step in steps {
        take(rt, disk, step)?;
    }
    Ok(())
}
