// A run of calls on any chip, each printed with its answer.
use crate::alarms::Alarm;
use crate::lines::{COLUMNS, answered};
use bench::{BLOCK, block_of, refused, text_in};
use device::{Chip, ChipPage, EraseBlock};
use std::io;

// One line of a run: something to say, or a call.
pub(super) enum ChipStep {
    Say(&'static str),
    Program(ChipPage, Alarm),
    Erase(EraseBlock),
    Sync,
    PowerOn,
    Read(ChipPage),
}

// Programs a page with an alarm.
fn program<C: Chip>(
    rt: &impl Print,
    chip: &mut C,
    page: ChipPage,
    alarm: &Alarm,
) -> io::Result<()> {
    let number = alarm.number;
    let text = alarm.text;
    COLUMNS.called_at(rt, "program", page.0)?;
    print!(rt; "alarm {number}, {text}: ")?;
    answered(rt, chip.program(page, (4, 0, number), &block_of(text)))
}

// Reads a page and prints the alarm that it holds.
fn read<C: Chip>(rt: &impl Print, chip: &mut C, page: ChipPage) -> io::Result<()> {
    let mut bytes = [0; BLOCK];
    COLUMNS.called_at(rt, "read", page.0)?;
    match chip.read(page, &mut bytes) {
        Ok((_, _, number)) => {
            let text = text_in(&bytes);
            println!(rt; "alarm {number}, {text}")
        }
        Err(fault) => refused(rt, fault),
    }
}

// Takes one step.
fn take<C: Chip>(rt: &impl Print, chip: &mut C, step: &ChipStep) -> io::Result<()> {
    match step {
        ChipStep::Say(words) => println!(rt; "{words}"),
        ChipStep::Program(page, alarm) => program(rt, chip, *page, alarm),
        ChipStep::Erase(block) => {
            COLUMNS.called_at(rt, "erase", block.0)?;
            answered(rt, chip.erase(*block))
        }
        ChipStep::Sync => {
            COLUMNS.called(rt, "sync")?;
            answered(rt, chip.sync())
        }
        ChipStep::PowerOn => {
            COLUMNS.called(rt, "power-on")?;
            answered(rt, chip.power_on())
        }
        ChipStep::Read(page) => read(rt, chip, *page),
    }
}

// Takes the steps in turn. One loop for chips and disks, over a closure that takes a step, would be no plainer: the closure is as long as the loop.
pub(super) fn take_chip_steps<C: Chip>(
    rt: &impl Print,
    chip: &mut C,
    steps: &[ChipStep],
) -> io::Result<()> {
    for step in steps {
        take(rt, chip, step)?;
    }
    Ok(())
}
