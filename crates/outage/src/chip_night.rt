// One chip: the alarms of a night in which power fails.
use crate::alarms::{FIVE, FOUR, ONE, SIX, THREE, TWO};
use crate::chip_steps::{ChipStep, take_chip_steps};
use bench::{Fate, refused, set_fate};
use chip_frames::FRAME;
use device::{ChipPage, EraseBlock};
use image::ImageChip;
use std::io;

// What the power cut is to make of the six pages that it finds unsettled.
const FATES: &[(usize, Fate)] = &[
    (0, Fate::Old),
    (1, Fate::New),
    (2, Fate::Torn),
    (8, Fate::Old),
    (9, Fate::New),
    (10, Fate::Torn),
];

// Eight programs, erases and syncs are served, and then power fails. After the second power-on it does not.
const FUSES: &[u32] = &[8];

const EVENING: &[ChipStep] = &[
    ChipStep::Say(
        "What a power cut leaves. Each indented line is a call, its place, and what was answered.",
    ),
    ChipStep::Say(""),
    ChipStep::Say("1. A chip: pages 0 to 7 are its erase block 0, pages 8 to 15 its erase block 1"),
    ChipStep::Say(
        "It is made off. A refusal shows its number, layer and place, and then the same in words.",
    ),
    ChipStep::Read(ChipPage(8)),
    ChipStep::PowerOn,
    ChipStep::Say("Evening: three alarms are recorded, and a sync settles them."),
    ChipStep::Program(ChipPage(8), ONE),
    ChipStep::Program(ChipPage(9), TWO),
    ChipStep::Program(ChipPage(10), THREE),
    ChipStep::Sync,
    ChipStep::Say(""),
];

const NIGHT: &[ChipStep] = &[
    ChipStep::Say(
        "Night: three more. They read as recorded, yet they are unsettled: nothing is promised of",
    ),
    ChipStep::Say(
        "them before a sync, and until then they are neither programmed again nor erased.",
    ),
    ChipStep::Program(ChipPage(0), FOUR),
    ChipStep::Program(ChipPage(1), FIVE),
    ChipStep::Program(ChipPage(2), SIX),
    ChipStep::Read(ChipPage(0)),
    ChipStep::Read(ChipPage(1)),
    ChipStep::Read(ChipPage(2)),
    ChipStep::Program(ChipPage(0), SIX),
    ChipStep::Erase(EraseBlock(0)),
    ChipStep::Say(
        "The evening's alarms are dealt with, so their block is erased. That is unsettled too.",
    ),
    ChipStep::Erase(EraseBlock(1)),
    ChipStep::Read(ChipPage(8)),
    ChipStep::Read(ChipPage(9)),
    ChipStep::Read(ChipPage(10)),
    ChipStep::Say("Then power fails in the sync that would have settled all this."),
    ChipStep::Sync,
    ChipStep::Read(ChipPage(0)),
    ChipStep::Say(""),
];

const MORNING: &[ChipStep] = &[
    ChipStep::Say(
        "Morning: power is back. Each unsettled page, for itself, is now as it was before (old), as",
    ),
    ChipStep::Say(
        "the call left it (new), or torn, and settled as that. Those programmed: old, new, torn.",
    ),
    ChipStep::PowerOn,
    ChipStep::Read(ChipPage(0)),
    ChipStep::Read(ChipPage(1)),
    ChipStep::Read(ChipPage(2)),
    ChipStep::Say(
        "Those erased: old, new, torn. Alarm 1 is there again, though its erase was served.",
    ),
    ChipStep::Read(ChipPage(8)),
    ChipStep::Read(ChipPage(9)),
    ChipStep::Read(ChipPage(10)),
    ChipStep::Say(
        "A torn page is as little blank as a held one: it takes no program before an erase.",
    ),
    ChipStep::Program(ChipPage(2), SIX),
    ChipStep::Say(
        "Alarms 4 and 6 are lost; no sync had been served since. They are recorded again.",
    ),
    ChipStep::Program(ChipPage(3), FOUR),
    ChipStep::Program(ChipPage(4), SIX),
    ChipStep::Sync,
    ChipStep::Say("A second power cut finds nothing unsettled, and changes nothing."),
    ChipStep::PowerOn,
    ChipStep::Read(ChipPage(3)),
    ChipStep::Read(ChipPage(4)),
    ChipStep::Say(""),
];

// Records, loses power, and records again what was lost.
pub(super) fn run(rt: &impl Print) -> io::Result<()> {
    let mut image = [0; 16 * FRAME];
    for (page, fate) in FATES {
        set_fate(&mut image, FRAME, *page, *fate);
    }
    match ImageChip::new(&mut image, FUSES) {
        Ok(mut chip) => {
            take_chip_steps(rt, &mut chip, EVENING)?;
            take_chip_steps(rt, &mut chip, NIGHT)?;
            take_chip_steps(rt, &mut chip, MORNING)
        }
        Err(unfit) => refused(rt, unfit.fault),
    }
}
