// Two chips joined into one: places that run on, and a sync that only one of them serves.
use crate::alarms::{FIVE, FOUR, SIX};
use crate::chip_steps::{ChipStep, take_chip_steps};
use bench::refused;
use chip_frames::FRAME;
use device::{Chip, ChipPage};
use image::ImageChip;
use pair::ChipPair;
use std::io;

// The first chip never loses power, the second in its second call that counts. All fates are 0, old.
const FIRST: &[u32] = &[];

const SECOND: &[u32] = &[1];

const STEPS: &[ChipStep] = &[
    ChipStep::Say(
        "3. Two chips as one: pages 0 to 7 are the first chip's, pages 8 to 23 the second's",
    ),
    ChipStep::Say(
        "Places run on across the seam. A sync goes to the first chip, then to the second.",
    ),
    ChipStep::PowerOn,
    ChipStep::Program(ChipPage(7), FOUR),
    ChipStep::Program(ChipPage(8), FIVE),
    ChipStep::Read(ChipPage(7)),
    ChipStep::Read(ChipPage(8)),
    ChipStep::Program(ChipPage(24), SIX),
    ChipStep::Say(
        "Power fails in the second chip, once the first has served its sync. The pair is off.",
    ),
    ChipStep::Sync,
    ChipStep::Read(ChipPage(7)),
    ChipStep::PowerOn,
    ChipStep::Say(
        "A power cut is to leave both pages old. Page 7 was settled by then, and stays; page 8 was",
    ),
    ChipStep::Say(
        "not, and is blank again. So a refused sync may have settled some pages, and promises none.",
    ),
    ChipStep::Read(ChipPage(7)),
    ChipStep::Read(ChipPage(8)),
    ChipStep::Say("Alarm 5 is recorded again, and the sync is served."),
    ChipStep::Program(ChipPage(8), FIVE),
    ChipStep::Sync,
    ChipStep::Read(ChipPage(8)),
];

// Joins two chips and takes the steps.
fn join<P: Chip + Drop, Q: Chip + Drop>(rt: &impl Print, first: P, second: Q) -> io::Result<()> {
    match ChipPair::new(first, second) {
        Ok(mut pair) => take_chip_steps(rt, &mut pair, STEPS),
        Err(large) => refused(rt, large.fault),
    }
}

// Records on both chips, loses power in one, and records again what was lost.
pub(super) fn run(rt: &impl Print) -> io::Result<()> {
    let mut image = [0; 8 * FRAME];
    let mut other = [0; 16 * FRAME];
    match ImageChip::new(&mut image, FIRST) {
        Ok(first) => match ImageChip::new(&mut other, SECOND) {
            Ok(second) => join(rt, first, second),
            Err(unfit) => refused(rt, unfit.fault),
        },
        Err(unfit) => refused(rt, unfit.fault),
    }
}
