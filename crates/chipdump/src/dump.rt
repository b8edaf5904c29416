// From the bytes of an image to the lines about it.
use crate::finding::find;
use crate::found_lines::{say_found, say_geometry};
use crate::refused_lines::say_refused;
use chip_frames::FRAME;
use device::{Chip, Fault};
use image::ImageChip;
use layout::Geometry;
use std::io;

// The bytes of the largest image: 64 erase blocks, of 8 frames each.
pub(super) const MOST: usize = 64 * 8 * FRAME;

// Says how much input there is.
fn say_size(rt: &impl Print, len: usize) -> io::Result<()> {
    if len > MOST {
        println!(rt; "input: more than {MOST} bytes")
    } else {
        println!(rt; "input: {len} bytes")
    }
}

// Why a dump ends early: a call is refused, or a line is not printed.
#[derive(Drop)]
enum Stop {
    Refused(Fault),
    NotPrinted(io::Error),
}

impl From<Fault> for Stop {
    fn from(fault: Fault) -> Stop {
        Stop::Refused(fault)
    }
}

impl From<io::Error> for Stop {
    fn from(error: io::Error) -> Stop {
        Stop::NotPrinted(error)
    }
}

// Powers a chip on, and says what recovery finds, if a cache serves a chip of its size.
fn dump_chip<C: Chip>(rt: &impl Print, chip: &mut C) -> Result<(), Stop> {
    let blocks = chip.blocks();
    println!(rt; "erase blocks: {blocks}, of 8 chip pages each")?;
    let geometry = Geometry::new(blocks)?;
    say_geometry(rt, geometry)?;
    let found = find(chip)?;
    say_found(rt, geometry, &found)?;
    Ok(())
}

// Says what an image holds.
fn dump_image(rt: &impl Print, image: &mut [u8]) -> Result<(), Stop> {
    match ImageChip::new(image, &[]) {
        Ok(mut chip) => dump_chip(rt, &mut chip),
        Err(unfit) => Err(Stop::Refused(unfit.fault)),
    }
}

// Says what an image holds, or why it is none. What a power cut makes of its unsettled pages goes by their fates.
pub(super) fn dump(rt: &impl Print, image: &mut [u8]) -> io::Result<()> {
    say_size(rt, image.len())?;
    match dump_image(rt, image) {
        Ok(()) => Ok(()),
        Err(Stop::Refused(fault)) => say_refused(rt, fault),
        Err(Stop::NotPrinted(error)) => Err(error),
    }
}
