// A disk: blocks that are written, and the power cut that finds two of them unsettled.
use crate::disk_steps::{DiskStep, take_disk_steps};
use bench::{Fate, refused, set_fate};
use device::DiskAddress;
use disk_frames::FRAME;
use image::ImageDisk;
use std::io;

// What the power cut is to make of the two blocks that it finds unsettled.
const FATES: &[(usize, Fate)] = &[(0, Fate::Old), (1, Fate::New)];

// Six writes and syncs are served, and then power fails. After the second power-on it does not.
const FUSES: &[u32] = &[6];

const STEPS: &[DiskStep] = &[
    DiskStep::Say("2. A disk of four blocks, one for each zone"),
    DiskStep::Say(
        "A write is unsettled until a sync. After a power cut its block is old or new, never torn.",
    ),
    DiskStep::PowerOn,
    DiskStep::Write(DiskAddress(0), "zone 0 quiet"),
    DiskStep::Write(DiskAddress(1), "zone 1 quiet"),
    DiskStep::Write(DiskAddress(2), "zone 2 quiet"),
    DiskStep::Sync,
    DiskStep::Write(DiskAddress(0), "zone 0 alarm 4"),
    DiskStep::Write(DiskAddress(1), "zone 1 alarm 5"),
    DiskStep::Read(DiskAddress(0)),
    DiskStep::Read(DiskAddress(1)),
    DiskStep::Say("An unsettled block takes no other write. There is no block 4."),
    DiskStep::Write(DiskAddress(0), "zone 0 quiet"),
    DiskStep::Write(DiskAddress(4), "zone 4 quiet"),
    DiskStep::Say("Power fails in the sync."),
    DiskStep::Sync,
    DiskStep::PowerOn,
    DiskStep::Say("Block 0 is old, block 1 is new. Block 2 was settled before, so it had to stay."),
    DiskStep::Read(DiskAddress(0)),
    DiskStep::Read(DiskAddress(1)),
    DiskStep::Read(DiskAddress(2)),
    DiskStep::Say("What was lost is written again, and now the sync is served."),
    DiskStep::Write(DiskAddress(0), "zone 0 alarm 4"),
    DiskStep::Sync,
    DiskStep::Read(DiskAddress(0)),
    DiskStep::Say(""),
];

// Writes, loses power, and writes again what was lost.
pub(super) fn run(rt: &impl Print) -> io::Result<()> {
    let mut image = [0; 4 * FRAME];
    for (block, fate) in FATES {
        set_fate(&mut image, FRAME, *block, *fate);
    }
    match ImageDisk::new(&mut image, FUSES) {
        Ok(mut disk) => take_disk_steps(rt, &mut disk, STEPS),
        Err(unfit) => refused(rt, unfit.fault),
    }
}
