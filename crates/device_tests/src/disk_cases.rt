// Cases of an image disk of three blocks.
use crate::bytes::data_of;
use crate::cases::{Case, Lay, Row};
use crate::disk_calls::{DiskCall, check_disk};
use image::ImageDisk;
use std::process::Abort;

// The bytes of a disk image of three blocks.
const THREE_BLOCKS: usize = 3078;

// A frame of a disk image: its block, state, fate, and the tags of its settled and of its new content.
#[derive(Clone, Copy)]
pub(super) struct DiskFrame(pub u8, pub u8, pub u8, pub u8, pub u8);

pub(super) type DiskCase<'a> = Case<'a, DiskFrame, DiskCall>;

pub(super) type DiskRow = Row<DiskFrame, DiskCall>;

impl Lay for DiskFrame {
    fn lay(self, image: &mut [u8]) {
        let DiskFrame(block, state, fate, settled, new) = self;
        let at = 1026 * block as usize;
        if let Some(frame) = image.get_mut(at..at + 1026) {
            frame[..2].copy_from_slice(&[state, fate]);
            frame[2..514].copy_from_slice(&data_of::<512>(settled));
            frame[514..].copy_from_slice(&data_of::<512>(new));
        }
    }
}

// Makes an image disk and takes the steps.
fn take_steps<'a>(rt: &impl Abort, row: usize, image: &'a mut [u8], case: &DiskCase<'a>) {
    let Ok(mut disk) = ImageDisk::new(image, case.fuses) else {
        panic!(rt; "row {row}, no disk was made");
    };
    assert_eq!(rt; check_disk(&mut disk, case.steps), Ok(()), "row {row}");
}

// Tries the case of a row.
pub(super) fn try_disk(rt: &impl Abort, row: usize, case: &DiskCase) {
    case.try_over(rt, row, [0; THREE_BLOCKS], |image| {
        take_steps(rt, row, image, case)
    });
}
