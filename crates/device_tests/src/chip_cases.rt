// Cases of a chip of two erase blocks.
use crate::bytes::data_of;
use crate::cases::{Case, Lay, Row};
use crate::chip_calls::{Call, check_chip};
use image::ImageChip;
use std::process::Abort;

// The bytes of a chip image of two erase blocks.
pub(super) const TWO_BLOCKS: usize = 8320;

// A frame of a chip image: its page, state, fate, and the tag of its note and data.
#[derive(Clone, Copy)]
pub(super) struct Frame(pub u16, pub u8, pub u8, pub u8);

pub(super) type ChipCase<'a> = Case<'a, Frame, Call>;

pub(super) type ChipRow = Row<Frame, Call>;

impl Lay for Frame {
    fn lay(self, image: &mut [u8]) {
        let Frame(page, state, fate, tag) = self;
        let at = 520 * page as usize;
        let rest = 255 - tag;
        if let Some(frame) = image.get_mut(at..at + 520) {
            frame[..8].copy_from_slice(&[state, fate, tag, rest, 1, tag, 2, rest]);
            frame[8..].copy_from_slice(&data_of::<512>(tag));
        }
    }
}

// Makes an image chip and takes the steps.
fn take_steps<'a>(rt: &impl Abort, row: usize, image: &'a mut [u8], case: &ChipCase<'a>) {
    let Ok(mut chip) = ImageChip::new(image, case.fuses) else {
        panic!(rt; "row {row}, no chip was made");
    };
    assert_eq!(rt; check_chip(&mut chip, case.steps), Ok(()), "row {row}");
}

// Tries the case of a row over an image chip.
pub(super) fn try_chip(rt: &impl Abort, row: usize, case: &ChipCase) {
    case.try_over(rt, row, [0; TWO_BLOCKS], |image| {
        take_steps(rt, row, image, case)
    });
}
