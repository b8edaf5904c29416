// How to try the cases of a chip over a pair of image chips.
use crate::calls::{Answer, Step};
use crate::chip_calls::{Call, check_chip};
use crate::chip_cases::{ChipCase, TWO_BLOCKS, try_chip};
use chip_frames::FRAME;
use device::Chip;
use image::ImageChip;
use pair::ChipPair;
use std::alloc::Global;
use std::process::Abort;
use std::test::Fail;

// The bytes of an erase block's frames.
const BLOCK: usize = 8 * FRAME;

// The erase blocks of two chips, what joining them answers, and steps of the pair.
pub(super) struct Joined(pub u8, pub u8, pub Answer, pub &'static [Step<Call>]);

// The fuses of a pair's second chip, and a case whose fuses are its first chip's.
#[derive(Clone, Copy)]
pub(super) struct PairCase<'a>(pub &'a [u32], pub ChipCase<'a>);

// One of the two images of a pair, and its fuses.
struct Half<'a> {
    image: &'a mut [u8],
    fuses: &'a [u32],
}

// Joins two chips, checks the answer, and takes the steps.
fn join<P: Chip + Drop, Q: Chip + Drop>(
    rt: &impl Abort,
    row: usize,
    first: P,
    second: Q,
    answer: Answer,
    steps: &[Step<Call>],
) {
    match ChipPair::new(first, second) {
        Ok(mut pair) => {
            assert_eq!(rt; Answer::Counted(pair.blocks()), answer, "row {row}");
            assert_eq!(rt; check_chip(&mut pair, steps), Ok(()), "row {row}");
        }
        Err(large) => assert_eq!(rt; Answer::from(large.fault), answer, "row {row}"),
    }
}

// Makes two image chips, and joins them.
fn join_images(
    rt: &impl Abort,
    row: usize,
    first: Half,
    second: Half,
    answer: Answer,
    steps: &[Step<Call>],
) {
    let Half { image, fuses } = first;
    let Ok(first) = ImageChip::new(image, fuses) else {
        panic!(rt; "row {row}, no first chip was made");
    };
    let Half { image, fuses } = second;
    let Ok(second) = ImageChip::new(image, fuses) else {
        panic!(rt; "row {row}, no second chip was made");
    };
    join(rt, row, first, second, answer, steps);
}

// Joins two chips of one erase block each over the halves of an image, and takes the steps.
fn take_steps(rt: &impl Abort, row: usize, image: &mut [u8], trial: &PairCase) {
    let PairCase(others, case) = *trial;
    let (first, second) = image.split_at_mut(image.len() / 2);
    let first = Half {
        image: first,
        fuses: case.fuses,
    };
    let second = Half {
        image: second,
        fuses: others,
    };
    join_images(rt, row, first, second, Answer::Counted(2), case.steps);
}

// Tries the case of a row over a pair.
pub(super) fn try_pair(rt: &impl Abort, row: usize, trial: &PairCase) {
    let PairCase(_, case) = trial;
    case.try_over(rt, row, [0; TWO_BLOCKS], |image| {
        take_steps(rt, row, image, trial)
    });
}

// Tries the case of a row over an image chip and over a pair.
pub(super) fn try_both(rt: &impl Abort, row: usize, case: &ChipCase) {
    try_chip(rt, row, case);
    try_pair(rt, row, &PairCase(&[], *case));
}

// Tries to join the two chips of a row.
pub(super) fn try_joined(
    rt: &impl Abort,
    heap: Global,
    row: usize,
    joined: &Joined,
) -> Result<(), Fail> {
    let Joined(blocks, others, answer, steps) = joined;
    let mut first = vec![in heap; 0; BLOCK * *blocks as usize]?;
    let mut second = vec![in heap; 0; BLOCK * *others as usize]?;
    let first = Half {
        image: first.as_mut_slice(),
        fuses: &[],
    };
    let second = Half {
        image: second.as_mut_slice(),
        fuses: &[],
    };
    join_images(rt, row, first, second, *answer, steps);
    Ok(())
}
