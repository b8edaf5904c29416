// Power cuts that are set up beforehand: in the image of a chip, and in the fuse of its first power-on.
use bench::Fate;
use chip_frames::FRAME;
use history::{Answer, Call, NotRun, Ran};
use image::ImageChip;
use std::alloc::{AllocError, Global};

// The bytes of an image: 12 erase blocks, the fewest that a cache serves, of 8 frames each.
pub(super) const IMAGE: usize = 12 * 8 * FRAME;

// Every page blank, and old after a power cut.
pub(super) fn clear(image: &mut [u8]) {
    image.fill(0);
}

// Gives a page its fate.
pub(super) fn set_fate(image: &mut [u8], page: usize, fate: Fate) {
    bench::set_fate(image, FRAME, page, fate);
}

// The pages that are unsettled, by the states of their frames.
pub(super) fn unsettled(heap: Global, image: &[u8]) -> Result<Vec<usize>, AllocError> {
    image
        .iter()
        .step_by(FRAME)
        .enumerate()
        .filter(|(_, state)| (3..=5).contains(*state))
        .map(|(page, _)| page)
        .collect(heap)
}

// Makes the calls on a cache whose chip serves as many programs, erases and syncs as the fuse says, and then has no power until it is powered on.
pub(super) fn run_cut(
    heap: Global,
    image: &mut [u8],
    fuse: u32,
    calls: &[Call],
) -> Result<Vec<Answer>, NotRun> {
    let fuses = [fuse];
    match ImageChip::new(image, &fuses) {
        Ok(chip) => {
            let Ran { chip: _, answers } = history::run(heap, chip, calls);
            answers
        }
        Err(unfit) => Err(NotRun::NotFormed(unfit.fault)),
    }
}
