// Images that make a device, and images that do not.
use self::Kind::{OfChip, OfDisk};
use crate::calls::Answer;
use crate::calls::Answer::{Counted, Refused};
use device::{Chip, Disk};
use image::{ImageChip, ImageDisk};
use std::alloc::Global;
use std::process::Abort;
use std::test::Fail;

// What is to be made of an image.
#[derive(Clone, Copy)]
enum Kind {
    OfChip,
    OfDisk,
}

// What an image is for, its length, some of its bytes (the others are zero), the number of fuses, and what is answered.
struct Image(Kind, usize, &'static [(usize, u8)], usize, Answer);

const IMAGES: &[Image] = &[
    // a chip's length: whole erase blocks, 1 to 64 of them
    Image(OfChip, 0, &[], 0, Refused(2, 1, 0)),
    Image(OfChip, 520, &[], 0, Refused(2, 1, 0)),
    Image(OfChip, 4159, &[], 0, Refused(2, 1, 0)),
    Image(OfChip, 4160, &[], 0, Counted(1)),
    Image(OfChip, 4161, &[], 0, Refused(2, 1, 0)),
    Image(OfChip, 8320, &[], 0, Counted(2)),
    Image(OfChip, 266239, &[], 0, Refused(2, 1, 0)),
    Image(OfChip, 266240, &[], 0, Counted(64)),
    Image(OfChip, 266241, &[], 0, Refused(2, 1, 0)),
    Image(OfChip, 270400, &[], 0, Refused(2, 1, 0)),
    // up to eight fuses
    Image(OfChip, 4160, &[], 8, Counted(1)),
    Image(OfChip, 4160, &[], 9, Refused(2, 1, 0)),
    // states: 5 is the last in the list; the first frame out of it is named
    Image(OfChip, 8320, &[(0, 5), (7800, 5)], 0, Counted(2)),
    Image(OfChip, 8320, &[(0, 6)], 0, Refused(11, 1, 0)),
    Image(OfChip, 8320, &[(7800, 6)], 0, Refused(11, 1, 15)),
    Image(
        OfChip,
        8320,
        &[(4160, 255), (4680, 6)],
        0,
        Refused(11, 1, 8),
    ),
    Image(OfChip, 266240, &[(265720, 6)], 8, Refused(11, 1, 511)),
    // any fate, note and data will do
    Image(
        OfChip,
        4160,
        &[(1, 255), (2, 255), (7, 255), (519, 255), (4159, 6)],
        0,
        Counted(1),
    ),
    // the size comes before the states
    Image(OfChip, 4161, &[(0, 6)], 0, Refused(2, 1, 0)),
    Image(OfChip, 270400, &[(0, 6)], 0, Refused(2, 1, 0)),
    Image(OfChip, 4160, &[(0, 6)], 9, Refused(2, 1, 0)),
    // a disk's length: whole frames, 1 to 65,536 of them
    Image(OfDisk, 0, &[], 0, Refused(2, 3, 0)),
    Image(OfDisk, 1025, &[], 0, Refused(2, 3, 0)),
    Image(OfDisk, 1026, &[], 0, Counted(1)),
    Image(OfDisk, 1027, &[], 0, Refused(2, 3, 0)),
    Image(OfDisk, 2052, &[], 0, Counted(2)),
    Image(OfDisk, 67239935, &[], 0, Refused(2, 3, 0)),
    Image(OfDisk, 67239936, &[(67238910, 1)], 0, Counted(65536)),
    Image(OfDisk, 67239936, &[(67238910, 2)], 0, Refused(11, 3, 65535)),
    Image(OfDisk, 67240962, &[], 0, Refused(2, 3, 0)),
    // up to eight fuses
    Image(OfDisk, 1026, &[], 8, Counted(1)),
    Image(OfDisk, 1026, &[], 9, Refused(2, 3, 0)),
    // states: 1 is the last in the list; the first frame out of it is named
    Image(OfDisk, 3078, &[(0, 1), (2052, 1)], 0, Counted(3)),
    Image(OfDisk, 3078, &[(0, 2)], 0, Refused(11, 3, 0)),
    Image(OfDisk, 3078, &[(2052, 2)], 0, Refused(11, 3, 2)),
    Image(
        OfDisk,
        3078,
        &[(1026, 255), (2052, 2)],
        0,
        Refused(11, 3, 1),
    ),
    // any fate and content will do
    Image(
        OfDisk,
        1026,
        &[(1, 255), (2, 255), (514, 255), (1025, 255)],
        0,
        Counted(1),
    ),
    // the size comes before the states
    Image(OfDisk, 1027, &[(0, 2)], 0, Refused(2, 3, 0)),
    Image(OfDisk, 1026, &[(0, 2)], 9, Refused(2, 3, 0)),
];

// Sets some bytes of an image.
fn set_bytes(image: &mut [u8], bytes: &[(usize, u8)]) {
    for (at, byte) in bytes {
        if let Some(place) = image.get_mut(*at) {
            *place = *byte;
        }
    }
}

// What making a device answers.
fn made<'a>(kind: Kind, image: &'a mut [u8], fuses: &'a [u32]) -> Answer {
    match kind {
        OfChip => match ImageChip::new(image, fuses) {
            Ok(chip) => Counted(chip.blocks()),
            Err(unfit) => unfit.fault.into(),
        },
        OfDisk => match ImageDisk::new(image, fuses) {
            Ok(disk) => Counted(disk.blocks()),
            Err(unfit) => unfit.fault.into(),
        },
    }
}

// Tries an image, which is left untouched in any event.
fn try_image(rt: &impl Abort, heap: Global, image: &Image) -> Result<(), Fail> {
    let Image(kind, len, bytes, fuses, answer) = image;
    let all = [0; 9];
    let mut given = vec![in heap; 0; *len]?;
    set_bytes(given.as_mut_slice(), bytes);
    let copy = given.clone()?;
    let answered = made(*kind, given.as_mut_slice(), &all[0..(*fuses).min(9)]);
    assert_eq!(rt; answered, *answer, "{len} bytes, {fuses} fuses");
    assert!(rt;
        given == copy,
        "{len} bytes, {fuses} fuses, the image afterwards"
    );
    Ok(())
}

#[test]
fn images(rt: HostRuntime) -> Result<(), Fail> {
    for image in IMAGES {
        try_image(&rt, rt.alloc(), image)?;
    }
    Ok(())
}
