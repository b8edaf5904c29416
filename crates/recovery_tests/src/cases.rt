// Cases of recovery: a chip's image, and the answer over it.
use crate::frames::{Frame, lay};
use chip_frames::FRAME;
use device::{Chip, DataPage, DiskAddress, Fault};
use image::ImageChip;
use layout::Area;
use recovery::Restored;
use std::alloc::Global;
use std::fmt::Display;
use std::process::Abort;
use std::test::Fail;
use table::MappingTable;

// A data page, the number of its mark, and its address. That the number is right is tested too, so it stays a number.
#[derive(Clone, Copy)]
pub(super) struct Marked(pub u16, pub u8, pub u32);

// What is found: the active area, its number, the next log page, and the marked pages.
#[derive(Clone, Copy)]
pub(super) struct Found<'a>(pub Area, pub u8, pub u8, pub &'a [Marked]);

// A refusal by its number, layer and place. That these numbers are right is what is tested, so they stay numbers.
#[derive(Clone, Copy, PartialEq, Debug)]
pub(super) struct Refused(pub u8, pub u8, pub u32);

// What recovery answers.
pub(super) type Answer<'a> = Result<Found<'a>, Refused>;

// A chip: its erase blocks, its pages, others over them, and what recovery answers.
pub(super) struct Case<'a>(
    pub u8,
    pub &'a [Frame<'a>],
    pub &'a [Frame<'a>],
    pub Answer<'a>,
);

// A chip that was not put on: its erase blocks, and the refusal.
pub(super) struct Off(pub u8, pub Refused);

// The bytes of an erase block's frames.
pub(super) const BLOCK: usize = 8 * FRAME;

// The numbers of a fault.
impl From<Fault> for Refused {
    fn from(fault: Fault) -> Refused {
        Refused(fault.refusal.number(), fault.layer.number(), fault.place)
    }
}

// The number of the mark, and the address, that a data page is to have.
fn expected(marked: &[Marked], page: DataPage) -> (u8, u32) {
    marked
        .iter()
        .find(|m| m.0 == page.0)
        .map_or((0, 0), |m| (m.1, m.2))
}

// Checks the entry of every data page.
fn check_entries(rt: &impl Abort, at: &impl Display, table: &MappingTable, marked: &[Marked]) {
    for page in (0..table.len()).map(DataPage) {
        let entry = table.entry(page);
        assert_eq!(rt;
            (entry.mark.number(), entry.address.0),
            expected(marked, page),
            "{at}, mark and address of {page:?}"
        );
    }
}

// Checks what the table says of every marked address.
fn check_addresses(rt: &impl Abort, at: &impl Display, table: &MappingTable, marked: &[Marked]) {
    for Marked(page, mark, address) in marked {
        let address = DiskAddress(*address);
        assert_eq!(rt;
            table.mark(address).number(),
            *mark,
            "{at}, mark of {address:?}"
        );
        assert_eq!(rt;
            table.find(address),
            Some(DataPage(*page)),
            "{at}, page of {address:?}"
        );
    }
}

impl Found<'_> {
    // Checks what was recovered, and the number of data pages.
    fn check(&self, rt: &impl Abort, at: &impl Display, restored: &Restored, pages: usize) {
        let Found(area, number, next, marked) = *self;
        assert_eq!(rt; restored.area, area, "{at}, area");
        assert_eq!(rt; restored.number, number, "{at}, number");
        assert_eq!(rt; restored.next, next, "{at}, next log page");
        assert_eq!(rt; restored.table.len() as usize, pages, "{at}, data pages");
        check_entries(rt, at, &restored.table, marked);
        check_addresses(rt, at, &restored.table, marked);
    }
}

// Puts a chip on, and recovers from it.
fn recovered<C: Chip>(chip: &mut C) -> Result<Restored, Fault> {
    chip.power_on()?;
    recovery::recover(chip)
}

// Recovers from an image.
fn recovered_from(image: &mut [u8]) -> Result<Restored, Fault> {
    match ImageChip::new(image, &[]) {
        Ok(mut chip) => recovered(&mut chip),
        Err(unfit) => Err(unfit.fault),
    }
}

// Recovers from an image, and checks the answer. Each failure begins with `at`, which says where the image stands.
pub(super) fn check_image(rt: &impl Abort, at: &impl Display, image: &mut [u8], answer: Answer) {
    let pages = (image.len() / 520).saturating_sub(64);
    match (recovered_from(image), answer) {
        (Ok(restored), Ok(found)) => found.check(rt, at, &restored, pages),
        (Err(fault), Err(refused)) => assert_eq!(rt; Refused::from(fault), refused, "{at}"),
        (Ok(_), Err(_)) => panic!(rt; "{at}, nothing was refused"),
        (Err(fault), Ok(_)) => panic!(rt; "{at}, refused: {fault}"),
    }
}

// Tries the case of a row, and a second time: the answer is the same, and no byte of the image changes.
pub(super) fn try_case(rt: &impl Abort, heap: Global, row: usize, case: &Case) -> Result<(), Fail> {
    let Case(blocks, base, over, answer) = case;
    let mut image = vec![in heap; 0; BLOCK * *blocks as usize]?;
    lay(image.as_mut_slice(), base);
    lay(image.as_mut_slice(), over);
    let at = format_args!("row {row}");
    check_image(rt, &at, image.as_mut_slice(), *answer);
    let copy = image.clone()?;
    let again = format_args!("row {row}, the second time");
    check_image(rt, &again, image.as_mut_slice(), *answer);
    assert!(rt; image == copy, "row {row}, the image afterwards");
    Ok(())
}

// Tries the chip of a row, which was not put on.
pub(super) fn try_off(rt: &impl Abort, heap: Global, row: usize, off: &Off) -> Result<(), Fail> {
    let Off(blocks, refused) = off;
    let mut image = vec![in heap; 0; BLOCK * *blocks as usize]?;
    let Ok(mut chip) = ImageChip::new(image.as_mut_slice(), &[]) else {
        panic!(rt; "row {row}, no chip was made");
    };
    match recovery::recover(&mut chip) {
        Ok(_) => panic!(rt; "row {row}, nothing was refused"),
        Err(fault) => assert_eq!(rt; Refused::from(fault), *refused, "row {row}"),
    }
    Ok(())
}
