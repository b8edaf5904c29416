// Pages of a chip's image, byte for byte as the layout has them.
use device::ChipPage;

// Eight bytes at a place of a page: a byte, a byte, two bytes, four bytes. An entry has its mark and address there; a record
// its kind, data page and address; a trailer its letters, then the area's first page and the number of data pages.
#[derive(Clone, Copy)]
pub(super) struct At(pub u8, pub u8, pub u8, pub u16, pub u32);

// A chip page: its state and fate, its note, and the bytes of its data that are not zero.
#[derive(Clone, Copy)]
pub(super) struct Frame<'a>(pub u16, pub (u8, u8), pub (u8, u8, u32), pub &'a [At]);

// States with no fate to come.
pub(super) const BLANK: (u8, u8) = (0, 0);

pub(super) const HELD: (u8, u8) = (1, 0);

pub(super) const TORN: (u8, u8) = (2, 0);

// Bytes that a data page may hold: at its beginning and its end, like a record and like nothing of the layout's.
pub(super) const BYTES: &[At] = &[At(0, 1, 0, 0, 5), At(63, 171, 205, 61185, 5)];

// The first eight bytes of a frame.
fn head(state: (u8, u8), note: (u8, u8, u32)) -> [u8; 8] {
    let (now, fate) = state;
    let (kind, count, address) = note;
    let [a, b, c, d] = address.to_be_bytes();
    [now, fate, kind, count, a, b, c, d]
}

// Lays a page into an image, if there is room for it.
pub(super) fn lay_page(
    image: &mut [u8],
    page: ChipPage,
    state: (u8, u8),
    note: (u8, u8, u32),
    data: &[u8; 512],
) {
    let at = 520 * page.0 as usize;
    if let Some(frame) = image.get_mut(at..at + 520) {
        frame[..8].copy_from_slice(&head(state, note));
        frame[8..].copy_from_slice(data);
    }
}

impl At {
    // Writes the eight bytes into a page's data, if there is room for them.
    fn lay(self, data: &mut [u8; 512]) {
        let At(place, first, second, pair, last) = self;
        let from = 8 * place as usize;
        let [p, q] = pair.to_be_bytes();
        let [a, b, c, d] = last.to_be_bytes();
        if let Some(cell) = data.get_mut(from..from + 8) {
            cell.copy_from_slice(&[first, second, p, q, a, b, c, d]);
        }
    }
}

impl Frame<'_> {
    // Lays the page into an image, if there is room for it.
    fn lay(&self, image: &mut [u8]) {
        let Frame(page, state, note, cells) = self;
        let mut data = [0; 512];
        for cell in *cells {
            cell.lay(&mut data);
        }
        lay_page(image, ChipPage(*page as u32), *state, *note, &data);
    }
}

// Lays pages into an image, a later one over an earlier one.
pub(super) fn lay(image: &mut [u8], frames: &[Frame]) {
    for frame in frames {
        frame.lay(image);
    }
}
