// Bytes to recognise a page or a block by: each tag stands for a note and for data.
use std::array;

// What a buffer holds that no call has touched.
pub(super) const UNTOUCHED: u8 = 0xee;

// The note of a tag. Its address is laid out as the bytes 1, the tag, 2, and 255 less the tag.
pub(super) fn note_of(tag: u8) -> (u8, u8, u32) {
    let rest = 255 - tag;
    (tag, rest, 0x0100_0200 + 0x1_0000 * tag as u32 + rest as u32)
}

// The byte of a tag at a place of its data.
fn byte_at(tag: u8, i: usize) -> u8 {
    tag.wrapping_add((i % 251) as u8)
}

// A tag's data, of so many bytes.
pub(super) fn data_of<const N: usize>(tag: u8) -> [u8; N] {
    array::from_fn(|i| byte_at(tag, i))
}

// Whether a buffer has just a tag's data.
pub(super) fn has_tag(buf: &[u8], tag: u8) -> bool {
    buf == data_of::<512>(tag).as_slice()
}

// Whether a buffer is as it was before a call.
pub(super) fn is_untouched(buf: &[u8]) -> bool {
    buf.iter().all(|byte| *byte == UNTOUCHED)
}
