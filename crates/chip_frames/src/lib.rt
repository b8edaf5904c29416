// The frames of a chip image: what each call of an image chip does to their bytes.
#![tactic(auto)]

ghost use Rattle.std.specs.Prelude.{◌≡◌, ℕ, ◌+◌, ◌*◌, ◌/◌, ◌%◌, ◌<◌, ◌≤◌, ◌≢◌, length, min, MatchOption, slice_index};
ghost use Rattle.std.specs.Simd.{first_chunks};
ghost use Rattle.device.specs.Chips.{unsettled_in};
ghost use Rattle.chip_frames.specs.Frames.{blocks_in, note_at, data_at, page_of, state_at, fate_at, Restated, settling, erasing, cutting, Framed, Listed, FirstBad};
ghost use Rattle.chip_frames.specs.Codes.{Changes};

mod states;

use device::{EraseBlock, Note};
pub use states::{Fate, State};
use std::ops::Range;

// The bytes of a frame.
pub const FRAME: usize = 520;

// Where in a frame its data begins.
const DATA: usize = 8;

// The bytes of an erase block's frames.
const BLOCK: usize = 8 * FRAME;

// The erase blocks in an image.
pub fn blocks_in(image: &[u8]) -> usize
    ensures { result ≡ blocks_in image.now }
{
    image.len() / BLOCK
}

// The frames of an image, one for each page.
fn frames_of(image: &[u8]) -> &[[u8; FRAME]]
    ensures frames { result.now ≡ first_chunks 520 (length image.now / 520) image.now }
    ensures count { length result.now ≡ length image.now / 520 }
{
    let (frames, _) = image.as_chunks();
    frames
}

// Makes the frame of page `p` held and unsettled, was blank.
pub fn write_frame(image: &mut [u8], p: usize, note: Note, bytes: &[u8])
    requires inside { 520 * p + 520 ≤ length image.old }
    requires whole { length bytes.now ≡ 512 }
    ensures { Framed image.old p note bytes.now image.new }
{
    let (kind, count, address) = note;
    let [a, b, c, d] = address.to_be_bytes();
    let i = FRAME * p;
    let frame = &mut image[i..i + FRAME];
    frame[0] = State::Programmed.number();
    frame[2..DATA].copy_from_slice(&[kind, count, a, b, c, d]);
    frame[DATA..].copy_from_slice(bytes);
}

// Copies the data of page `p` into a buffer, and answers its note.
pub fn read_frame(image: &[u8], p: usize, buf: &mut [u8]) -> Note
    requires inside { 520 * p + 520 ≤ length image.now }
    requires whole { length buf.old ≡ 512 }
    ensures note { result ≡ note_at image.now (520 * p) }
    ensures bytes { buf.new ≡ data_at image.now (520 * p) }
{
    let frame = &frames_of(image)[p];
    buf.copy_from_slice(&frame[DATA..]);
    let [_, _, kind, count, a, b, c, d, ..] = *frame;
    (kind, count, u32::from_be_bytes([a, b, c, d]))
}

// Gives each frame another state, which hangs on the state and the fate that it has.
fn restate<F: Fn(State, Fate) -> State>(image: &mut [u8], change: F)
    requires { F.IsAlwaysCallable change }
    ensures states { (p : ℕ) → p < length image.old / 520 → Changes (F.post change) (state_at image.old p) (fate_at image.old p) (state_at image.new p) }
    ensures others { (k : ℕ) → (k % 520 ≢ 0) → slice_index image.new k ≡ slice_index image.old k }
{
    // Tried, the proof did not close: `chunks_exact_mut`, since the library does not say what the slice holds afterwards.
    for p in 0..image.len() / FRAME {
        let i = FRAME * p;
        image[i] = change(State::from(image[i]), Fate::from(image[i + 1])).number();
    }
}

// Settles every frame.
pub fn settle_frames(image: &mut [u8])
    ensures { Restated image.old (settling image.old) image.new }
{
    restate(image, |state, _| state.settled());
}

// Where the frames of an erase block stand in an image: nowhere, if the image ends before them.
fn place_of(image: &[u8], block: EraseBlock) -> Range<usize>
    ensures start { result.start ≡ min (4160 * block.0) (length image.now) }
    ensures end { result.end ≡ min (4160 * block.0 + 4160) (length image.now) }
{
    let start = BLOCK * block.0 as usize;
    start.min(image.len())..(start + BLOCK).min(image.len())
}

// Erases the frames of the pages that lie in the erase block.
pub fn erase_frames(image: &mut [u8], block: EraseBlock)
    ensures { Restated image.old (erasing image.old block.0) image.new }
{
    let place = place_of(image, block);
    restate(&mut image[place], |state, _| state.erased());
}

// Whether a page that lies in the erase block is unsettled.
pub fn any_unsettled(image: &[u8], block: EraseBlock) -> bool
    ensures { result ≡ unsettled_in (page_of image.now) block.0 (length image.now / 520) }
{
    let place = place_of(image, block);
    frames_of(&image[place])
        .iter()
        .any(|frame| State::from(frame[0]).is_unsettled())
}

// Lets a power cut decide each frame by its fate.
pub fn cut_frames(image: &mut [u8])
    ensures { Restated image.old (cutting image.old) image.new }
{
    restate(image, |state, fate| state.cut(fate));
}

// The first frame whose state is out of the list.
pub fn first_bad(image: &[u8]) -> Option<u32>
    requires { length image.now ≤ 266240 }
    ensures { MatchOption result (Listed image.now (length image.now / 520)) (FirstBad image.now) }
{
    let last = State::TornErased.number();
    let p = frames_of(image).iter().position(|frame| frame[0] > last)?;
    Some(p as u32)
}
