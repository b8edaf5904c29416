// The bytes of a disk image: a frame of 1,026 bytes for each block, with its state, its fate, its settled content and its new content.
#![tactic(auto)]

ghost use Rattle.std.specs.Prelude.{◌≡◌, ℕ, ◌/◌, ◌<◌, ◌≤◌, Bool, length, MatchOption, ◌==◌};
ghost use Rattle.std.specs.Simd.{first_chunks};
ghost use Rattle.device.specs.Cells.{reads, is_unsettled};
ghost use Rattle.device.specs.Cells.Cell.{settled};
ghost use Rattle.disk_frames.specs.Frames.{blocks_in, block_in, frame_at, frame_of, written_frame, settled_frame, settled_as, cut_frame, cut_block, ChangesOne, ChangesAll, Listed, FirstBad};

// The bytes of a frame.
pub const FRAME: usize = 1026;

// Where in a frame its fate stands, and where its two contents begin. The state stands first.
const FATE: usize = 1;

const SETTLED: usize = 2;

const NEW: usize = 514;

// The two states. An enum would be no plainer: a state is only ever compared with one of them, and no call matches on both.
const IS_SETTLED: u8 = 0;

const IS_UNSETTLED: u8 = 1;

// The fate by which a power cut keeps the new content. By any other the settled content stays.
const KEEPS_NEW: u8 = 1;

// The blocks in an image.
pub fn blocks_in(image: &[u8]) -> usize
    ensures { result ≡ blocks_in image.now }
{
    image.len() / FRAME
}

// The frames of an image, one for each block.
fn frames_of(image: &[u8]) -> &[[u8; FRAME]]
    ensures frames { result.now ≡ first_chunks 1026 (blocks_in image.now) image.now }
    ensures count { length result.now ≡ blocks_in image.now }
{
    let (frames, _) = image.as_chunks();
    frames
}

// The first block whose state is neither settled nor unsettled.
pub fn first_bad(image: &[u8]) -> Option<u32>
    requires { blocks_in image.now ≤ 65536 }
    ensures { MatchOption result (Listed image.now (blocks_in image.now)) (FirstBad image.now) }
{
    let b = frames_of(image)
        .iter()
        .position(|frame| frame[0] > IS_UNSETTLED)?;
    Some(b as u32)
}

// Whether a block is unsettled.
pub fn is_unsettled(image: &[u8], block: usize) -> bool
    requires { block < blocks_in image.now }
    ensures state { result ≡ ((frame_of image.now block).state == 1) }
    ensures block { result ≡ is_unsettled (block_in image.now block) }
{
    frames_of(image)[block][0] == IS_UNSETTLED
}

// Copies what a block reads into a buffer.
pub fn copy_block(image: &[u8], block: usize, buf: &mut [u8])
    requires inside { block < blocks_in image.now }
    requires whole { length buf.old ≡ 512 }
    ensures { buf.new ≡ reads (block_in image.now block) }
{
    let frame = &frames_of(image)[block];
    if is_unsettled(image, block) {
        buf.copy_from_slice(&frame[NEW..]);
    } else {
        buf.copy_from_slice(&frame[SETTLED..NEW]);
    }
}

// Writes a block: the bytes are its new content, and it is unsettled.
pub fn write_block(image: &mut [u8], block: usize, bytes: &[u8])
    requires inside { block < blocks_in image.old }
    requires whole { length bytes.now ≡ 512 }
    ensures { ChangesOne (written_frame bytes.now) block image.old image.new }
{
    let i = FRAME * block;
    let frame = &mut image[i..i + FRAME];
    frame[NEW..].copy_from_slice(bytes);
    frame[0] = IS_UNSETTLED;
}

// Settles a frame, if it is unsettled, with its new content or with its settled content.
fn settle_frame(frame: &mut [u8], with_new: bool)
    requires { length frame.old ≡ 1026 }
    ensures { frame_at frame.new 0 ≡ settled_as with_new (frame_at frame.old 0) }
{
    if frame[0] == IS_UNSETTLED {
        if with_new {
            frame.copy_within(NEW.., SETTLED);
        }
        frame[0] = IS_SETTLED;
    }
}

// Settles every block, with its new content if its fate says so.
fn settle_where<F: Fn(u8) -> bool>(image: &mut [u8], with_new: F)
    requires { F.IsAlwaysCallable with_new }
    ensures inside { (q : ℕ) → q < blocks_in image.old → (new : Bool) × F.post with_new (frame_of image.old q).fate new × (frame_of image.new q ≡ settled_as new (frame_of image.old q)) }
    ensures beyond { (q : ℕ) → blocks_in image.old ≤ q → frame_of image.new q ≡ frame_of image.old q }
{
    // Tried, the proof did not close: `chunks_exact_mut`, since the library does not say what the slice holds afterwards.
    for b in 0..blocks_in(image) {
        let i = FRAME * b;
        let new = with_new(image[i + FATE]);
        settle_frame(&mut image[i..i + FRAME], new);
    }
}

// Settles every block as it reads.
pub fn settle_blocks(image: &mut [u8])
    ensures frames { ChangesAll settled_frame image.old image.new }
    ensures blocks { (q : ℕ) → block_in image.new q ≡ settled (reads (block_in image.old q)) }
{
    settle_where(image, |_| true);
}

// Settles every block as a power cut leaves it, by its fate.
pub fn cut_blocks(image: &mut [u8])
    ensures frames { ChangesAll cut_frame image.old image.new }
    ensures blocks { (q : ℕ) → block_in image.new q ≡ cut_block (frame_of image.old q).fate (block_in image.old q) }
{
    settle_where(image, |fate| fate == KEEPS_NEW);
}
