// What the programs share: texts as blocks, the fates of frames, and lines about calls and refusals.
#![tactic(auto)]

mod fates;
mod lines;
mod texts;

pub use chip_frames::Fate;
pub use fates::set_fate;
pub use lines::{Columns, refused};
pub use texts::{BLOCK, block_of, text_in};
