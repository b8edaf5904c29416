// Two chips joined into one.
#![tactic(auto)]

mod halves;
mod pairs;

pub use pairs::{ChipPair, TooLarge};
