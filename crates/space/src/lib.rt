// The data pages of a chip: which are blank, which one is written next, and how an erase block is reclaimed.
#![tactic(auto)]

mod blanks;
mod pages;
mod rooms;

pub use blanks::Space;
