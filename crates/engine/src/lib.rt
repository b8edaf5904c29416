// What each call of a cache does to its chip, journal and data pages, while it is on.
#![tactic(auto)]

mod marking;
mod memory;
mod reading;
mod writing;

pub use memory::Memory;
