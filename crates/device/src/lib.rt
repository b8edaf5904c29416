// Flash chips and disks as interfaces with an exact meaning, and the laws that every layer above rests on.
#![tactic(auto)]

mod chips;
mod disks;
mod faults;
mod laws;
mod places;

pub use chips::{Chip, Note};
pub use disks::Disk;
pub use faults::{Fault, Layer, Refusal};
pub use laws::{
    chip_cuts_stay_within_what_was_wanted, chip_reads_after_a_call,
    disk_cuts_stay_within_what_was_wanted, disk_reads_after_a_call, served_syncs_settle_everything,
};
pub use places::{ChipPage, DataPage, DiskAddress, EraseBlock};
