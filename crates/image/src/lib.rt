// Image devices: a chip and a disk over memory that the caller lends, whose power fails where a fuse says.
#![tactic(auto)]

mod fuses;
mod image_chip;
mod image_disk;
mod unfit;

pub use image_chip::ImageChip;
pub use image_disk::ImageDisk;
pub use unfit::Unfit;
