// The mapping table as bytes on flash: where its pages lie, and what they hold.
#![tactic(auto)]

mod areas;
mod cells;
mod checkpoints;
mod chip_size;
mod entries;
mod geometry;
mod laws;
mod logs;
mod notes;
mod pages;
mod records;
mod trailers;

pub use areas::Area;
pub use cells::{Cell, read_back};
pub use checkpoints::{read_entries, read_trailer, write_entries, write_trailer};
pub use chip_size::Geometry;
pub use entries::{Entry, Mark};
pub use geometry::geometry_examples;
pub use laws::{checkpoints_read_one_way, log_pages_read_one_way};
pub use logs::{data_address, note_of_data, read_log, write_log};
pub use notes::Malformed;
pub use records::{Record, record_example};
