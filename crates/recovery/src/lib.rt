// Recovery of the mapping table from a chip.
#![tactic(auto)]

mod answer;
mod checkpoint;
mod data_pages;
mod log;
pub mod look;
mod misfit;
mod reader;
mod restored;
mod trailers;
mod whole;

pub use answer::{
    newer_area_example, recovery_has_one_answer, same_numbers_example,
    what_was_written_is_read_back, worked_examples,
};
pub use restored::Restored;
pub use whole::recover;
