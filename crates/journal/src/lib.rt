// The journal of the mapping table: records staged in memory, and commits of them to a chip.
#![tactic(auto)]

mod areas;
mod commits;
mod dropping;
mod erasing;
mod forming;
mod memory;
mod staging;

pub use forming::form;
pub use memory::Journal;
pub use staging::CommitOwed;
