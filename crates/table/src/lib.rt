// The mapping table: for each data page a mark and a disk address.
#![tactic(auto)]

mod changes;
mod choices;
mod lookups;
mod mapping;

pub use changes::{Breach, replay_examples};
pub use choices::first_blank;
pub use mapping::MappingTable;
