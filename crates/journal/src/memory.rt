// What the journal keeps in memory, on a page of its own since the type keeps a bound that callers may read.
ghost use Rattle.std.specs.Prelude.{◌≤◌, length};

use arrayvec::ArrayVec;
use layout::{Area, Geometry, Record};
use table::MappingTable;

// The mapping table, the records staged since the last commit, the active area with its number, and its next log page. That the size
// stays is said by each call that changes a journal, here and in the crates above.
#[derive(Drop)]
pub struct Journal {
    pub(crate) geometry: Geometry,
    pub(crate) table: MappingTable,
    pub(crate) staged: ArrayVec<Record, 64>,
    pub(crate) area: Area,
    pub(crate) number: u8,
    pub(crate) next: u8,
    ghost few: { length staged.items ≤ 64 },
}
