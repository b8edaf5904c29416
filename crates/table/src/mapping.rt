// The mapping table in memory, on a page of its own since the type keeps what holds of every table.
ghost use Rattle.std.specs.Prelude.{◌≤◌, length};
ghost use Rattle.table.specs.Tables.{AllFit, AllDistinct};

use arrayvec::ArrayVec;
use layout::Entry;

// An entry for each data page, of which there are at most 448.
#[derive(Drop)]
pub struct MappingTable {
    pub(crate) entries: ArrayVec<Entry, 448>,
    ghost within: { length entries.items ≤ 448 },
    ghost fit: { AllFit entries.items },
    ghost distinct: { AllDistinct entries.items },
}
