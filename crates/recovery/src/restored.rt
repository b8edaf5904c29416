// What recovery gives back.
use layout::Area;
use table::MappingTable;

// The mapping table, the active area with its number, and the next log page.
#[derive(Drop)]
pub struct Restored {
    pub table: MappingTable,
    pub area: Area,
    pub number: u8,
    pub next: u8,
}
