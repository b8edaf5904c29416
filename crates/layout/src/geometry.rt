// Where the pages of the mapping table and of the data lie, by the number of erase blocks.
ghost use Rattle.std.specs.Prelude.{◌≡◌, Some, None, Ok, Err};
ghost use Rattle.layout.specs.Geometry.{geometry_refusal, data_pages, entry_pages, log_pages, entry_page_at, trailer_at, log_page_at, Sizes};

use crate::areas::Area;
use crate::chip_size::Geometry;
use device::{ChipPage, Fault, Layer, Refusal};

impl Geometry {
    // Refuses a chip that a cache does not serve.
    pub fn new(blocks: u32) -> Result<Geometry, Fault>
        ensures { elim result [ Ok g ↦ (geometry_refusal blocks ≡ None) × (g.blocks ≡ blocks) | Err f ↦ geometry_refusal blocks ≡ Some f ] }
    {
        if (12..=64).contains(&blocks) {
            Ok(Geometry { blocks })
        } else {
            Err(Refusal::BadGeometry.at(Layer::Cache, 0))
        }
    }

    // The number of erase blocks.
    pub fn blocks(self) -> u32
        ensures { result ≡ self.blocks }
    {
        self.blocks
    }

    // The number of pages for data.
    pub fn data_pages(self) -> u16
        ensures { result ≡ data_pages self.blocks }
    {
        8 * (self.blocks as u16 - 8)
    }

    // The number of pages that hold the entries of a table.
    pub fn entry_pages(self) -> u8
        ensures { result ≡ entry_pages (data_pages self.blocks) }
    {
        self.data_pages().div_ceil(64) as u8
    }

    // The number of log pages in an area.
    pub fn log_pages(self) -> u8
        ensures { result ≡ log_pages (data_pages self.blocks) }
    {
        32 - (self.entry_pages() + 1)
    }

    // The chip page of entry page `j` of an area.
    pub fn entry_page(self, area: Area, j: u8) -> ChipPage
        ensures { result.0 ≡ entry_page_at area j }
    {
        ChipPage(area.first().0 + j as u32)
    }

    // The chip page of an area's trailer.
    pub fn trailer_page(self, area: Area) -> ChipPage
        ensures { result.0 ≡ trailer_at (data_pages self.blocks) area }
    {
        ChipPage(area.first().0 + self.entry_pages() as u32)
    }

    // The chip page of log page `j` of an area.
    pub fn log_page(self, area: Area, j: u8) -> ChipPage
        ensures { result.0 ≡ log_page_at (data_pages self.blocks) area j }
    {
        ChipPage(area.first().0 + self.entry_pages() as u32 + 1 + j as u32)
    }
}

// The smallest and the largest chip.
pub fn geometry_examples()
    ensures smallest { Sizes 12 32 1 30 }
    ensures largest { Sizes 64 448 7 24 }
{}
