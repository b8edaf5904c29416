// The four sorts of place, and the only two rules that turn one sort into another.
ghost use Rattle.std.specs.Prelude.{◌≡◌, ◌+◌};
ghost use Rattle.device.specs.Chips.{block_of, data_page_at};

// A block of a disk.
#[derive(Clone, Copy, PartialEq, Eq, PartialOrd, Ord, Debug)]
pub struct DiskAddress(pub u32);

// A page of a chip.
#[derive(Clone, Copy, PartialEq, Eq, PartialOrd, Ord, Debug)]
pub struct ChipPage(pub u32);

// A page for data, counted from the first one behind the two areas of the mapping table. Two bytes, as a log record has it.
#[derive(Clone, Copy, PartialEq, Eq, PartialOrd, Ord, Debug)]
pub struct DataPage(pub u16);

// Eight pages of a chip, which are erased together.
#[derive(Clone, Copy, PartialEq, Eq, PartialOrd, Ord, Debug)]
pub struct EraseBlock(pub u32);

impl ChipPage {
    // The erase block that the page lies in.
    pub fn erase_block(self) -> EraseBlock
        ensures { result.0 ≡ block_of self.0 }
    {
        EraseBlock(self.0 / 8)
    }
}

impl DataPage {
    // The chip page that the data page is.
    pub fn chip_page(self) -> ChipPage
        ensures { result.0 ≡ data_page_at self.0 }
    {
        ChipPage(64 + self.0 as u32)
    }
}
