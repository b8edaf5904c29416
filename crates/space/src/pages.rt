// The blank data pages: filled in after a form or from what the chip says, and kept up to date.
ghost use Rattle.std.specs.Prelude.{◌≡◌, ℕ, ◌<◌, true, false, ◌||◌, List, set, slice_index_or};
ghost use Rattle.device.specs.Chips.{State};
ghost use Rattle.layout.specs.Geometry.{data_pages};
ghost use Rattle.recovery.specs.Looking.{Quiet, Saw, Looks};
ghost use Rattle.table.specs.Choices.{FindsRound};
ghost use Rattle.table.specs.Views.{page_number};
ghost use Rattle.journal.specs.Drops.{in_block};
ghost use Rattle.space.specs.Worlds.{flags, data_page_count, is_blank, Fits, past};

use crate::blanks::Space;
use arrayvec::ArrayVec;
use device::{Chip, DataPage, EraseBlock, Fault};
use layout::Geometry;
use recovery::look::{Seen, look};
use table::first_blank;

// Whether the page was seen blank.
fn is_blank(seen: Seen) -> bool
    ensures { (page : State) (bytes : List ℕ) → Saw page seen bytes → result ≡ is_blank page }
{
    matches!(seen, Seen::Blank)
}

impl Space {
    // Every data page is blank, as after a form.
    pub fn all_blank(geometry: Geometry) -> Space
        ensures long { data_page_count result ≡ data_pages geometry.blocks }
        ensures each { (i : ℕ) → i < data_pages geometry.blocks → slice_index_or (flags result) i false ≡ true }
        ensures first { result.cursor.0 ≡ 0 }
    {
        let mut blank = ArrayVec::from([true; 448]);
        blank.truncate(geometry.data_pages() as usize);
        Space {
            blank,
            cursor: DataPage(0),
        }
    }

    // Looks at every data page of a chip that is on.
    pub fn scan<C: Chip>(chip: &mut C, geometry: Geometry) -> Result<Space, Fault>
        requires on { (C.Chip.meaning chip.old).on ≡ true }
        requires fits { (C.Chip.meaning chip.old).size ≡ geometry.blocks }
        ensures quiet { Quiet (C.Chip.meaning chip.old) (C.Chip.meaning chip.new) }
        ensures found { Looks (λ sp. Fits (data_pages geometry.blocks) (C.Chip.meaning chip.old) sp × (sp.cursor.0 ≡ 0)) result (C.Chip.meaning chip.new) }
    {
        let mut blank = ArrayVec::new();
        let mut buf = [0u8; 512];
        for i in 0..geometry.data_pages() {
            let seen = look(chip, DataPage(i).chip_page(), &mut buf)?;
            blank.push(is_blank(seen));
        }
        Ok(Space {
            blank,
            cursor: DataPage(0),
        })
    }

    // The first blank data page at or after the cursor, going round.
    pub fn first(&self) -> Option<DataPage>
        ensures { FindsRound (λ i. slice_index_or (flags self.now) i false) (data_page_count self.now) self.now.cursor.0 (page_number result) }
    {
        first_blank(&self.blank, self.cursor)
    }

    // A data page is used, and the cursor moves past it.
    pub(crate) fn take(&mut self, page: DataPage)
        requires { page.0 < data_page_count self.old }
        ensures used { flags self.new ≡ set (flags self.old) page.0 false }
        ensures past { self.new.cursor.0 ≡ past (data_page_count self.old) page.0 }
    {
        self.blank[page.0 as usize] = false;
        self.cursor = DataPage((page.0 + 1) % self.blank.len() as u16);
    }

    // The data pages of an erase block are blank again.
    pub(crate) fn free(&mut self, block: EraseBlock)
        ensures long { data_page_count self.new ≡ data_page_count self.old }
        ensures each { (i : ℕ) → i < data_page_count self.old → slice_index_or (flags self.new) i false ≡ in_block block.0 i || slice_index_or (flags self.old) i false }
        ensures stays { self.new.cursor ≡ self.old.cursor }
    {
        for (i, blank) in self.blank.iter_mut().enumerate() {
            *blank |= DataPage(i as u16).chip_page().erase_block() == block;
        }
    }
}
