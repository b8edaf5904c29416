// Room for a new page: a blank data page, or one that a reclaim makes blank.
ghost use Rattle.std.specs.Prelude.{◌≡◌, ◌<◌, ◌≤◌, true, [], length};
ghost use Rattle.recovery.specs.Looking.{shown};
ghost use Rattle.table.specs.Tables.{Table};
ghost use Rattle.journal.specs.Drops.{dropping};
ghost use Rattle.journal.specs.Notes.{noted, pages_of};
ghost use Rattle.journal.specs.Ready.{Ready};
ghost use Rattle.journal.specs.Steps.{Commits};
ghost use Rattle.space.specs.Rooms.{KeepsSomeTable, Reclaims, FindsRoom, Places};
ghost use Rattle.space.specs.Worlds.{blank_page};

use crate::blanks::Space;
use device::{Chip, DataPage, DiskAddress, EraseBlock, Fault};
use journal::Journal;
use layout::note_of_data;

// Drops every marked page of the erase block, and commits that.
fn drop_all<C: Chip>(chip: &mut C, journal: &mut Journal, block: EraseBlock) -> Result<(), Fault>
    requires none { (noted journal.old).staged ≡ [] }
    requires behind { 8 ≤ block.0 }
    requires ready { (t : Table) × Ready (pages_of journal.old) (C.Chip.meaning chip.old) (dropping block.0 (noted journal.old)) t }
    ensures size { journal.new.geometry ≡ journal.old.geometry }
    ensures commits { Commits (pages_of journal.old) (C.Chip.meaning chip.old) (dropping block.0 (noted journal.old)) result (C.Chip.meaning chip.new) (noted journal.new) }
{
    let owed = journal.drop_block(block);
    journal.commit_owed(chip, owed)
}

impl Space {
    // Commits, drops every marked page of the erase block, commits that, and only then erases the block.
    pub fn reclaim<C: Chip>(
        &mut self,
        chip: &mut C,
        journal: &mut Journal,
        block: EraseBlock,
    ) -> Result<(), Fault>
        requires keeps { KeepsSomeTable (C.Chip.meaning chip.old) journal.old self.old }
        requires behind { 8 ≤ block.0 }
        requires within { block.0 < journal.old.geometry.blocks }
        ensures size { journal.new.geometry ≡ journal.old.geometry }
        ensures reclaims { Reclaims (pages_of journal.old) block.0 (C.Chip.meaning chip.old) (noted journal.old) self.old result (C.Chip.meaning chip.new) (noted journal.new) self.new }
    {
        journal.commit(chip)?;
        drop_all(chip, journal, block)?;
        chip.erase(block)?;
        chip.sync()?;
        self.free(block);
        Ok(())
    }

    // The page to write to, once there is room; none if there is no room to be had.
    pub fn find_room<C: Chip>(
        &mut self,
        chip: &mut C,
        journal: &mut Journal,
    ) -> Result<Option<DataPage>, Fault>
        requires keeps { KeepsSomeTable (C.Chip.meaning chip.old) journal.old self.old }
        ensures size { journal.new.geometry ≡ journal.old.geometry }
        ensures finds { FindsRoom (pages_of journal.old) journal.old.geometry.blocks (C.Chip.meaning chip.old) (noted journal.old) self.old result (C.Chip.meaning chip.new) (noted journal.new) self.new }
    {
        if let Some(page) = self.first() {
            return Ok(Some(page));
        }
        let Some(block) = journal.table().victim(journal.geometry()) else {
            return Ok(None);
        };
        self.reclaim(chip, journal, block)?;
        Ok(self.first())
    }

    // Programs a blank data page with a block of the disk, and moves the cursor past it.
    pub fn place<C: Chip>(
        &mut self,
        chip: &mut C,
        journal: &Journal,
        page: DataPage,
        address: DiskAddress,
        bytes: &[u8],
    ) -> Result<(), Fault>
        requires keeps { KeepsSomeTable (C.Chip.meaning chip.old) journal.now self.old }
        requires whole { length bytes.now ≡ 512 }
        requires inside { page.0 < pages_of journal.now }
        requires free { blank_page (shown (C.Chip.meaning chip.old)) page.0 ≡ true }
        ensures places { Places (pages_of journal.now) page.0 address.0 bytes.now (C.Chip.meaning chip.old) (noted journal.now) self.old result (C.Chip.meaning chip.new) self.new }
    {
        chip.program(page.chip_page(), note_of_data(address), bytes)?;
        self.take(page);
        Ok(())
    }
}
