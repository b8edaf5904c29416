// Drops: before an erase block is erased, each marked page of it is dropped from the table.
ghost use Rattle.std.specs.Prelude.{◌≡◌, ◌<◌, ◌≤◌, [], length};
ghost use Rattle.journal.specs.Drops.{dropping_page, dropping};
ghost use Rattle.journal.specs.Notes.{noted};

use crate::memory::Journal;
use crate::staging::CommitOwed;
use device::{DataPage, EraseBlock};
use layout::{Mark, Record};

impl Journal {
    // Drops the page if it has a mark.
    fn drop_page(&mut self, page: DataPage)
        requires room { length (noted self.old).staged < 64 }
        ensures size { self.new.geometry ≡ self.old.geometry }
        ensures after { noted self.new ≡ dropping_page page.0 (noted self.old) }
    {
        let entry = self.table.entry(page);
        if entry.mark != Mark::Empty {
            self.stage_for_later(Record::Drop(entry.address));
        }
    }

    // Drops each marked page of an erase block, in page order, with nothing staged before. The drops have to be committed before the block is erased.
    pub fn drop_block(&mut self, block: EraseBlock) -> CommitOwed
        requires behind { 8 ≤ block.0 }
        requires none { (noted self.old).staged ≡ [] }
        ensures size { self.new.geometry ≡ self.old.geometry }
        ensures after { noted self.new ≡ dropping block.0 (noted self.old) }
    {
        for i in 0..self.table.len() {
            let page = DataPage(i);
            if page.chip_page().erase_block() == block {
                self.drop_page(page);
            }
        }
        CommitOwed(())
    }
}
