// Writing a block: room for a page, the page, the record of it, and the commit.
ghost use Rattle.std.specs.Prelude.{◌≡◌, ◌<◌, false, length};
ghost use Rattle.device.specs.Chips.{data_page_at};
ghost use Rattle.recovery.specs.Looking.{shown};
ghost use Rattle.recovery.specs.Recovering.{IsData};
ghost use Rattle.table.specs.Tables.{marked_at};
ghost use Rattle.journal.specs.Notes.{noted, pages_of};
ghost use Rattle.engine.specs.Moves.{put_for};
ghost use Rattle.engine.specs.Works.{MakesRoomy, Enters, Writes};
ghost use Rattle.engine.specs.Memories.{HoldsSomeTable};

use crate::memory::Memory;
use device::{Chip, DataPage, DiskAddress, Fault, Layer, Refusal};
use layout::{Mark, Record};

// The record of a page that now has the address. That a block is dirty stays a yes or no all the way from the call: an enum would be no
// plainer, since it is asked as a condition, alone and with another one.
fn put(dirty: bool, page: DataPage, address: DiskAddress) -> Record
    ensures { result ≡ put_for dirty page.0 address.0 }
{
    if dirty {
        Record::PutDirty(page, address)
    } else {
        Record::PutClean(page, address)
    }
}

impl Memory {
    // Commits if 64 records are staged, so that one more can be.
    pub(crate) fn make_roomy<C: Chip>(&mut self, chip: &mut C) -> Result<(), Fault>
        requires holding { HoldsSomeTable (C.Chip.meaning chip.old) self.old }
        ensures size { self.new.journal.geometry ≡ self.old.journal.geometry }
        ensures space { self.new.space ≡ self.old.space }
        ensures roomy { MakesRoomy (pages_of self.old.journal) (C.Chip.meaning chip.old) (noted self.old.journal) self.old.space result (C.Chip.meaning chip.new) (noted self.new.journal) }
    {
        if self.journal.is_full() {
            self.journal.commit(chip)
        } else {
            Ok(())
        }
    }

    // Stages the put, and commits it if the page is dirty or the address was held.
    fn enter<C: Chip>(
        &mut self,
        chip: &mut C,
        page: DataPage,
        dirty: bool,
        address: DiskAddress,
    ) -> Result<(), Fault>
        requires holding { HoldsSomeTable (C.Chip.meaning chip.old) self.old }
        requires room { length (noted self.old.journal).staged < 64 }
        requires inside { page.0 < pages_of self.old.journal }
        requires unmarked { marked_at (noted self.old.journal).table page.0 ≡ false }
        requires data { IsData (shown (C.Chip.meaning chip.old) (data_page_at page.0)) address.0 }
        ensures size { self.new.journal.geometry ≡ self.old.journal.geometry }
        ensures space { self.new.space ≡ self.old.space }
        ensures enters { Enters (pages_of self.old.journal) dirty page.0 address.0 (C.Chip.meaning chip.old) (noted self.old.journal) self.old.space result (C.Chip.meaning chip.new) (noted self.new.journal) }
    {
        let held = self.journal.table().mark(address) != Mark::Empty;
        let record = put(dirty, page, address);
        if dirty || held {
            let owed = self.journal.stage(record);
            self.journal.commit_owed(chip, owed)
        } else {
            self.journal.stage_for_later(record);
            Ok(())
        }
    }

    // Writes a block, dirty or clean. Where no page can be had the answer is a refusal, and nothing has changed.
    pub fn write<C: Chip>(
        &mut self,
        chip: &mut C,
        dirty: bool,
        address: DiskAddress,
        bytes: &[u8],
    ) -> Result<(), Fault>
        requires holding { HoldsSomeTable (C.Chip.meaning chip.old) self.old }
        requires whole { length bytes.now ≡ 512 }
        ensures size { self.new.journal.geometry ≡ self.old.journal.geometry }
        ensures writes { Writes (pages_of self.old.journal) self.old.journal.geometry.blocks dirty address.0 bytes.now (C.Chip.meaning chip.old) (noted self.old.journal) self.old.space result (C.Chip.meaning chip.new) (noted self.new.journal) self.new.space }
    {
        match self.space.find_room(chip, &mut self.journal)? {
            Some(page) => {
                self.space.place(chip, &self.journal, page, address, bytes)?;
                self.make_roomy(chip)?;
                self.enter(chip, page, dirty, address)
            }
            None => Err(Refusal::Full.at(Layer::Cache, address.0)),
        }
    }
}
