// What changes a mark: evict, clean, and the sync that commits what is staged.
ghost use Rattle.std.specs.Prelude.{◌≡◌, true};
ghost use Rattle.layout.specs.declared.entries.Mark.TheVariants.{Dirty};
ghost use Rattle.table.specs.Tables.{held, mark_of};
ghost use Rattle.journal.specs.Notes.{noted, pages_of};
ghost use Rattle.engine.specs.Works.{Evicts, Cleans, Flushes};
ghost use Rattle.engine.specs.Memories.{HoldsSomeTable};

use crate::memory::Memory;
use device::{Chip, DiskAddress, Fault};
use layout::Record;

impl Memory {
    // Drops an address that is held, and commits that.
    pub fn evict<C: Chip>(&mut self, chip: &mut C, address: DiskAddress) -> Result<(), Fault>
        requires holding { HoldsSomeTable (C.Chip.meaning chip.old) self.old }
        requires held { held (noted self.old.journal).table address.0 ≡ true }
        ensures size { self.new.journal.geometry ≡ self.old.journal.geometry }
        ensures space { self.new.space ≡ self.old.space }
        ensures evicts { Evicts (pages_of self.old.journal) address.0 (C.Chip.meaning chip.old) (noted self.old.journal) self.old.space result (C.Chip.meaning chip.new) (noted self.new.journal) }
    {
        self.make_roomy(chip)?;
        let owed = self.journal.stage(Record::Drop(address));
        self.journal.commit_owed(chip, owed)
    }

    // Marks an address clean whose page is dirty; the next commit takes it along.
    pub fn clean<C: Chip>(&mut self, chip: &mut C, address: DiskAddress) -> Result<(), Fault>
        requires holding { HoldsSomeTable (C.Chip.meaning chip.old) self.old }
        requires dirty { mark_of (noted self.old.journal).table address.0 ≡ Dirty }
        ensures size { self.new.journal.geometry ≡ self.old.journal.geometry }
        ensures space { self.new.space ≡ self.old.space }
        ensures cleans { Cleans (pages_of self.old.journal) address.0 (C.Chip.meaning chip.old) (noted self.old.journal) self.old.space result (C.Chip.meaning chip.new) (noted self.new.journal) }
    {
        self.make_roomy(chip)?;
        self.journal.stage_for_later(Record::MarkClean(address));
        Ok(())
    }

    // Commits what is staged.
    pub fn flush<C: Chip>(&mut self, chip: &mut C) -> Result<(), Fault>
        requires holding { HoldsSomeTable (C.Chip.meaning chip.old) self.old }
        ensures size { self.new.journal.geometry ≡ self.old.journal.geometry }
        ensures space { self.new.space ≡ self.old.space }
        ensures flushes { Flushes (pages_of self.old.journal) (C.Chip.meaning chip.old) (noted self.old.journal) self.old.space result (C.Chip.meaning chip.new) (noted self.new.journal) }
    {
        self.journal.commit(chip)
    }
}
