// A commit: a sync, and then the staged records on the next log page, or a checkpoint.
ghost use Rattle.std.specs.Prelude.{◌≡◌, ◌<◌, length};
ghost use Rattle.device.specs.Chips.{Syncs};
ghost use Rattle.layout.specs.Geometry.{log_pages, other_area};
ghost use Rattle.recovery.specs.Looking.{shown};
ghost use Rattle.journal.specs.Notes.{noted, pages_of, logged_pages, logged, checkpoint_pages, checkpointed, next_number};
ghost use Rattle.journal.specs.Ready.{IsReady};
ghost use Rattle.journal.specs.Steps.{AllSettled, CommitsAs, Commits};

use crate::areas::{clear_other, close_other, fill_other};
use crate::memory::Journal;
use crate::staging::CommitOwed;
use device::{Chip, Fault};
use layout::write_log;

// Settles the data pages, before a log page or a checkpoint names them. No plainer without: a function of its own, so that the edit which leaves this sync
// out is refused by what it ensures, and not by a proof that names the call.
fn settle_data<C: Chip>(chip: &mut C) -> Result<(), Fault>
    ensures rules { Syncs (C.Chip.meaning chip.old) result (C.Chip.meaning chip.new) }
{
    chip.sync() // data first
}

impl Journal {
    // Settles the data pages, and then puts the staged records on the chip.
    pub fn commit<C: Chip>(&mut self, chip: &mut C) -> Result<(), Fault>
        requires ready { IsReady (C.Chip.meaning chip.old) self.old }
        ensures size { self.new.geometry ≡ self.old.geometry }
        ensures commits { Commits (pages_of self.old) (C.Chip.meaning chip.old) (noted self.old) result (C.Chip.meaning chip.new) (noted self.new) }
    {
        settle_data(chip)?;
        if self.staged.is_empty() {
            Ok(())
        } else if self.next < self.geometry.log_pages() {
            self.log(chip)
        } else {
            self.checkpoint(chip)
        }
    }

    // The same where a staged record is owed.
    pub fn commit_owed<C: Chip>(&mut self, chip: &mut C, owed: CommitOwed) -> Result<(), Fault>
        requires ready { IsReady (C.Chip.meaning chip.old) self.old }
        ensures size { self.new.geometry ≡ self.old.geometry }
        ensures commits { Commits (pages_of self.old) (C.Chip.meaning chip.old) (noted self.old) result (C.Chip.meaning chip.new) (noted self.new) }
    {
        let CommitOwed(()) = owed;
        self.commit(chip)
    }

    // Programs the next log page with the staged records, and settles it.
    fn log<C: Chip>(&mut self, chip: &mut C) -> Result<(), Fault>
        requires ready { IsReady (C.Chip.meaning chip.old) self.old }
        requires settled { AllSettled (C.Chip.meaning chip.old) }
        requires some { 0 < length (noted self.old).staged }
        requires room { (noted self.old).next < log_pages (pages_of self.old) }
        ensures size { self.new.geometry ≡ self.old.geometry }
        ensures commits { CommitsAs (pages_of self.old) (C.Chip.meaning chip.old) (noted self.old) (logged_pages (pages_of self.old) (noted self.old) (shown (C.Chip.meaning chip.old))) (logged (noted self.old)) result (C.Chip.meaning chip.new) (noted self.new) }
    {
        let mut page = [0u8; 512];
        let note = write_log(&self.staged, &mut page);
        chip.program(self.geometry.log_page(self.area, self.next), note, &page)?;
        chip.sync()?;
        self.next += 1;
        self.staged.clear();
        Ok(())
    }

    // Writes the table into the other area, which is then the active one: erase, sync, entry pages, sync, trailer, sync.
    fn checkpoint<C: Chip>(&mut self, chip: &mut C) -> Result<(), Fault>
        requires ready { IsReady (C.Chip.meaning chip.old) self.old }
        requires settled { AllSettled (C.Chip.meaning chip.old) }
        ensures size { self.new.geometry ≡ self.old.geometry }
        ensures commits { CommitsAs (pages_of self.old) (C.Chip.meaning chip.old) (noted self.old) (checkpoint_pages (pages_of self.old) (other_area (noted self.old).area) (next_number (noted self.old).number) (noted self.old).table (shown (C.Chip.meaning chip.old))) (checkpointed (noted self.old)) result (C.Chip.meaning chip.new) (noted self.new) }
    {
        let number = (self.number + 1) % 3;
        clear_other(chip, self.area)?;
        fill_other(chip, self.geometry, self.area, &self.table)?;
        close_other(chip, self.geometry, self.area, number)?;
        self.area = self.area.other();
        self.number = number;
        self.next = 0;
        self.staged.clear();
        Ok(())
    }
}
