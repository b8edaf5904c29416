// Records are staged in the moment in which the table changes, and committed later.
ghost use Rattle.std.specs.Prelude.{◌≡◌, ◌<◌, [], length, ◌==◌};
ghost use Rattle.table.specs.Views.{table_of};
ghost use Rattle.journal.specs.Notes.{noted, Fits, Stages};

use crate::memory::Journal;
use arrayvec::ArrayVec;
use layout::{Geometry, Record};
use recovery::Restored;
use table::MappingTable;

// What staging a record leaves to do where the call must commit it: only a commit takes it.
pub struct CommitOwed(pub(crate) ());

impl Journal {
    // The journal that recovery found, with nothing staged.
    pub fn recovered(geometry: Geometry, found: Restored) -> Journal
        ensures size { result.geometry ≡ geometry }
        ensures noted { noted result ≡ record { table = table_of found.table; staged = []; area = found.area; number = found.number; next = found.next } }
    {
        let Restored {
            table,
            area,
            number,
            next,
        } = found;
        Journal {
            geometry,
            table,
            staged: ArrayVec::new(),
            area,
            number,
            next,
        }
    }

    // The size of the chip.
    pub fn geometry(&self) -> Geometry
        ensures { result ≡ self.now.geometry }
    {
        self.geometry
    }

    // The mapping table.
    pub fn table(&self) -> &MappingTable
        ensures { table_of result.now ≡ (noted self.now).table }
    {
        &self.table
    }

    // Whether a commit has to come before another record is staged.
    pub fn is_full(&self) -> bool
        ensures { result ≡ (length (noted self.now).staged == 64) }
    {
        self.staged.is_full()
    }

    // Does to the table what the record says, and stages the record: the next commit takes it along.
    pub fn stage_for_later(&mut self, change: Record)
        requires room { length (noted self.old).staged < 64 }
        requires fits { Fits (noted self.old) change }
        ensures size { self.new.geometry ≡ self.old.geometry }
        ensures after { Stages (noted self.old) change (noted self.new) }
    {
        let _ = self.table.apply(change);
        self.staged.push(change);
    }

    // The same for a record that the call must commit before it answers.
    pub fn stage(&mut self, change: Record) -> CommitOwed
        requires room { length (noted self.old).staged < 64 }
        requires fits { Fits (noted self.old) change }
        ensures size { self.new.geometry ≡ self.old.geometry }
        ensures after { Stages (noted self.old) change (noted self.new) }
    {
        self.stage_for_later(change);
        CommitOwed(())
    }
}
