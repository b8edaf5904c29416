// Recovery over any chip: trailers, entries, log, data pages, in this order, up to the first fault met.
ghost use Rattle.std.specs.Prelude.{◌≡◌, true};
ghost use Rattle.layout.specs.Geometry.{data_pages, entry_pages};
ghost use Rattle.table.specs.Views.{table_of};
ghost use Rattle.recovery.specs.Recovering.{Active, Entered, Recovered, Failed};
ghost use Rattle.recovery.specs.Looking.{shown, Quiet, Stage};
ghost use Rattle.recovery.specs.Entering.{EntriesFail};
ghost use Rattle.recovery.specs.Restoring.{found_of, Restores};

use crate::reader::Reader;
use crate::restored::Restored;
use crate::trailers::ActiveArea;
use arrayvec::ArrayVec;
use device::{Chip, Fault};
use layout::{Area, Entry, Geometry};
use table::MappingTable;

impl<C: Chip> Reader<'_, C> {
    // The table of the checkpoint in an area.
    fn read_table(&mut self, area: Area) -> Result<MappingTable, Fault>
        ensures same { (self.new.chip.ghost_name ≡ self.old.chip.ghost_name) × (self.new.geometry ≡ self.old.geometry) }
        ensures quiet { Quiet (C.Chip.meaning self.old.chip.now) (C.Chip.meaning self.new.chip.now) }
        ensures found { Stage (λ t. Entered (data_pages self.old.geometry.blocks) (shown (C.Chip.meaning self.old.chip.now)) area (entry_pages (data_pages self.old.geometry.blocks)) (table_of t)) (EntriesFail (data_pages self.old.geometry.blocks) (shown (C.Chip.meaning self.old.chip.now)) area) result (C.Chip.meaning self.new.chip.now) }
    {
        let mut entries = ArrayVec::from([Entry::EMPTY; 448]);
        entries.truncate(self.geometry.data_pages() as usize);
        self.read_pages(area, &mut entries)?;
        Ok(MappingTable::of_entries(entries))
    }

    // The log and the data pages, behind a checkpoint that was read.
    fn finish(&mut self, active: ActiveArea, mut table: MappingTable) -> Result<Restored, Fault>
        requires on { (C.Chip.meaning self.old.chip.now).on ≡ true }
        requires active { Active (data_pages self.old.geometry.blocks) (shown (C.Chip.meaning self.old.chip.now)) active.area active.number }
        requires entries { Entered (data_pages self.old.geometry.blocks) (shown (C.Chip.meaning self.old.chip.now)) active.area (entry_pages (data_pages self.old.geometry.blocks)) (table_of table) }
        ensures same { (self.new.chip.ghost_name ≡ self.old.chip.ghost_name) × (self.new.geometry ≡ self.old.geometry) }
        ensures quiet { Quiet (C.Chip.meaning self.old.chip.now) (C.Chip.meaning self.new.chip.now) }
        ensures found { Stage (λ f. Recovered (data_pages self.old.geometry.blocks) (shown (C.Chip.meaning self.old.chip.now)) (found_of f)) (Failed (data_pages self.old.geometry.blocks) (shown (C.Chip.meaning self.old.chip.now))) result (C.Chip.meaning self.new.chip.now) }
    {
        let next = self.replay_log(active.area, &mut table)?;
        self.check_data(&table)?;
        Ok(Restored {
            table,
            area: active.area,
            number: active.number,
            next,
        })
    }

    // The checkpoint of the active area, and what its log makes of it.
    fn restore(&mut self, active: ActiveArea) -> Result<Restored, Fault>
        requires active { Active (data_pages self.old.geometry.blocks) (shown (C.Chip.meaning self.old.chip.now)) active.area active.number }
        ensures same { (self.new.chip.ghost_name ≡ self.old.chip.ghost_name) × (self.new.geometry ≡ self.old.geometry) }
        ensures quiet { Quiet (C.Chip.meaning self.old.chip.now) (C.Chip.meaning self.new.chip.now) }
        ensures found { Stage (λ f. Recovered (data_pages self.old.geometry.blocks) (shown (C.Chip.meaning self.old.chip.now)) (found_of f)) (Failed (data_pages self.old.geometry.blocks) (shown (C.Chip.meaning self.old.chip.now))) result (C.Chip.meaning self.new.chip.now) }
    {
        let table = self.read_table(active.area)?;
        self.finish(active, table)
    }

    // The mapping table of the chip.
    fn recover(&mut self) -> Result<Restored, Fault>
        ensures same { (self.new.chip.ghost_name ≡ self.old.chip.ghost_name) × (self.new.geometry ≡ self.old.geometry) }
        ensures quiet { Quiet (C.Chip.meaning self.old.chip.now) (C.Chip.meaning self.new.chip.now) }
        ensures found { Stage (λ f. Recovered (data_pages self.old.geometry.blocks) (shown (C.Chip.meaning self.old.chip.now)) (found_of f)) (Failed (data_pages self.old.geometry.blocks) (shown (C.Chip.meaning self.old.chip.now))) result (C.Chip.meaning self.new.chip.now) }
    {
        let active = self.active_area()?;
        self.restore(active)
    }
}

// Reads the mapping table back from a chip that is on. The chip is only looked at.
pub fn recover<C: Chip>(chip: &mut C) -> Result<Restored, Fault>
    ensures quiet { Quiet (C.Chip.meaning chip.old) (C.Chip.meaning chip.new) }
    ensures found { Restores (C.Chip.meaning chip.old) result (C.Chip.meaning chip.new) }
{
    let geometry = Geometry::new(chip.blocks())?;
    let mut reader = Reader {
        chip,
        geometry,
        page: [0; 512],
    };
    reader.recover()
}
