// The log of an area: its records, applied to the table of its checkpoint.
ghost use Rattle.std.specs.Prelude.{◌≡◌, ℕ, ◌<◌, true, Some, None, MatchResult};
ghost use Rattle.device.specs.declared.faults.Refusal.TheVariants.{Breach};
ghost use Rattle.device.specs.Chips.{State};
ghost use Rattle.layout.specs.Geometry.{data_pages, log_pages, log_page_at};
ghost use Rattle.table.specs.Tables.{Table, replayed};
ghost use Rattle.table.specs.Views.{table_of};
ghost use Rattle.recovery.specs.Recovering.{cache_fault, LogStep, Logged};
ghost use Rattle.recovery.specs.Looking.{shown, Quiet, Saw, Stage};
ghost use Rattle.recovery.specs.Logs.{Replays, Stepped, Unlogged};

use crate::look::Seen;
use crate::misfit::Misfit;
use crate::reader::Reader;
use device::{Chip, Fault, Layer, Note, Refusal};
use layout::{Area, Record};
use table::MappingTable;

// Applies the records in order, up to the first that does not fit the table.
fn replay(table: &mut MappingTable, records: &[Record]) -> Result<(), table::Breach>
    ensures { MatchResult result (λ _. replayed (Some (table_of table.old)) records.now ≡ Some (table_of table.new)) (λ _. replayed (Some (table_of table.old)) records.now ≡ None) }
{
    // the index stays by a rule of the project, for each loop over a page's records
    for (k, record) in records.iter().enumerate() {
        table.apply(*record)?;
    }
    Ok(())
}

// Applies the records of a held page; refuses what is no log page, or does not fit the table.
fn replay_page(note: Note, bytes: &[u8; 512], table: &mut MappingTable) -> Result<(), Misfit>
    ensures { MatchResult result (λ _. Replays note bytes.now (table_of table.old) (table_of table.new)) (λ _. (u : Table) → Replays note bytes.now (table_of table.old) u → ⊥) }
{
    let records = layout::read_log(note, bytes).ok_or(Misfit)?;
    replay(table, &records)?;
    Ok(())
}

// The next log page after page `j`, by what was seen there, where `next` is the next one before it. Refuses what is no log page, or does not fit the
// table.
fn step(
    seen: Seen,
    bytes: &[u8; 512],
    j: u8,
    next: u8,
    table: &mut MappingTable,
) -> Result<u8, Misfit>
    requires few { j < 32 }
    ensures { (page : State) → Saw page seen bytes.now → Stepped page j (table_of table.old) next result (table_of table.new) }
{
    match seen {
        Seen::Blank => Ok(next),
        Seen::Torn => Ok(j + 1),
        Seen::Held(note) => {
            replay_page(note, bytes, table)?;
            Ok(j + 1)
        }
    }
}

impl<C: Chip> Reader<'_, C> {
    // Looks at log page `j` of the area, and applies what it holds.
    fn replay_at(
        &mut self,
        area: Area,
        j: u8,
        next: u8,
        table: &mut MappingTable,
    ) -> Result<u8, Fault>
        requires inside { j < log_pages (data_pages self.old.geometry.blocks) }
        ensures same { (self.new.chip.ghost_name ≡ self.old.chip.ghost_name) × (self.new.geometry ≡ self.old.geometry) }
        ensures quiet { Quiet (C.Chip.meaning self.old.chip.now) (C.Chip.meaning self.new.chip.now) }
        ensures found { Stage (λ m. LogStep (shown (C.Chip.meaning self.old.chip.now) (log_page_at (data_pages self.old.geometry.blocks) area j)) j (table_of table.old) next (table_of table.new) m) (λ f. (f ≡ cache_fault (log_page_at (data_pages self.old.geometry.blocks) area j) Breach) × ((v : Table) (k : ℕ) → LogStep (shown (C.Chip.meaning self.old.chip.now) (log_page_at (data_pages self.old.geometry.blocks) area j)) j (table_of table.old) next v k → ⊥)) result (C.Chip.meaning self.new.chip.now) }
    {
        let page = self.geometry.log_page(area, j);
        let seen = self.look(page)?;
        step(seen, &self.page, j, next, table).map_err(|_| Refusal::Breach.at(Layer::Cache, page.0))
    }

    // Goes through the log pages of the area, up to the first breach, and applies their records; answers the next log page.
    pub(crate) fn replay_log(&mut self, area: Area, table: &mut MappingTable) -> Result<u8, Fault>
        requires on { (C.Chip.meaning self.old.chip.now).on ≡ true }
        ensures same { (self.new.chip.ghost_name ≡ self.old.chip.ghost_name) × (self.new.geometry ≡ self.old.geometry) }
        ensures quiet { Quiet (C.Chip.meaning self.old.chip.now) (C.Chip.meaning self.new.chip.now) }
        ensures found { Stage (Logged (data_pages self.old.geometry.blocks) (shown (C.Chip.meaning self.old.chip.now)) area (log_pages (data_pages self.old.geometry.blocks)) (table_of table.old) (table_of table.new)) (Unlogged (data_pages self.old.geometry.blocks) (shown (C.Chip.meaning self.old.chip.now)) area (table_of table.old)) result (C.Chip.meaning self.new.chip.now) }
    {
        let mut next = 0;
        for j in 0..self.geometry.log_pages() {
            next = self.replay_at(area, j, next, table)?;
        }
        Ok(next)
    }
}
