// The entries of a checkpoint: read page by page, with no address twice.
ghost use Rattle.std.specs.Prelude.{◌≡◌, ℕ, suc, ◌*◌, ◌<◌, ◌≤◌, ◌↔◌, List, length, IsTrue};
ghost use Rattle.device.specs.declared.faults.Refusal.TheVariants.{Breach};
ghost use Rattle.device.specs.Chips.{State};
ghost use Rattle.layout.specs.Geometry.{data_pages, entry_pages, entry_page_at};
ghost use Rattle.table.specs.Tables.{held as is_held};
ghost use Rattle.recovery.specs.Recovering.{DistinctBelow, Entered, cache_fault};
ghost use Rattle.recovery.specs.Looking.{shown, Quiet, Saw, Stage};
ghost use Rattle.recovery.specs.Entering.{Taken, EntriesFail};

use crate::look::Seen;
use crate::misfit::Misfit;
use crate::reader::Reader;
use device::{Chip, DiskAddress, Fault, Layer, Refusal};
use layout::{Area, Entry, Mark};

// Whether one of the entries holds the address.
fn held_in(entries: &[Entry], address: DiskAddress) -> bool
    ensures { result ≡ is_held entries.now address.0 }
{
    entries
        .iter()
        .any(|e| e.mark != Mark::Empty && e.address == address)
}

// Whether no two entries hold the same address.
fn distinct_in(entries: &[Entry]) -> bool
    ensures { IsTrue result ↔ DistinctBelow entries.now (length entries.now) }
{
    for (j, e) in entries.iter().enumerate() {
        if e.mark != Mark::Empty && held_in(&entries[..j], e.address) {
            return false;
        }
    }
    true
}

// Reads what was seen of entry page `j` into the table; refuses what is none, or holds an address a second time.
fn take_entries(seen: Seen, bytes: &[u8; 512], j: u8, table: &mut [Entry]) -> Result<(), Misfit>
    requires inside { 64 * j ≤ length table.old }
    ensures { (page : State) → Saw page seen bytes.now → Taken page j table.old result table.new }
{
    let Seen::Held(note) = seen else {
        return Err(Misfit);
    };
    layout::read_entries(note, bytes, j, table)?;
    let end = table.len().min(64 * j as usize + 64);
    if distinct_in(&table[..end]) {
        Ok(())
    } else {
        Err(Misfit)
    }
}

impl<C: Chip> Reader<'_, C> {
    // Reads entry page `j` of the area into the table, which has the pages before it; a breach if it does not fit.
    fn read_page(&mut self, area: Area, j: u8, table: &mut [Entry]) -> Result<(), Fault>
        requires few { j < entry_pages (data_pages self.old.geometry.blocks) }
        requires sofar { Entered (data_pages self.old.geometry.blocks) (shown (C.Chip.meaning self.old.chip.now)) area j table.old }
        ensures same { (self.new.chip.ghost_name ≡ self.old.chip.ghost_name) × (self.new.geometry ≡ self.old.geometry) }
        ensures quiet { Quiet (C.Chip.meaning self.old.chip.now) (C.Chip.meaning self.new.chip.now) }
        ensures found { Stage (λ _. Entered (data_pages self.old.geometry.blocks) (shown (C.Chip.meaning self.old.chip.now)) area (suc j) table.new) (λ f. (f ≡ cache_fault (entry_page_at area j) Breach) × ((u : List Entry) → Entered (data_pages self.old.geometry.blocks) (shown (C.Chip.meaning self.old.chip.now)) area (suc j) u → ⊥)) result (C.Chip.meaning self.new.chip.now) }
    {
        let page = self.geometry.entry_page(area, j);
        let seen = self.look(page)?;
        take_entries(seen, &self.page, j, table).map_err(|_| Refusal::Breach.at(
            Layer::Cache,
            page.0,
        ))
    }

    // Reads all entry pages of the area into the table.
    pub(crate) fn read_pages(&mut self, area: Area, table: &mut [Entry]) -> Result<(), Fault>
        requires long { length table.old ≡ data_pages self.old.geometry.blocks }
        ensures same { (self.new.chip.ghost_name ≡ self.old.chip.ghost_name) × (self.new.geometry ≡ self.old.geometry) }
        ensures quiet { Quiet (C.Chip.meaning self.old.chip.now) (C.Chip.meaning self.new.chip.now) }
        ensures found { Stage (λ _. Entered (data_pages self.old.geometry.blocks) (shown (C.Chip.meaning self.old.chip.now)) area (entry_pages (data_pages self.old.geometry.blocks)) table.new) (EntriesFail (data_pages self.old.geometry.blocks) (shown (C.Chip.meaning self.old.chip.now)) area) result (C.Chip.meaning self.new.chip.now) }
    {
        for j in 0..self.geometry.entry_pages() {
            self.read_page(area, j, table)?;
        }
        Ok(())
    }
}
