// The data pages that the mapping table marks: each is held as a data page of its address.
ghost use Rattle.std.specs.Prelude.{◌≡◌, ℕ, ◌+◌, ◌*◌, ◌<◌, ◌≤◌, true, List, length, MatchBool};
ghost use Rattle.device.specs.declared.faults.Refusal.TheVariants.{Breach};
ghost use Rattle.device.specs.Chips.{State, data_page_at};
ghost use Rattle.table.specs.Views.{table_of};
ghost use Rattle.recovery.specs.Recovering.{cache_fault, IsData, Backed};
ghost use Rattle.recovery.specs.Looking.{shown, Quiet, Saw, Stage};
ghost use Rattle.recovery.specs.DataPages.{Backs, Unbacked};

use crate::look::Seen;
use crate::reader::Reader;
use device::{Chip, DataPage, DiskAddress, Fault, Layer, Refusal};
use layout::{Entry, Mark};
use table::MappingTable;

// Whether what was seen is a data page of the address.
fn is_data(seen: Seen, address: DiskAddress) -> bool
    ensures { (page : State) (bytes : List ℕ) → Saw page seen bytes → MatchBool result (IsData page address.0) (IsData page address.0 → ⊥) }
{
    match seen {
        Seen::Held(note) => layout::data_address(note) == Some(address),
        Seen::Blank | Seen::Torn => false,
    }
}

impl<C: Chip> Reader<'_, C> {
    // Looks at a data page; a breach if it is not held with the address.
    fn check_held(&mut self, page: DataPage, address: DiskAddress) -> Result<(), Fault>
        requires inside { data_page_at page.0 < 8 * self.old.geometry.blocks }
        ensures same { (self.new.chip.ghost_name ≡ self.old.chip.ghost_name) × (self.new.geometry ≡ self.old.geometry) }
        ensures quiet { Quiet (C.Chip.meaning self.old.chip.now) (C.Chip.meaning self.new.chip.now) }
        ensures found { Stage (λ _. IsData (shown (C.Chip.meaning self.old.chip.now) (data_page_at page.0)) address.0) (λ f. (f ≡ cache_fault (data_page_at page.0) Breach) × (IsData (shown (C.Chip.meaning self.old.chip.now) (data_page_at page.0)) address.0 → ⊥)) result (C.Chip.meaning self.new.chip.now) }
    {
        let place = page.chip_page();
        let seen = self.look(place)?;
        if is_data(seen, address) {
            Ok(())
        } else {
            Err(Refusal::Breach.at(Layer::Cache, place.0))
        }
    }

    // Looks at the page of an entry, if it has a mark.
    fn check_entry(&mut self, page: DataPage, entry: Entry) -> Result<(), Fault>
        requires on { (C.Chip.meaning self.old.chip.now).on ≡ true }
        requires inside { data_page_at page.0 < 8 * self.old.geometry.blocks }
        ensures same { (self.new.chip.ghost_name ≡ self.old.chip.ghost_name) × (self.new.geometry ≡ self.old.geometry) }
        ensures quiet { Quiet (C.Chip.meaning self.old.chip.now) (C.Chip.meaning self.new.chip.now) }
        ensures found { Stage (λ _. Backs (shown (C.Chip.meaning self.old.chip.now) (data_page_at page.0)) entry) (λ f. (f ≡ cache_fault (data_page_at page.0) Breach) × (Backs (shown (C.Chip.meaning self.old.chip.now) (data_page_at page.0)) entry → ⊥)) result (C.Chip.meaning self.new.chip.now) }
    {
        match entry.mark {
            Mark::Empty => Ok(()),
            Mark::Clean | Mark::Dirty => self.check_held(page, entry.address),
        }
    }

    // Goes through the table, up to the first data page that is not held as the table says.
    pub(crate) fn check_data(&mut self, table: &MappingTable) -> Result<(), Fault>
        requires on { (C.Chip.meaning self.old.chip.now).on ≡ true }
        requires inside { data_page_at (length (table_of table.now)) ≤ 8 * self.old.geometry.blocks }
        ensures same { (self.new.chip.ghost_name ≡ self.old.chip.ghost_name) × (self.new.geometry ≡ self.old.geometry) }
        ensures quiet { Quiet (C.Chip.meaning self.old.chip.now) (C.Chip.meaning self.new.chip.now) }
        ensures found { Stage (λ _. Backed (shown (C.Chip.meaning self.old.chip.now)) (table_of table.now) (length (table_of table.now))) (Unbacked (shown (C.Chip.meaning self.old.chip.now)) (table_of table.now)) result (C.Chip.meaning self.new.chip.now) }
    {
        let entries = table.as_slice();
        for (i, entry) in entries.iter().enumerate() {
            self.check_entry(DataPage(i as u16), *entry)?;
        }
        Ok(())
    }
}
