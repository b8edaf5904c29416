// The parts of a checkpoint: the area that is not active is erased, filled with the entry pages, and closed by its trailer, with a sync behind each.
ghost use Rattle.std.specs.Prelude.{◌≡◌, ℕ, ◌≤◌, true, length};
ghost use Rattle.device.specs.Chips.{Syncs};
ghost use Rattle.device.specs.Chips.State.{blank};
ghost use Rattle.layout.specs.Geometry.{data_pages, other_area, trailer_at};
ghost use Rattle.recovery.specs.Looking.{shown};
ghost use Rattle.crash.specs.Crash.{Holds};
ghost use Rattle.table.specs.Tables.{Table};
ghost use Rattle.table.specs.Views.{table_of};
ghost use Rattle.journal.specs.Notes.{in_area};
ghost use Rattle.journal.specs.Steps.{AllSettled, Landing, Beside, StillHolds, TakesOver, cleared, with_entries, with_trailer};

use crate::erasing::erase_all;
use device::{Chip, Fault};
use layout::{Area, Geometry, write_entries, write_trailer};
use table::MappingTable;

// Erases the four erase blocks of the area that is not active, and settles them.
pub(crate) fn clear_other<C: Chip>(chip: &mut C, active: Area) -> Result<(), Fault>
    requires on { (C.Chip.meaning chip.old).on ≡ true }
    requires large { 12 ≤ (C.Chip.meaning chip.old).size }
    requires settled { AllSettled (C.Chip.meaning chip.old) }
    ensures done { Landing (C.Chip.meaning chip.old) (cleared active (shown (C.Chip.meaning chip.old))) result (C.Chip.meaning chip.new) }
    ensures others { Beside active (C.Chip.meaning chip.old) (C.Chip.meaning chip.new) }
    ensures held { StillHolds active (C.Chip.meaning chip.old) (C.Chip.meaning chip.new) }
{
    let first = active.other().first().erase_block();
    erase_all(chip, first.0..first.0 + 4)
}

// Settles the entry pages, before the trailer makes them count. A function of its own, for the same reason as `settle_data`.
fn settle_entries<C: Chip>(chip: &mut C) -> Result<(), Fault>
    ensures rules { Syncs (C.Chip.meaning chip.old) result (C.Chip.meaning chip.new) }
{
    chip.sync() // entries first
}

// Programs the entry pages of a table into the area that is not active, which is blank, and settles them.
pub(crate) fn fill_other<C: Chip>(
    chip: &mut C,
    geometry: Geometry,
    active: Area,
    table: &MappingTable,
) -> Result<(), Fault>
    requires on { (C.Chip.meaning chip.old).on ≡ true }
    requires fits { (C.Chip.meaning chip.old).size ≡ geometry.blocks }
    requires long { length (table_of table.now) ≡ data_pages geometry.blocks }
    requires settled { AllSettled (C.Chip.meaning chip.old) }
    requires free { (p : ℕ) → in_area (other_area active) p ≡ true → shown (C.Chip.meaning chip.old) p ≡ blank }
    ensures done { Landing (C.Chip.meaning chip.old) (with_entries (data_pages geometry.blocks) active (table_of table.now) (shown (C.Chip.meaning chip.old))) result (C.Chip.meaning chip.new) }
    ensures others { Beside active (C.Chip.meaning chip.old) (C.Chip.meaning chip.new) }
    ensures held { (n : ℕ) (t : Table) → Holds (data_pages geometry.blocks) (C.Chip.meaning chip.old) active n t → Holds (data_pages geometry.blocks) (C.Chip.meaning chip.new) active n t }
{
    let mut page = [0u8; 512];
    for j in 0..geometry.entry_pages() {
        let note = write_entries(table.as_slice(), j, &mut page);
        chip.program(geometry.entry_page(active.other(), j), note, &page)?;
    }
    settle_entries(chip)
}

// Programs the trailer of the area that is not active, and settles it: from then on that area is the active one.
pub(crate) fn close_other<C: Chip>(
    chip: &mut C,
    geometry: Geometry,
    active: Area,
    number: u8,
) -> Result<(), Fault>
    requires on { (C.Chip.meaning chip.old).on ≡ true }
    requires fits { (C.Chip.meaning chip.old).size ≡ geometry.blocks }
    requires settled { AllSettled (C.Chip.meaning chip.old) }
    requires free { shown (C.Chip.meaning chip.old) (trailer_at (data_pages geometry.blocks) (other_area active)) ≡ blank }
    ensures done { Landing (C.Chip.meaning chip.old) (with_trailer (data_pages geometry.blocks) active number (shown (C.Chip.meaning chip.old))) result (C.Chip.meaning chip.new) }
    ensures others { Beside active (C.Chip.meaning chip.old) (C.Chip.meaning chip.new) }
    ensures over { TakesOver (data_pages geometry.blocks) active number result (C.Chip.meaning chip.old) (C.Chip.meaning chip.new) }
{
    let mut page = [0u8; 512];
    let note = write_trailer(geometry, active.other(), number, &mut page);
    chip.program(geometry.trailer_page(active.other()), note, &page)?;
    chip.sync()
}
