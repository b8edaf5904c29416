// A form: every erase block is erased, and the checkpoint of an empty table is written into area one.
ghost use Rattle.std.specs.Prelude.{◌≡◌, true, Ok, Err};
ghost use Rattle.layout.specs.Geometry.{data_pages};
ghost use Rattle.journal.specs.Notes.{noted};
ghost use Rattle.journal.specs.Steps.{AllSettled, Fails, Formed, Wiped};

use crate::areas::{close_other, fill_other};
use crate::erasing::erase_all;
use crate::memory::Journal;
use device::{Chip, Fault};
use layout::{Area, Geometry};
use recovery::Restored;
use table::MappingTable;

// Erases every erase block in order, and settles them.
fn wipe<C: Chip>(chip: &mut C, geometry: Geometry) -> Result<(), Fault>
    requires on { (C.Chip.meaning chip.old).on ≡ true }
    requires fits { (C.Chip.meaning chip.old).size ≡ geometry.blocks }
    requires settled { AllSettled (C.Chip.meaning chip.old) }
    ensures done { Wiped (C.Chip.meaning chip.old) result (C.Chip.meaning chip.new) }
{
    erase_all(chip, 0..geometry.blocks())
}

// Forms a chip that is on and settled, and answers the journal of it.
pub fn form<C: Chip>(chip: &mut C, geometry: Geometry) -> Result<Journal, Fault>
    requires on { (C.Chip.meaning chip.old).on ≡ true }
    requires fits { (C.Chip.meaning chip.old).size ≡ geometry.blocks }
    requires settled { AllSettled (C.Chip.meaning chip.old) }
    ensures formed { elim result [ Ok j ↦ (j.geometry ≡ geometry) × Formed (data_pages geometry.blocks) (C.Chip.meaning chip.old) (C.Chip.meaning chip.new) (noted j) | Err f ↦ Fails (C.Chip.meaning chip.old) f (C.Chip.meaning chip.new) ] }
{
    wipe(chip, geometry)?;
    let table = MappingTable::empty(geometry);
    fill_other(chip, geometry, Area::Two, &table)?;
    close_other(chip, geometry, Area::Two, 0)?;
    Ok(Journal::recovered(
        geometry,
        Restored {
            table,
            area: Area::One,
            number: 0,
            next: 0,
        },
    ))
}
