// What a cache keeps in memory, and how a power-on fills it: with recovery, or with a form.
ghost use Rattle.std.specs.Prelude.{◌≡◌, Ok, Err};
ghost use Rattle.layout.specs.Geometry.{data_pages};
ghost use Rattle.journal.specs.Steps.{Fails};
ghost use Rattle.engine.specs.Works.{Woken, StaysDark, Begun};

use device::{Chip, Fault};
use journal::Journal;
use layout::Geometry;
use recovery::recover;
use space::Space;

// The journal of the mapping table, and which data pages are blank.
#[derive(Drop)]
pub struct Memory {
    pub journal: Journal,
    pub space: Space,
}

impl Memory {
    // Powers the chip on, and recovers the table from it.
    pub fn wake<C: Chip>(chip: &mut C, geometry: Geometry) -> Result<Memory, Fault>
        requires fits { (C.Chip.meaning chip.old).size ≡ geometry.blocks }
        ensures wakes { elim result [ Ok w ↦ (w.journal.geometry ≡ geometry) × Woken (data_pages geometry.blocks) (C.Chip.meaning chip.old) (C.Chip.meaning chip.new) w.journal w.space | Err f ↦ StaysDark (data_pages geometry.blocks) (C.Chip.meaning chip.old) f (C.Chip.meaning chip.new) ] }
    {
        chip.power_on()?;
        let found = recover(chip)?;
        let space = Space::scan(chip, geometry)?;
        Ok(Memory {
            journal: Journal::recovered(geometry, found),
            space,
        })
    }

    // Powers the chip on, and forms it.
    pub fn begin<C: Chip>(chip: &mut C, geometry: Geometry) -> Result<Memory, Fault>
        requires fits { (C.Chip.meaning chip.old).size ≡ geometry.blocks }
        ensures begins { elim result [ Ok w ↦ (w.journal.geometry ≡ geometry) × Begun (data_pages geometry.blocks) (C.Chip.meaning chip.old) (C.Chip.meaning chip.new) w.journal w.space | Err f ↦ Fails (C.Chip.meaning chip.old) f (C.Chip.meaning chip.new) ] }
    {
        chip.power_on()?;
        let journal = journal::form(chip, geometry)?;
        Ok(Memory {
            journal,
            space: Space::all_blank(geometry),
        })
    }
}
