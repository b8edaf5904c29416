// What recovery finds on a chip after a power cut.
ghost use Rattle.chipdump.specs.Finding.{Finds};

use device::{Chip, Fault};
use recovery::Restored;

// Cuts the power, powers the chip on and reads its mapping table back.
pub(super) fn find<C: Chip>(chip: &mut C) -> Result<Restored, Fault>
    ensures finds { Finds (C.Chip.meaning chip.old) result (C.Chip.meaning chip.new) }
{
    chip.power_on()?;
    recovery::recover(chip)
}
