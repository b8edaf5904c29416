// A row of erase blocks is erased, and settled.
ghost use Rattle.std.specs.Prelude.{◌-◌};
ghost use Rattle.journal.specs.Steps.{ErasesRow};

use device::{Chip, EraseBlock, Fault};
use std::ops::Range;

// Erases these erase blocks in order, and settles them.
pub(crate) fn erase_all<C: Chip>(chip: &mut C, blocks: Range<u32>) -> Result<(), Fault>
    ensures { ErasesRow blocks.start (blocks.end - blocks.start) (C.Chip.meaning chip.old) result (C.Chip.meaning chip.new) }
{
    for b in blocks {
        chip.erase(EraseBlock(b))?;
    }
    chip.sync()
}
