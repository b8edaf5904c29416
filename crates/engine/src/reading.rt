// Reading a block that is held.
ghost use Rattle.std.specs.Prelude.{◌≡◌, length, Some};
ghost use Rattle.table.specs.Views.{Finds};
ghost use Rattle.journal.specs.Notes.{noted, pages_of};
ghost use Rattle.engine.specs.Works.{Fetches};
ghost use Rattle.engine.specs.Memories.{HoldsSomeTable};

use crate::memory::Memory;
use device::{Chip, DataPage, DiskAddress, Fault};

impl Memory {
    // Reads the page that holds the address. A fault leaves the buffer as it was.
    pub fn fetch<C: Chip>(
        &self,
        chip: &mut C,
        address: DiskAddress,
        page: DataPage,
        buf: &mut [u8],
    ) -> Result<(), Fault>
        requires holding { HoldsSomeTable (C.Chip.meaning chip.old) self.now }
        requires held { Finds (noted self.now.journal).table address.0 (Some page) }
        requires whole { length buf.old ≡ 512 }
        ensures fetches { Fetches (pages_of self.now.journal) address.0 (C.Chip.meaning chip.old) (noted self.now.journal) self.now.space buf.old result buf.new (C.Chip.meaning chip.new) }
    {
        let (_, _, _) = chip.read(page.chip_page(), buf)?;
        Ok(())
    }
}
