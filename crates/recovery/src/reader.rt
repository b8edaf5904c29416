// A chip that is read back, on a page of its own since the type keeps that its size is known.
ghost use Rattle.std.specs.Prelude.{◌≡◌, ◌*◌, ◌<◌};
ghost use Rattle.recovery.specs.Looking.{shown, Quiet, Saw, Looks};

use crate::look::{Seen, look};
use device::{Chip, ChipPage, Fault};
use layout::Geometry;

// A chip, its size, and room for one of its pages. Each method's clause `same` says that the reader keeps the chip that it was lent, and the size; so its
// maker knows what became of the chip.
#[derive(Drop)]
pub(crate) struct Reader<'a, C: Chip> {
    pub(crate) chip: &'a mut C,
    pub(crate) geometry: Geometry,
    pub(crate) page: [u8; 512],
    ghost fits: { (C.Chip.meaning chip.now).size ≡ geometry.blocks },
}

impl<C: Chip> Reader<'_, C> {
    // Looks at a page that is there, and keeps a held page's data.
    pub(crate) fn look(&mut self, page: ChipPage) -> Result<Seen, Fault>
        requires inside { page.0 < 8 * self.old.geometry.blocks }
        ensures same { (self.new.chip.ghost_name ≡ self.old.chip.ghost_name) × (self.new.geometry ≡ self.old.geometry) }
        ensures quiet { Quiet (C.Chip.meaning self.old.chip.now) (C.Chip.meaning self.new.chip.now) }
        ensures saw { Looks (λ seen. Saw (shown (C.Chip.meaning self.old.chip.now) page.0) seen self.new.page) result (C.Chip.meaning self.new.chip.now) }
    {
        look(self.chip, page, &mut self.page)
    }
}
