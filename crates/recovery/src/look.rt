// A look at one page of a chip.
ghost use Rattle.std.specs.Prelude.{◌≡◌, ◌*◌, ◌<◌, true, length};
ghost use Rattle.recovery.specs.Looking.{shown, Quiet, Saw, Looks};

use device::{Chip, ChipPage, Fault, Note, Refusal};

// What a page is; a held one with its note.
#[derive(Clone, Copy)]
pub enum Seen {
    Blank,
    Torn,
    Held(Note),
}

// Looks at a page that is there, and puts a held page's data into the buffer. The answer is a fault only if the chip has no power.
pub fn look<C: Chip>(chip: &mut C, page: ChipPage, buf: &mut [u8]) -> Result<Seen, Fault>
    requires inside { page.0 < 8 * (C.Chip.meaning chip.old).size }
    requires whole { length buf.old ≡ 512 }
    ensures quiet { Quiet (C.Chip.meaning chip.old) (C.Chip.meaning chip.new) }
    ensures saw { Looks (λ seen. Saw (shown (C.Chip.meaning chip.old) page.0) seen buf.new) result (C.Chip.meaning chip.new) }
{
    match chip.read(page, buf) {
        Ok(note) => Ok(Seen::Held(note)),
        Err(fault) => match fault.refusal {
            Refusal::Torn => Ok(Seen::Torn),
            Refusal::Blank => Ok(Seen::Blank),
            _ => Err(fault),
        },
    }
}
