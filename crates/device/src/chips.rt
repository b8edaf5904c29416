// A flash chip, by what its pages mean and what each call may do to them.
ghost use Rattle.std.specs.Prelude.{◌≡◌, ◌<◌, ◌≤◌};
ghost use Rattle.device.specs.Chips.{Pages, Reads, Programs, Erases, Syncs, Powers};

use crate::faults::Fault;
use crate::places::{ChipPage, EraseBlock};

// What a held page says of itself: its kind, its count and its address.
pub type Note = (u8, u8, u32);

// Every chip shows these rules.
pub trait Chip {
    // what the chip is: on or off, its erase blocks, its pages
    ghost meaning: { Self → Pages };

    // The number of erase blocks, told on or off.
    fn blocks(&self) -> u32
        ensures number { result ≡ (meaning self.now).size }
        ensures some { 0 < result }
        ensures few { result ≤ 64 };

    // The note of a held page, with its data put into the buffer.
    fn read(&mut self, page: ChipPage, buf: &mut [u8]) -> Result<Note, Fault>
        ensures rules { Reads (meaning self.old) page.0 buf.old result buf.new (meaning self.new) };

    // Makes a settled blank page held.
    fn program(&mut self, page: ChipPage, note: Note, bytes: &[u8]) -> Result<(), Fault>
        ensures rules { Programs (meaning self.old) page.0 note bytes.now result (meaning self.new) };

    // Makes the eight pages of an erase block blank.
    fn erase(&mut self, block: EraseBlock) -> Result<(), Fault>
        ensures rules { Erases (meaning self.old) block.0 result (meaning self.new) };

    // Settles every page as it now reads.
    fn sync(&mut self) -> Result<(), Fault>
        ensures rules { Syncs (meaning self.old) result (meaning self.new) };

    // A power cut, and then power.
    fn power_on(&mut self) -> Result<(), Fault>
        ensures rules { Powers (meaning self.old) result (meaning self.new) };
}
