// A flash chip over an image that the caller lends.
ghost use Rattle.std.specs.Prelude.{◌≡◌, ℕ, ◌+◌, ◌*◌, ◌<◌, length, OnOk, slice_index};
ghost use Rattle.device.specs.declared.faults.Refusal.TheVariants.{PowerOff};
ghost use Rattle.device.specs.Cells.{reads};
ghost use Rattle.device.specs.Faults.{chip_fault};
ghost use Rattle.device.specs.Chips.{read_refusal, program_refusal, erase_refusal, sync_refusal};
ghost use Rattle.device.specs.Chips.State.{held};
ghost use Rattle.chip_frames.specs.Frames.{state_at, Whole, blocks_in, page_in, Framed, Restated, settling, erasing, cutting};
ghost use Rattle.chip_frames.specs.Codes.{state_of};
ghost use Rattle.image.specs.Exact.{Device, Counted, Looked, Switched, Allows};

use crate::fuses::Power;
use crate::unfit::{Unfit, serves};
use chip_frames::State;
use device::{Chip, ChipPage, EraseBlock, Fault, Layer, Note, Refusal};
use std::marker::Model;

// The pages of an erase block, the bytes of their frames, and the most erase blocks.
const PAGES: u32 = 8;

const BLOCK: usize = PAGES as usize * chip_frames::FRAME;

const BLOCKS: usize = 64;

// A chip whose pages are the frames of an image. It is made off.
#[derive(Drop)]
pub struct ImageChip<'a> {
    image: &'a mut [u8],
    power: Power<'a>,
}

impl<'a> Model for ImageChip<'a> {
    ghost Value = { Device };

    ghost view = { λ c. record { image = c.image; power = c.power } };

    ghost invariant = { λ c. Whole c.image.now };
}

impl<'a> ImageChip<'a> {
    ghost use Rattle.image.specs.OfChip.{chip_view, chip_means, ChipUnfit, ChipMade};

    // Refuses an image that does not serve, and fuses that do not.
    fn fit(image: &[u8], fuses: &[u32]) -> Result<(), Fault>
        ensures { ChipUnfit image.now fuses.now result }
    {
        serves(Layer::Chip, image, BLOCK, BLOCKS, fuses)?;
        match chip_frames::first_bad(image) {
            Some(page) => Err(Refusal::Breach.at(Layer::Chip, page)),
            None => Ok(()),
        }
    }

    // A chip over an image, off, with up to eight fuses.
    pub fn new(image: &'a mut [u8], fuses: &'a [u32]) -> Result<ImageChip<'a>, Unfit<'a>>
        ensures { ChipMade image.old fuses.now result }
    {
        match ImageChip::fit(image, fuses) {
            Ok(()) => Ok(ImageChip {
                image,
                power: Power::off(fuses),
            }),
            Err(fault) => Err(Unfit { fault, image }),
        }
    }

    // What the frame of a page says of it.
    fn state(&self, page: ChipPage) -> State
        requires { 520 * page.0 < length self.now.image.now }
        ensures { result ≡ state_of (state_at self.now.image.now page.0) }
    {
        State::from(self.image[chip_frames::FRAME * page.0 as usize])
    }

    fn block_count(&self) -> u32
        ensures count { result ≡ blocks_in self.now.image.now }
        ensures whole { Whole self.now.image.now }
    {
        chip_frames::blocks_in(self.image) as u32
    }

    fn page_count(&self) -> u32
        ensures { result ≡ 8 * blocks_in self.now.image.now }
    {
        PAGES * self.block_count()
    }

    fn allows_program(&self, page: ChipPage, len: usize) -> Result<(), Fault>
        ensures rule { Allows (program_refusal (chip_means (chip_view self.now)) page.0 len) result }
        ensures inside { OnOk result ((page.0 < 8 * blocks_in self.now.image.now) × (len ≡ 512)) }
    {
        self.power
            .allows(Layer::Chip, page.0, len, self.page_count())?;
        match self.state(page) {
            State::Blank => Ok(()),
            State::Held | State::Torn => Err(Refusal::NotBlank.at(Layer::Chip, page.0)),
            _ => Err(Refusal::Unsettled.at(Layer::Chip, page.0)),
        }
    }

    fn allows_erase(&self, block: EraseBlock) -> Result<(), Fault>
        ensures { Allows (erase_refusal (chip_means (chip_view self.now)) block.0) result }
    {
        self.power.needed(Layer::Chip, block.0)?;
        if block.0 >= self.block_count() {
            return Err(Refusal::OutOfRange.at(Layer::Chip, block.0));
        }
        if chip_frames::any_unsettled(self.image, block) {
            return Err(Refusal::Unsettled.at(Layer::Chip, block.0));
        }
        Ok(())
    }

    // Reads a page. It does not count, and nothing changes.
    pub fn read_frame(&self, page: ChipPage, buf: &mut [u8]) -> Result<Note, Fault>
        ensures whole { Whole self.now.image.now }
        ensures exact { Looked (read_refusal (chip_means (chip_view self.now)) page.0 (length buf.old)) (λ note. reads (page_in self.now.image.now page.0) ≡ held note buf.new) (buf.new ≡ buf.old) result }
    {
        self.power
            .allows(Layer::Chip, page.0, buf.len(), self.page_count())?;
        match self.state(page) {
            State::Blank | State::HeldErased | State::TornErased => {
                Err(Refusal::Blank.at(Layer::Chip, page.0))
            }
            State::Held | State::Programmed => {
                Ok(chip_frames::read_frame(self.image, page.0 as usize, buf))
            }
            State::Torn => Err(Refusal::Torn.at(Layer::Chip, page.0)),
        }
    }

    // Programs a page: only its own frame changes, and of that not the fate.
    pub fn program_frame(&mut self, page: ChipPage, note: Note, bytes: &[u8]) -> Result<(), Fault>
        ensures whole { Whole self.new.image.now }
        ensures exact { Counted (program_refusal (chip_means (chip_view self.old)) page.0 (length bytes.now)) (chip_fault page.0 PowerOff) (chip_view self.old) (Framed self.old.image.now page.0 note bytes.now) result (chip_view self.new) }
    {
        self.allows_program(page, bytes.len())?;
        self.power.burn(Layer::Chip, page.0)?;
        chip_frames::write_frame(self.image, page.0 as usize, note, bytes);
        Ok(())
    }

    // Erases a block: only the state bytes of its pages change.
    pub fn erase_frames(&mut self, block: EraseBlock) -> Result<(), Fault>
        ensures whole { Whole self.new.image.now }
        ensures exact { Counted (erase_refusal (chip_means (chip_view self.old)) block.0) (chip_fault block.0 PowerOff) (chip_view self.old) (Restated self.old.image.now (erasing self.old.image.now block.0)) result (chip_view self.new) }
    {
        self.allows_erase(block)?;
        self.power.burn(Layer::Chip, block.0)?;
        chip_frames::erase_frames(self.image, block);
        Ok(())
    }

    // Settles every page: only state bytes change.
    pub fn settle_frames(&mut self) -> Result<(), Fault>
        ensures whole { Whole self.new.image.now }
        ensures exact { Counted (sync_refusal (chip_means (chip_view self.old))) (chip_fault 0 PowerOff) (chip_view self.old) (Restated self.old.image.now (settling self.old.image.now)) result (chip_view self.new) }
    {
        let power = &mut self.power;
        power.needed(Layer::Chip, 0)?;
        power.burn(Layer::Chip, 0)?;
        chip_frames::settle_frames(self.image);
        Ok(())
    }

    // A power cut by the fates, and power with the next fuse: only state bytes change.
    pub fn cut_and_power(&mut self)
        ensures whole { Whole self.new.image.now }
        ensures exact { Switched (chip_view self.old) (Restated self.old.image.now (cutting self.old.image.now)) (chip_view self.new) }
    {
        chip_frames::cut_frames(self.image);
        self.power.turn_on();
    }
}

// What the chip does exactly stands on the methods above. The clauses here take the place of the trait's, so they repeat its rules; they add what the
// type keeps, which a model hides from callers.
impl Chip for ImageChip<'_> {
    ghost use Rattle.device.specs.Chips.{Reads, Programs, Erases, Syncs, Powers};
    ghost use Rattle.image.specs.OfChip.{chip_view, chip_means};

    ghost meaning = { λ c. chip_means (chip_view c) };

    fn blocks(&self) -> u32 {
        self.block_count()
    }

    fn read(&mut self, page: ChipPage, buf: &mut [u8]) -> Result<Note, Fault>
        ensures sound { Whole self.new.image.now }
        ensures rules { Reads (chip_means (chip_view self.old)) page.0 buf.old result buf.new (chip_means (chip_view self.new)) }
    {
        self.read_frame(page, buf)
    }

    fn program(&mut self, page: ChipPage, note: Note, bytes: &[u8]) -> Result<(), Fault>
        ensures sound { Whole self.new.image.now }
        ensures rules { Programs (chip_means (chip_view self.old)) page.0 note bytes.now result (chip_means (chip_view self.new)) }
    {
        self.program_frame(page, note, bytes)
    }

    fn erase(&mut self, block: EraseBlock) -> Result<(), Fault>
        ensures sound { Whole self.new.image.now }
        ensures rules { Erases (chip_means (chip_view self.old)) block.0 result (chip_means (chip_view self.new)) }
    {
        self.erase_frames(block)
    }

    fn sync(&mut self) -> Result<(), Fault>
        ensures sound { Whole self.new.image.now }
        ensures rules { Syncs (chip_means (chip_view self.old)) result (chip_means (chip_view self.new)) }
    {
        self.settle_frames()
    }

    fn power_on(&mut self) -> Result<(), Fault>
        ensures sound { Whole self.new.image.now }
        ensures rules { Powers (chip_means (chip_view self.old)) result (chip_means (chip_view self.new)) }
    {
        self.cut_and_power();
        Ok(())
    }
}
