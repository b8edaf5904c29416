// A disk over an image that the caller lends.
ghost use Rattle.std.specs.Prelude.{◌≡◌, ◌<◌, length, OnOk};
ghost use Rattle.device.specs.declared.faults.Refusal.TheVariants.{PowerOff};
ghost use Rattle.device.specs.Cells.{reads};
ghost use Rattle.device.specs.Disks.{block_read_refusal, block_write_refusal, block_sync_refusal};
ghost use Rattle.disk_frames.specs.Frames.{Whole, blocks_in, block_in, written_frame, settled_frame, cut_frame, ChangesOne, ChangesAll};
ghost use Rattle.image.specs.Exact.{Device, Counted, Looked, Switched, Allows};

use crate::fuses::Power;
use crate::unfit::{Unfit, serves};
use device::{Disk, DiskAddress, Fault, Layer, Refusal};
use std::marker::Model;

// The most blocks.
const BLOCKS: usize = 65536;

// A disk whose blocks are the frames of an image. It is made off.
#[derive(Drop)]
pub struct ImageDisk<'a> {
    image: &'a mut [u8],
    power: Power<'a>,
}

impl<'a> Model for ImageDisk<'a> {
    ghost Value = { Device };

    ghost view = { λ d. record { image = d.image; power = d.power } };

    ghost invariant = { λ d. Whole d.image.now };
}

impl<'a> ImageDisk<'a> {
    ghost use Rattle.image.specs.OfDisk.{disk_view, disk_means, disk_layer, disk_offline, disk_refuses, DiskUnfit, DiskMade};

    // Refuses an image that does not serve, and fuses that do not. A chip has the same over its own frames: one function for both would be no plainer,
    // since it would have to take `first_bad`, and what that requires.
    fn fit(image: &[u8], fuses: &[u32]) -> Result<(), Fault>
        ensures { DiskUnfit image.now fuses.now result }
    {
        serves(Layer::Disk, image, disk_frames::FRAME, BLOCKS, fuses)?;
        match disk_frames::first_bad(image) {
            Some(block) => Err(Refusal::Breach.at(Layer::Disk, block)),
            None => Ok(()),
        }
    }

    // A disk over an image, off, with up to eight fuses.
    pub fn new(image: &'a mut [u8], fuses: &'a [u32]) -> Result<ImageDisk<'a>, Unfit<'a>>
        ensures { DiskMade image.old fuses.now result }
    {
        match ImageDisk::fit(image, fuses) {
            Ok(()) => Ok(ImageDisk {
                image,
                power: Power::off(fuses),
            }),
            Err(fault) => Err(Unfit { fault, image }),
        }
    }

    fn block_count(&self) -> u32
        ensures count { result ≡ blocks_in self.now.image.now }
        ensures whole { Whole self.now.image.now }
    {
        disk_frames::blocks_in(self.image) as u32
    }

    fn allows_write(&self, block: DiskAddress, len: usize) -> Result<(), Fault>
        ensures rule { Allows (block_write_refusal disk_layer disk_offline (disk_means (disk_view self.now)) block.0 len) result }
        ensures inside { OnOk result ((block.0 < blocks_in self.now.image.now) × (len ≡ 512)) }
    {
        self.power
            .allows(Layer::Disk, block.0, len, self.block_count())?;
        if disk_frames::is_unsettled(self.image, block.0 as usize) {
            return Err(Refusal::Unsettled.at(Layer::Disk, block.0));
        }
        Ok(())
    }

    // Reads a block. It does not count, and nothing changes.
    pub fn read_frame(&self, block: DiskAddress, buf: &mut [u8]) -> Result<(), Fault>
        ensures whole { Whole self.now.image.now }
        ensures exact { Looked (block_read_refusal disk_layer disk_offline (disk_means (disk_view self.now)) block.0 (length buf.old)) (λ _. buf.new ≡ reads (block_in self.now.image.now block.0)) (buf.new ≡ buf.old) result }
    {
        self.power
            .allows(Layer::Disk, block.0, buf.len(), self.block_count())?;
        disk_frames::copy_block(self.image, block.0 as usize, buf);
        Ok(())
    }

    // Writes a block: only its own frame changes, and of that neither the fate nor the settled content.
    pub fn write_frame(&mut self, block: DiskAddress, bytes: &[u8]) -> Result<(), Fault>
        ensures whole { Whole self.new.image.now }
        ensures exact { Counted (block_write_refusal disk_layer disk_offline (disk_means (disk_view self.old)) block.0 (length bytes.now)) (disk_refuses block.0 PowerOff) (disk_view self.old) (ChangesOne (written_frame bytes.now) block.0 self.old.image.now) result (disk_view self.new) }
    {
        self.allows_write(block, bytes.len())?;
        self.power.burn(Layer::Disk, block.0)?;
        disk_frames::write_block(self.image, block.0 as usize, bytes);
        Ok(())
    }

    // Settles every block: only the states and the settled contents of unsettled blocks change.
    pub fn settle_frames(&mut self) -> Result<(), Fault>
        ensures whole { Whole self.new.image.now }
        ensures exact { Counted (block_sync_refusal disk_offline (disk_means (disk_view self.old))) (disk_refuses 0 PowerOff) (disk_view self.old) (ChangesAll settled_frame self.old.image.now) result (disk_view self.new) }
    {
        let power = &mut self.power;
        power.needed(Layer::Disk, 0)?;
        power.burn(Layer::Disk, 0)?;
        disk_frames::settle_blocks(self.image);
        Ok(())
    }

    // A power cut by the fates, and power with the next fuse.
    pub fn cut_and_power(&mut self)
        ensures whole { Whole self.new.image.now }
        ensures exact { Switched (disk_view self.old) (ChangesAll cut_frame self.old.image.now) (disk_view self.new) }
    {
        disk_frames::cut_blocks(self.image);
        self.power.turn_on();
    }
}

// What the disk does exactly stands on the methods above. The clauses here take the place of the trait's, so they repeat its rules; they add what the
// type keeps, which a model hides from callers.
impl Disk for ImageDisk<'_> {
    ghost use Rattle.device.specs.Disks.{BlockReads, BlockWrites, BlockSyncs, BlockPowers};
    ghost use Rattle.image.specs.OfDisk.{disk_view, disk_means, disk_layer, disk_offline};

    ghost meaning = { λ d. disk_means (disk_view d) };

    ghost layer = { λ _. disk_layer };

    ghost offline = { λ _. disk_offline };

    fn blocks(&self) -> u32 {
        self.block_count()
    }

    fn read(&mut self, block: DiskAddress, buf: &mut [u8]) -> Result<(), Fault>
        ensures sound { Whole self.new.image.now }
        ensures rules { BlockReads disk_layer disk_offline disk_offline (disk_means (disk_view self.old)) block.0 buf.old result buf.new (disk_means (disk_view self.new)) }
    {
        self.read_frame(block, buf)
    }

    fn write(&mut self, block: DiskAddress, bytes: &[u8]) -> Result<(), Fault>
        ensures sound { Whole self.new.image.now }
        ensures rules { BlockWrites disk_layer disk_offline disk_offline (disk_means (disk_view self.old)) block.0 bytes.now result (disk_means (disk_view self.new)) }
    {
        self.write_frame(block, bytes)
    }

    fn sync(&mut self) -> Result<(), Fault>
        ensures sound { Whole self.new.image.now }
        ensures rules { BlockSyncs disk_offline disk_offline (disk_means (disk_view self.old)) result (disk_means (disk_view self.new)) }
    {
        self.settle_frames()
    }

    fn power_on(&mut self) -> Result<(), Fault>
        ensures sound { Whole self.new.image.now }
        ensures rules { BlockPowers disk_offline (disk_means (disk_view self.old)) result (disk_means (disk_view self.new)) }
    {
        self.cut_and_power();
        Ok(())
    }
}
