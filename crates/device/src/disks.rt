// A disk, by what its blocks mean and what each call may do to them.
ghost use Rattle.std.specs.Prelude.{◌≡◌, ℕ, ◌<◌, ◌≤◌};
ghost use Rattle.device.specs.declared.faults.Layer.{Layer};
ghost use Rattle.device.specs.declared.faults.Refusal.{Refusal};
ghost use Rattle.device.specs.Faults.{Where};
ghost use Rattle.device.specs.Disks.{Blocks, BlockReads, BlockWrites, BlockSyncs, BlockPowers};

use crate::faults::Fault;
use crate::places::DiskAddress;

// Every disk shows these rules.
pub trait Disk {
    // what the disk is: on or off, its number of blocks, the blocks
    ghost meaning: { Self → Blocks };

    // the layer that it names for each of its own refusals
    ghost layer: { Self → Refusal → Layer };

    // where the fault arose that it answers while it is off, by the place that the call was given
    ghost offline: { Self → ℕ → Where };

    // The number of blocks, told on or off.
    fn blocks(&self) -> u32
        ensures number { result ≡ (meaning self.now).size }
        ensures some { 0 < result }
        ensures few { result ≤ 65536 };

    // Puts what a block holds into the buffer.
    fn read(&mut self, block: DiskAddress, buf: &mut [u8]) -> Result<(), Fault>
        ensures rules { BlockReads (layer self.old) (offline self.old) (offline self.new) (meaning self.old) block.0 buf.old result buf.new (meaning self.new) };

    // Changes a settled block.
    fn write(&mut self, block: DiskAddress, bytes: &[u8]) -> Result<(), Fault>
        ensures rules { BlockWrites (layer self.old) (offline self.old) (offline self.new) (meaning self.old) block.0 bytes.now result (meaning self.new) };

    // Settles every block as it now reads.
    fn sync(&mut self) -> Result<(), Fault>
        ensures rules { BlockSyncs (offline self.old) (offline self.new) (meaning self.old) result (meaning self.new) };

    // A power cut, and then power.
    fn power_on(&mut self) -> Result<(), Fault>
        ensures rules { BlockPowers (offline self.new) (meaning self.old) result (meaning self.new) };
}
