// What a cache looks at before it does anything: whether it is off, and the caller's arguments.
ghost use Rattle.std.specs.Prelude.{◌≡◌, Some, None, Ok, Err};
ghost use Rattle.device.specs.declared.faults.Refusal.TheVariants.{BadSize, OutOfRange};
ghost use Rattle.recovery.specs.Recovering.{cache_fault};
ghost use Rattle.table.specs.Views.{Finds};
ghost use Rattle.journal.specs.Notes.{noted};
ghost use Rattle.cache.specs.Refusals.{write_refusal, held_refusal, exists_refusal, off_after};
ghost use Rattle.cache.specs.Caches.{IsSound};

use crate::working::Cache;
use device::{Chip, DataPage, DiskAddress, Fault, Layer, Refusal};

// A block has 512 bytes.
pub(crate) fn check_block(address: DiskAddress, len: usize) -> Result<(), Fault>
    ensures { elim result [ Ok x ↦ write_refusal None address.0 len ≡ None | Err f ↦ write_refusal None address.0 len ≡ Some f ] }
{
    if len == 512 {
        Ok(())
    } else {
        Err(Refusal::BadSize.at(Layer::Cache, address.0))
    }
}

// From 1 to 512 marks, of addresses that there are.
pub(crate) fn check_marks(first: DiskAddress, len: usize) -> Result<(), Fault>
    ensures { elim result [ Ok x ↦ exists_refusal None first.0 len ≡ None | Err f ↦ exists_refusal None first.0 len ≡ Some f ] }
{
    if len < 1 || len > 512 {
        Err(Refusal::BadSize.at(Layer::Cache, first.0))
    } else if first.0 as usize + len > 4_294_967_296 {
        Err(Refusal::OutOfRange.at(Layer::Cache, first.0))
    } else {
        Ok(())
    }
}

// What an answer leaves of a cache that was on: power that failed puts it off.
pub(crate) fn off_after(answer: Result<(), Fault>) -> Option<Fault>
    ensures { result ≡ off_after answer }
{
    match answer {
        Err(fault) if fault.refusal == Refusal::PowerOff => Some(fault),
        _ => None,
    }
}

impl<C: Chip> Cache<C> {
    // The fault that the cache repeats while it is off. Its look at the cache tells the calls what the type keeps.
    pub(crate) fn awake(&self) -> Result<(), Fault>
        ensures sound { IsSound C.Chip.meaning self.now }
        ensures awake { elim result [ Ok x ↦ self.now.off ≡ None | Err f ↦ self.now.off ≡ Some f ] }
    {
        match self.off {
            Some(fault) => Err(fault),
            None => Ok(()),
        }
    }

    // The page that holds the address, or the refusal.
    pub(crate) fn page_of(&self, address: DiskAddress) -> Result<DataPage, Fault>
        ensures { elim result [ Ok p ↦ (held_refusal (noted self.now.journal).table address.0 ≡ None) × Finds (noted self.now.journal).table address.0 (Some p) | Err f ↦ held_refusal (noted self.now.journal).table address.0 ≡ Some f ] }
    {
        match self.memory.journal.table().find(address) {
            Some(page) => Ok(page),
            None => Err(Refusal::NotHeld.at(Layer::Cache, address.0)),
        }
    }
}
