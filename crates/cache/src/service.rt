// The calls of a working cache.
ghost use Rattle.std.specs.Prelude.{◌≡◌, true, false, length};
ghost use Rattle.cache.specs.Caches.{IsSound, WriteCall, ReadCall, EvictCall, CleanCall, ExistsCall, SyncCall, PowerCall};

use crate::checks::{check_block, check_marks, off_after};
use crate::working::Cache;
use device::{Chip, DiskAddress, Fault};
use engine::Memory;
use layout::Mark;

impl<C: Chip> Cache<C> {
    // Writes a block that is newer than the disk's: it is kept until it is evicted or marked clean.
    pub fn write_dirty(&mut self, address: DiskAddress, bytes: &[u8]) -> Result<(), Fault>
        ensures sound { IsSound C.Chip.meaning self.new }
        ensures size { self.new.journal.geometry ≡ self.old.journal.geometry }
        ensures call { WriteCall C.Chip.meaning true address.0 bytes.now self.old result self.new }
    {
        self.write(true, address, bytes)
    }

    // Writes a block as the disk has it: it may be dropped when room is needed.
    pub fn write_clean(&mut self, address: DiskAddress, bytes: &[u8]) -> Result<(), Fault>
        ensures sound { IsSound C.Chip.meaning self.new }
        ensures size { self.new.journal.geometry ≡ self.old.journal.geometry }
        ensures call { WriteCall C.Chip.meaning false address.0 bytes.now self.old result self.new }
    {
        self.write(false, address, bytes)
    }

    fn write(&mut self, dirty: bool, address: DiskAddress, bytes: &[u8]) -> Result<(), Fault>
        ensures sound { IsSound C.Chip.meaning self.new }
        ensures size { self.new.journal.geometry ≡ self.old.journal.geometry }
        ensures call { WriteCall C.Chip.meaning dirty address.0 bytes.now self.old result self.new }
    {
        self.awake()?;
        check_block(address, bytes.len())?;
        let answer = self.memory.write(&mut self.chip, dirty, address, bytes);
        self.off = off_after(answer);
        answer
    }

    // Puts the data of an address that is held into the buffer.
    pub fn read(&mut self, address: DiskAddress, buf: &mut [u8]) -> Result<(), Fault>
        ensures sound { IsSound C.Chip.meaning self.new }
        ensures size { self.new.journal.geometry ≡ self.old.journal.geometry }
        ensures call { ReadCall C.Chip.meaning address.0 buf.old self.old result buf.new self.new }
    {
        self.awake()?;
        check_block(address, buf.len())?;
        let page = self.page_of(address)?;
        let answer = self.memory.fetch(&mut self.chip, address, page, buf);
        self.off = off_after(answer);
        answer
    }

    // Drops an address that is held, dirty or clean.
    pub fn evict(&mut self, address: DiskAddress) -> Result<(), Fault>
        ensures sound { IsSound C.Chip.meaning self.new }
        ensures size { self.new.journal.geometry ≡ self.old.journal.geometry }
        ensures call { EvictCall C.Chip.meaning address.0 self.old result self.new }
    {
        self.awake()?;
        self.page_of(address)?;
        let answer = self.memory.evict(&mut self.chip, address);
        self.off = off_after(answer);
        answer
    }

    // Marks an address that is held clean: the disk has it now.
    pub fn clean(&mut self, address: DiskAddress) -> Result<(), Fault>
        ensures sound { IsSound C.Chip.meaning self.new }
        ensures size { self.new.journal.geometry ≡ self.old.journal.geometry }
        ensures call { CleanCall C.Chip.meaning address.0 self.old result self.new }
    {
        self.awake()?;
        let page = self.page_of(address)?;
        match self.memory.journal.table().entry(page).mark {
            Mark::Dirty => {
                let answer = self.memory.clean(&mut self.chip, address);
                self.off = off_after(answer);
                answer
            }
            Mark::Clean | Mark::Empty => Ok(()),
        }
    }

    // Fills the buffer with the marks of as many addresses from the first on: 0 not held, 1 clean, 2 dirty.
    pub fn exists(&self, first: DiskAddress, marks: &mut [u8]) -> Result<(), Fault>
        ensures { ExistsCall C.Chip.meaning first.0 marks.old self.now result marks.new }
    {
        self.awake()?;
        check_marks(first, marks.len())?;
        self.memory.journal.table().marks(first, marks);
        Ok(())
    }

    // Commits what is staged.
    pub fn sync(&mut self) -> Result<(), Fault>
        ensures sound { IsSound C.Chip.meaning self.new }
        ensures size { self.new.journal.geometry ≡ self.old.journal.geometry }
        ensures call { SyncCall C.Chip.meaning self.old result self.new }
    {
        self.awake()?;
        let answer = self.memory.flush(&mut self.chip);
        self.off = off_after(answer);
        answer
    }

    // Powers the chip on and recovers the table; the only call that a cache takes while it is off.
    pub fn power_on(&mut self) -> Result<(), Fault>
        ensures sound { IsSound C.Chip.meaning self.new }
        ensures size { self.new.journal.geometry ≡ self.old.journal.geometry }
        ensures call { PowerCall C.Chip.meaning self.old result self.new }
    {
        let geometry = self.memory.journal.geometry();
        match Memory::wake(&mut self.chip, geometry) {
            Ok(memory) => {
                self.memory = memory;
                self.off = None;
                Ok(())
            }
            Err(fault) => {
                self.off = Some(fault);
                Err(fault)
            }
        }
    }

    // Gives the chip back as it is, with nothing committed; it is never refused.
    pub fn retire(self) -> C
        ensures { result ≡ self.chip }
    {
        let Cache {
            chip,
            memory: _,
            off: _,
        } = self;
        chip
    }
}
