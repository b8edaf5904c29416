// One call of a list, made on a cache.
ghost use Rattle.std.specs.Prelude.{◌≡◌, length};
ghost use Rattle.history.specs.Serving.{Plain, Serves, ReadServes, ExistsServes};

use crate::calls::{Answer, Call, Served};
use cache::Cache;
use device::{Chip, DiskAddress, Fault};

// The answer of a call that answers nothing but that it is done.
fn plain(res: Result<(), Fault>) -> Answer
    ensures { Plain (λ x. x ≡ res) result }
{
    res?;
    Ok(Served::Done)
}

// A read into so much of the scratch buffer.
fn read<C: Chip>(cache: &mut Cache<C>, address: DiskAddress, len: u16, scratch: &mut [u8]) -> Answer
    requires room { length scratch.old ≡ 65536 }
    ensures size { cache.new.journal.geometry ≡ cache.old.journal.geometry }
    ensures serves { ReadServes C.Chip.meaning address.0 len cache.old result cache.new }
{
    cache.read(address, &mut scratch[0..len as usize])?;
    let mut page = [0u8; 512];
    page.copy_from_slice(&scratch[0..512]);
    Ok(Served::Data(page))
}

// The marks of so many addresses, by way of the scratch buffer.
fn exists<C: Chip>(cache: &Cache<C>, first: DiskAddress, len: u16, scratch: &mut [u8]) -> Answer
    requires room { length scratch.old ≡ 65536 }
    ensures { ExistsServes C.Chip.meaning first.0 len cache.now result cache.now }
{
    cache.exists(first, &mut scratch[0..len as usize])?;
    let mut page = [0u8; 512];
    page[0..len as usize].copy_from_slice(&scratch[0..len as usize]);
    Ok(Served::Marks(page, len))
}

// Makes one call. The scratch buffer has room for any length that a call can name.
pub fn serve<C: Chip>(cache: &mut Cache<C>, call: &Call, scratch: &mut [u8]) -> Answer
    requires room { length scratch.old ≡ 65536 }
    ensures size { cache.new.journal.geometry ≡ cache.old.journal.geometry }
    ensures serves { Serves C.Chip.meaning cache.old call.now result cache.new }
{
    match call {
        Call::WriteDirty(address, bytes) => plain(cache.write_dirty(*address, bytes)),
        Call::WriteClean(address, bytes) => plain(cache.write_clean(*address, bytes)),
        Call::Read(address, len) => read(cache, *address, *len, scratch),
        Call::Evict(address) => plain(cache.evict(*address)),
        Call::Clean(address) => plain(cache.clean(*address)),
        Call::Exists(first, len) => exists(cache, *first, *len, scratch),
        Call::Sync => plain(cache.sync()),
        Call::PowerOn => plain(cache.power_on()),
    }
}
