// Calls of a cache and their answers as values.
use device::{DiskAddress, Fault};

// A call. Reads and exists say how long their buffer is; any length goes, and a wrong one is refused.
#[derive(Clone, Copy)]
pub enum Call<'a> {
    WriteDirty(DiskAddress, &'a [u8]),
    WriteClean(DiskAddress, &'a [u8]),
    Read(DiskAddress, u16),
    Evict(DiskAddress),
    Clean(DiskAddress),
    Exists(DiskAddress, u16),
    Sync,
    PowerOn,
}

// What a call was served with.
#[derive(Clone, Copy)]
pub enum Served {
    // nothing but that it is done
    Done,
    // the data
    Data([u8; 512]),
    // so many marks; with an `ArrayVec` in their place an answer could not be copied, which is no plainer
    Marks([u8; 512], u16),
}

// What a call answered.
pub type Answer = Result<Served, Fault>;
