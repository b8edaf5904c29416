// The entries of the mapping table: for each data page, whether it holds a disk address, and which.
ghost use Rattle.std.specs.Prelude.{◌≡◌, ◌≢◌, MatchResult};
ghost use Rattle.layout.specs.declared.entries.Mark.{Mark};
ghost use Rattle.layout.specs.Entries.{mark_number, entry_bytes, empty_entry, ProperEntry, EntryOf};
ghost use Rattle.layout.specs.Apart.{same_entry};
ghost use Rattle.std.proofs.Common.{rules};

use crate::cells::Cell;
use device::DiskAddress;

// Whether a data page holds a disk address, and if so, whether the disk has the same bytes.
#[derive(Clone, Copy, PartialEq, Eq, Debug)]
pub enum Mark {
    Empty = 0,
    Clean = 1,
    Dirty = 2,
}

// Without a mark the address is 0.
#[derive(Clone, Copy, PartialEq, Eq, Debug)]
pub struct Entry {
    pub mark: Mark,
    pub address: DiskAddress,
}

impl Mark {
    // The number by which the mark is known on flash and to callers.
    pub fn number(self) -> u8
        ensures { result ≡ mark_number self }
    {
        self as u8
    }
}

// The mark that is known by this number; other numbers come back.
impl TryFrom<u8> for Mark {
    type Error = u8;

    ghost try_from_gives = { λ n r. MatchResult r (λ mark. mark_number mark ≡ n) (λ m. (m ≡ n) × ((mark : Mark) → mark_number mark ≢ n)) };

    fn try_from(number: u8) -> Result<Mark, u8> {
        match number {
            0 => Ok(Mark::Empty),
            1 => Ok(Mark::Clean),
            2 => Ok(Mark::Dirty),
            _ => Err(number),
        }
    }
}

impl Entry {
    // The entry of a page that holds nothing.
    pub const EMPTY: Entry = Entry {
        mark: Mark::Empty,
        address: DiskAddress(0),
    };

    // The entry of a page that holds nothing.
    pub fn empty() -> Entry
        ensures { result ≡ empty_entry }
    {
        Entry::EMPTY
    }
}

// The entry of a page that holds nothing.
impl Default for Entry {
    ghost is_default = { λ entry. entry ≡ empty_entry };

    fn default() -> Entry {
        Entry::empty()
    }
}

impl Cell for Entry {
    ghost bytes = { entry_bytes };

    ghost proper = { ProperEntry };

    ghost eight = { Prim.search rules };

    ghost apart = { λ x y p q e. same_entry x y p q e };

    fn encode(self) -> [u8; 8] {
        let [a, b, c, d] = self.address.0.to_be_bytes();
        [self.mark.number(), 0, 0, 0, a, b, c, d]
    }

    fn decode(from: &[u8]) -> Option<Entry> {
        match from {
            [mark, 0, 0, 0, a, b, c, d] => entry_of(
                *mark,
                DiskAddress(u32::from_be_bytes([*a, *b, *c, *d])),
            ),
            _ => None,
        }
    }
}

// The entry with a mark of this number and this address, if there is one.
fn entry_of(mark: u8, address: DiskAddress) -> Option<Entry>
    ensures { EntryOf mark address.0 result }
{
    match Mark::try_from(mark).ok()? {
        Mark::Empty if address != DiskAddress(0) => None,
        mark => Some(Entry { mark, address }),
    }
}
