// The law of a cache, told once more and apart from the cache: what the calls make of each address, and what a read of it may answer.
use device::{DiskAddress, Refusal};
use history::{Answer, Call, Served};

// The addresses that the calls use: 0 to 17.
pub(super) const ADDRESSES: usize = 18;

// What the calls so far have made of an address. A cached block may be dropped, a kept one may not. A block is known by the number in each of its bytes.
#[derive(Clone, Copy)]
enum Slot {
    Absent,
    Cached(u8),
    Kept(u8),
}

// The number of a block that is written.
fn number_in(bytes: &[u8]) -> u8 {
    bytes.first().copied().unwrap_or(0)
}

// Whether every byte of a block is this number.
fn is_block(bytes: &[u8], number: u8) -> bool {
    bytes.iter().all(|byte| *byte == number)
}

impl Slot {
    fn no_longer_kept(self) -> Slot {
        match self {
            Slot::Kept(number) => Slot::Cached(number),
            other => other,
        }
    }

    // Whether a read may answer this.
    fn fits(self, answer: &Answer) -> bool {
        match (self, answer) {
            (Slot::Absent | Slot::Cached(_), Err(fault)) => fault.refusal == Refusal::NotHeld,
            (Slot::Cached(number) | Slot::Kept(number), Ok(Served::Data(block))) => {
                is_block(block, number)
            }
            _ => false,
        }
    }
}

// A slot for each address.
#[derive(Clone, Copy)]
pub(super) struct History {
    slots: [Slot; ADDRESSES],
}

impl History {
    pub(super) fn at_first() -> History {
        History {
            slots: [Slot::Absent; ADDRESSES],
        }
    }

    fn slot(&self, address: DiskAddress) -> Slot {
        self.slots
            .get(address.0 as usize)
            .copied()
            .unwrap_or(Slot::Absent)
    }

    fn put(&mut self, address: DiskAddress, slot: Slot) {
        if let Some(place) = self.slots.get_mut(address.0 as usize) {
            *place = slot;
        }
    }

    // A call counts.
    pub(super) fn count(&mut self, call: &Call) {
        match call {
            Call::WriteDirty(address, bytes) => self.put(*address, Slot::Kept(number_in(bytes))),
            Call::WriteClean(address, bytes) => self.put(*address, Slot::Cached(number_in(bytes))),
            Call::Evict(address) => self.put(*address, Slot::Absent),
            Call::Clean(address) => self.put(*address, self.slot(*address).no_longer_kept()),
            _ => {}
        }
    }

    // Whether a call may answer this, while there is power.
    pub(super) fn fits(&self, call: &Call, answer: &Answer) -> bool {
        match call {
            Call::Read(address, _) => self.slot(*address).fits(answer),
            Call::PowerOn => answer.is_ok(),
            _ => true,
        }
    }
}

// Refused with number 1.
pub(super) fn is_dark(answer: &Answer) -> bool {
    matches!(answer, Err(fault) if fault.refusal == Refusal::PowerOff)
}
