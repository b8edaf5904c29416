// The records of the log: what became of the mapping table since its checkpoint.
ghost use Rattle.std.specs.Prelude.{◌≡◌, [], ◌∷◌};
ghost use Rattle.device.specs.declared.places.DataPage.{DataPage};
ghost use Rattle.device.specs.declared.places.DiskAddress.{DiskAddress};
ghost use Rattle.layout.specs.declared.records.Record.TheVariants.{PutDirty, Drop};
ghost use Rattle.layout.specs.Records.{record_cell, record_bytes, ProperRecord};
ghost use Rattle.layout.specs.Apart.{same_record};
ghost use Rattle.std.proofs.Common.{rules};

use crate::cells::Cell;
use device::{DataPage, DiskAddress};

#[derive(Clone, Copy, PartialEq, Eq, Debug)]
pub enum Record {
    // the data page holds the address, as the disk has it
    PutClean(DataPage, DiskAddress),
    // the data page holds the address, newer than the disk
    PutDirty(DataPage, DiskAddress),
    // no page holds the address any more
    Drop(DiskAddress),
    // the page that holds the address is no longer newer than the disk
    MarkClean(DiskAddress),
}

// The numbers of the four kinds of records: constants, since a variant with fields has no number of its own.
const PUT_CLEAN: u8 = 1;

const PUT_DIRTY: u8 = 2;

const DROP: u8 = 3;

const MARK_CLEAN: u8 = 4;

// What stands in the unused places of a list of fixed room; nobody reads it.
impl Default for Record {
    ghost is_default = { λ r. r ≡ Drop (record { 0 = 0 }) };

    fn default() -> Record {
        Record::Drop(DiskAddress(0))
    }
}

impl Cell for Record {
    ghost bytes = { record_bytes };

    ghost proper = { ProperRecord };

    ghost eight = { Prim.search rules };

    ghost apart = { λ x y p q e. same_record x y p q e };

    fn encode(self) -> [u8; 8] {
        match self {
            Record::PutClean(page, address) => cell_of(PUT_CLEAN, page, address),
            Record::PutDirty(page, address) => cell_of(PUT_DIRTY, page, address),
            Record::Drop(address) => cell_of(DROP, DataPage(0), address),
            Record::MarkClean(address) => cell_of(MARK_CLEAN, DataPage(0), address),
        }
    }

    fn decode(from: &[u8]) -> Option<Record> {
        match from {
            [kind, 0, p, q, a, b, c, d] if *kind == PUT_CLEAN || *kind == PUT_DIRTY => {
                let page = DataPage(u16::from_be_bytes([*p, *q]));
                let address = DiskAddress(u32::from_be_bytes([*a, *b, *c, *d]));
                if *kind == PUT_CLEAN {
                    Some(Record::PutClean(page, address))
                } else {
                    Some(Record::PutDirty(page, address))
                }
            }
            [kind, 0, 0, 0, a, b, c, d] if *kind == DROP || *kind == MARK_CLEAN => {
                let address = DiskAddress(u32::from_be_bytes([*a, *b, *c, *d]));
                if *kind == DROP {
                    Some(Record::Drop(address))
                } else {
                    Some(Record::MarkClean(address))
                }
            }
            _ => None,
        }
    }
}

// The eight bytes of a record of this kind.
fn cell_of(kind: u8, page: DataPage, address: DiskAddress) -> [u8; 8]
    ensures { result ≡ record_cell kind page.0 address.0 }
{
    let [p, q] = page.0.to_be_bytes();
    let [a, b, c, d] = address.0.to_be_bytes();
    [kind, 0, p, q, a, b, c, d]
}

// Put dirty, data page 3, address 258.
pub fn record_example()
    ensures { (p : DataPage) (a : DiskAddress) → p.0 ≡ 3 → a.0 ≡ 258 → record_bytes (PutDirty p a) ≡ 2 ∷ 0 ∷ 0 ∷ 3 ∷ 0 ∷ 0 ∷ 1 ∷ 2 ∷ [] }
{}
