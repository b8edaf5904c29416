// Log pages, and the notes of data pages.
ghost use Rattle.std.specs.Prelude.{◌≡◌, ◌<◌, ◌≤◌, length, Some, None, ◌≢◌};
ghost use Rattle.device.specs.declared.places.DiskAddress.{DiskAddress};
ghost use Rattle.layout.specs.Pages.{log_note, log_data, LogRead, data_note};

use crate::notes::Kind;
use crate::pages::{page_of, read_cells};
use crate::records::Record;
use arrayvec::ArrayVec;
use device::{DiskAddress, Note};

// Fills a page with the data of a log page of these records, and answers its note.
pub fn write_log(records: &[Record], page: &mut [u8]) -> Note
    requires few { length records.now ≤ 64 }
    requires whole { length page.old ≡ 512 }
    ensures note { result ≡ log_note records.now }
    ensures bytes { page.new ≡ log_data records.now }
{
    page.copy_from_slice(&page_of(records));
    (Kind::Log as u8, records.len() as u8, 0)
}

// The records of a log page, if the page is one.
pub fn read_log(note: Note, page: &[u8]) -> Option<ArrayVec<Record, 64>>
    requires { length page.now ≡ 512 }
    ensures { LogRead note page.now result }
{
    let (kind, count, address) = note;
    if kind != Kind::Log as u8 || count == 0 || count > 64 || address != 0 {
        return None;
    }
    let mut records = ArrayVec::from([Record::default(); 64]);
    records.truncate(count as usize);
    read_cells(page, &mut records).ok()?;
    Some(records)
}

// The note of a data page with this address.
pub fn note_of_data(address: DiskAddress) -> Note
    ensures { result ≡ data_note address.0 }
{
    (Kind::Data as u8, 0, address.0)
}

// The address in the note of a data page, if it is one.
pub fn data_address(note: Note) -> Option<DiskAddress>
    ensures { elim result [ Some a ↦ note ≡ data_note a.0 | None ↦ ((a : DiskAddress) → note ≢ data_note a.0) ] }
{
    match note {
        (kind, 0, address) if kind == Kind::Data as u8 => Some(DiskAddress(address)),
        _ => None,
    }
}
