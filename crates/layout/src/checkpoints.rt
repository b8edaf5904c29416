// The pages of a checkpoint: entry pages, then the trailer that makes them count.
ghost use Rattle.std.specs.Prelude.{◌≡◌, ◌-◌, ◌*◌, ◌≤◌, min, length};
ghost use Rattle.layout.specs.Geometry.{data_pages};
ghost use Rattle.layout.specs.Pages.{entry_note, entry_data, EntriesRead, trailer_note, trailer_data, TrailerRead};

use crate::areas::Area;
use crate::chip_size::Geometry;
use crate::entries::Entry;
use crate::notes::{Kind, Malformed};
use crate::pages::{page_of, read_cell, read_cells};
use crate::trailers::Trailer;
use device::Note;

// Where the entries of a page end that begin at `first`, in a table of `len`.
fn part_end(first: usize, len: usize) -> usize
    requires { first ≤ len }
    ensures past { first ≤ result }
    ensures within { result ≤ len }
    ensures size { result - first ≡ min 64 (len - first) }
{
    first + (len - first).min(64)
}

// Fills a page with the data of entry page `j` of a table, and answers its note.
pub fn write_entries(table: &[Entry], j: u8, page: &mut [u8]) -> Note
    requires inside { 64 * j ≤ length table.now }
    requires whole { length page.old ≡ 512 }
    ensures note { result ≡ entry_note j }
    ensures bytes { page.new ≡ entry_data table.now j }
{
    let first = 64 * j as usize;
    let end = part_end(first, table.len());
    page.copy_from_slice(&page_of(&table[first..end]));
    (Kind::Entries as u8, j, 0)
}

// Reads entry page `j` into a table. On any other page it changes nothing.
pub fn read_entries(note: Note, page: &[u8], j: u8, table: &mut [Entry]) -> Result<(), Malformed>
    requires inside { 64 * j ≤ length table.old }
    requires whole { length page.now ≡ 512 }
    ensures { EntriesRead note page.now j table.old result table.new }
{
    if note != (Kind::Entries as u8, j, 0) {
        return Err(Malformed);
    }
    let first = 64 * j as usize;
    let end = part_end(first, table.len());
    let mut room = [Entry::EMPTY; 64];
    let entries = &mut room[..end - first];
    read_cells(page, entries)?;
    table[first..end].copy_from_slice(entries);
    Ok(())
}

// Fills a page with the data of an area's trailer, and answers its note.
pub fn write_trailer(geometry: Geometry, area: Area, number: u8, page: &mut [u8]) -> Note
    requires { length page.old ≡ 512 }
    ensures note { result ≡ trailer_note (data_pages geometry.blocks) number }
    ensures bytes { page.new ≡ trailer_data area (data_pages geometry.blocks) }
{
    page.copy_from_slice(&page_of(&[Trailer::new(geometry, area)]));
    (Kind::Trailer as u8, geometry.entry_pages(), number as u32)
}

// The number of an area's trailer, if the page is one.
pub fn read_trailer(geometry: Geometry, area: Area, note: Note, page: &[u8]) -> Option<u8>
    requires { length page.now ≡ 512 }
    ensures { TrailerRead area (data_pages geometry.blocks) note page.now result }
{
    let (kind, count, number) = note;
    if kind != Kind::Trailer as u8 || count != geometry.entry_pages() || number >= 3 {
        return None;
    }
    if read_cell::<Trailer>(page)? == Trailer::new(geometry, area) {
        Some(number as u8)
    } else {
        None
    }
}
