// What the mapping table says of a page and of an address.
ghost use Rattle.std.specs.Prelude.{◌≡◌, ℕ, ◌+◌, ◌<◌, ◌≤◌, length, if◌then◌else◌, slice_index};
ghost use Rattle.layout.specs.Entries.{mark_number};
ghost use Rattle.layout.specs.Geometry.{data_pages};
ghost use Rattle.table.specs.Tables.{empty_table, entry_at, holds, mark_of, ProperTable};
ghost use Rattle.table.specs.Views.{table_of, Finds, marks_from};

use crate::mapping::MappingTable;
use arrayvec::ArrayVec;
use device::{DataPage, DiskAddress};
use layout::{Entry, Geometry, Mark};

impl MappingTable {
    // The table of a chip of this size, with no page marked.
    pub fn empty(geometry: Geometry) -> MappingTable
        ensures { table_of result ≡ empty_table (data_pages geometry.blocks) }
    {
        let mut entries = ArrayVec::from([Entry::EMPTY; 448]);
        entries.truncate(geometry.data_pages() as usize);
        MappingTable { entries }
    }

    // The table with these entries, which are such as a table has.
    pub fn of_entries(entries: ArrayVec<Entry, 448>) -> MappingTable
        requires { ProperTable entries.items }
        ensures { table_of result ≡ entries.items }
    {
        MappingTable { entries }
    }

    // The number of data pages.
    pub fn len(&self) -> u16
        ensures { result ≡ length (table_of self.now) }
    {
        self.entries.len() as u16
    }

    // The entries of the data pages.
    pub fn as_slice(&self) -> &[Entry]
        ensures { result.now ≡ table_of self.now }
    {
        self.entries.as_slice()
    }

    // The entry of a data page, an empty one past the table.
    pub fn entry(&self, page: DataPage) -> Entry
        ensures { result ≡ entry_at (table_of self.now) page.0 }
    {
        self.entries
            .get(page.0 as usize)
            .copied()
            .unwrap_or(Entry::EMPTY)
    }

    // The data page that holds the address.
    pub fn find(&self, address: DiskAddress) -> Option<DataPage>
        ensures { Finds (table_of self.now) address.0 result }
    {
        for (i, e) in self.entries.iter().enumerate() {
            if holds(*e, address) {
                return Some(DataPage(i as u16));
            }
        }
        None
    }

    // The mark of an address.
    pub fn mark(&self, address: DiskAddress) -> Mark
        ensures { result ≡ mark_of (table_of self.now) address.0 }
    {
        match self.find(address) {
            Some(page) => self.entry(page).mark,
            None => Mark::Empty,
        }
    }

    // Fills `out` with the marks of the addresses from the first on, as numbers.
    pub fn marks(&self, first: DiskAddress, out: &mut [u8])
        ensures { out.new ≡ marks_from (table_of self.now) first.0 (length out.old) }
    {
        out.fill(0);
        for e in self.as_slice() {
            write_mark(out, first, *e);
        }
    }
}

// Writes the mark of an entry into the marks of the addresses from the first on, where the entry holds one of them.
fn write_mark(out: &mut [u8], first: DiskAddress, e: Entry)
    ensures { (k : ℕ) → k < length out.old → slice_index out.new k ≡ (if holds (first.0 + k) e then mark_number e.mark else slice_index out.old k) }
{
    if e.mark != Mark::Empty && first <= e.address {
        // `get_mut` was tried here: nothing is known of the slice after the write.
        let k = (e.address.0 - first.0) as usize;
        if k < out.len() {
            out[k] = e.mark.number();
        }
    }
}

// Whether the entry holds the address.
fn holds(e: Entry, address: DiskAddress) -> bool
    ensures { result ≡ holds address.0 e }
{
    e.mark != Mark::Empty && e.address == address
}
