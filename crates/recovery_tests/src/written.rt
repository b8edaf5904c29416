// Images that the layout's own functions write: a table with every page marked, and a log with every page full.
ghost use Rattle.std.specs.Prelude.{◌<◌};

use crate::cases::{Answer, BLOCK, Found, Marked, check_image};
use crate::frames::{BLANK, HELD, TORN, lay_page};
use device::{ChipPage, DataPage, DiskAddress};
use layout::{Area, Entry, Geometry, Mark, Record};
use std::alloc::{AllocError, Global};
use std::array;
use std::process::Abort;
use std::test::Fail;

// Data page i with address 4,294,967,295 − i: dirty if i is odd, else clean.
fn entry_of(i: usize) -> Entry
    requires { i < 448 }
{
    Entry {
        mark: if i % 2 == 1 { Mark::Dirty } else { Mark::Clean },
        address: DiskAddress(4294967295 - i as u32),
    }
}

// Data page i with an address that the last page of a full log leaves: they begin at `first`, and all are clean.
fn left_at(i: usize, first: u32) -> Entry
    requires { i < 448 }
{
    Entry {
        mark: Mark::Clean,
        address: DiskAddress(first.wrapping_add(i as u32)),
    }
}

// What is to be found of a table's entries.
fn marks_of<const N: usize>(table: &[Entry; N]) -> [Marked; N] {
    array::from_fn(|i| {
        let Entry { mark, address } = table[i];
        Marked((i % 448) as u16, mark.number(), address.0)
    })
}

// Record r of log page j: 32 puts, then 32 drops of the same addresses; on the last page 32 marks instead.
fn record_of(j: u8, last: bool, r: usize) -> Record {
    let k = (r % 32) as u16;
    let address = DiskAddress(100 * j as u32 + k as u32);
    if r < 32 {
        Record::PutDirty(DataPage(k), address)
    } else if last {
        Record::MarkClean(address)
    } else {
        Record::Drop(address)
    }
}

// A chip's image, with its checkpoint and log in one area.
#[derive(Drop)]
struct Written {
    image: Vec<u8>,
    geometry: Geometry,
    area: Area,
}

impl Written {
    // A blank chip.
    fn new(heap: Global, geometry: Geometry, area: Area) -> Result<Written, AllocError> {
        let image = vec![in heap; 0; BLOCK * geometry.blocks() as usize]?;
        Ok(Written {
            image,
            geometry,
            area,
        })
    }

    // Lays a held page.
    fn lay_held(&mut self, page: ChipPage, note: (u8, u8, u32), data: &[u8; 512]) {
        lay_page(self.image.as_mut_slice(), page, HELD, note, data);
    }

    // Lays an entry page of a table, if the table reaches so far.
    fn lay_entry_page(&mut self, j: u8, table: &[Entry]) {
        let mut data = [0; 512];
        if 64 * j as usize <= table.len() {
            let note = layout::write_entries(table, j, &mut data);
            self.lay_held(self.geometry.entry_page(self.area, j), note, &data);
        }
    }

    // Lays the checkpoint of a table.
    fn lay_checkpoint(&mut self, number: u8, table: &[Entry]) {
        for j in 0..self.geometry.entry_pages() {
            self.lay_entry_page(j, table);
        }
        let mut data = [0; 512];
        let note = layout::write_trailer(self.geometry, self.area, number, &mut data);
        self.lay_held(self.geometry.trailer_page(self.area), note, &data);
    }

    // Lays the data pages of a table.
    fn lay_data_pages(&mut self, table: &[Entry]) {
        for (page, entry) in (0..448).map(DataPage).zip(table) {
            let note = layout::note_of_data(entry.address);
            self.lay_held(page.chip_page(), note, &[7; 512]);
        }
    }

    // Lays a log with every page full.
    fn lay_log(&mut self) {
        for j in 0..self.geometry.log_pages() {
            let last = is_last(self.geometry, j);
            let records: [Record; 64] = array::from_fn(|r| record_of(j, last, r));
            let mut data = [0; 512];
            let note = layout::write_log(&records, &mut data);
            self.lay_held(self.geometry.log_page(self.area, j), note, &data);
        }
    }

    // Gives a log page another state.
    fn set_state(&mut self, j: u8, state: u8) {
        let at = 520 * self.geometry.log_page(self.area, j).0 as usize;
        if let Some(byte) = self.image.as_mut_slice().get_mut(at) {
            *byte = state;
        }
    }
}

// Whether a log page is the last.
fn is_last(geometry: Geometry, j: u8) -> bool {
    j as u16 + 1 == geometry.log_pages() as u16
}

// What the tries of a row share: the chip's geometry, its area, and the first address that the last page of a full log leaves.
#[derive(Drop)]
struct Trial<'r, R> {
    rt: &'r R,
    heap: Global,
    row: usize,
    geometry: Geometry,
    area: Area,
    first: u32,
}

// What is to be found needs no leave to abort.
impl<R> Trial<'_, R> {
    // What a full log leaves where page `j` is held, blank or torn. Every page but the last takes back what it puts, so only the
    // last one can be missed; and a blank one there is the next log page.
    fn left_by<'a>(&self, j: u8, state: (u8, u8), marked: &'a [Marked]) -> Answer<'a> {
        let pages = self.geometry.log_pages();
        if state == HELD || !is_last(self.geometry, j) {
            Ok(Found(self.area, 0, pages, marked))
        } else if state == BLANK {
            Ok(Found(self.area, 0, j, &[]))
        } else {
            Ok(Found(self.area, 0, pages, &[]))
        }
    }
}

impl<R: Abort> Trial<'_, R> {
    // Every data page marked.
    fn try_full_table(&self) -> Result<(), Fail> {
        let count = self.geometry.data_pages() as usize;
        let table: [Entry; 448] = array::from_fn(entry_of);
        let marked = marks_of(&table);
        let mut written = Written::new(self.heap, self.geometry, self.area)?;
        written.lay_checkpoint(2, &table[..count]);
        written.lay_data_pages(&table[..count]);
        let answer = Ok(Found(self.area, 2, 0, &marked[..count]));
        let at = format_args!("row {}, full table, area {:?}", self.row, self.area);
        check_image(self.rt, &at, written.image.as_mut_slice(), answer);
        Ok(())
    }

    // Every log page full, behind an empty table, and then page `j` in this state.
    fn try_log(&self, j: u8, state: (u8, u8)) -> Result<(), Fail> {
        let count = self.geometry.data_pages() as usize;
        let empty = [Entry::empty(); 448];
        let left: [Entry; 32] = array::from_fn(|i| left_at(i, self.first));
        // 1 is the number of a clean mark. That it is right is tested too, so it stays a number.
        let marked: [Marked; 32] = array::from_fn(|i| Marked(i as u16, 1, left[i].address.0));
        let mut written = Written::new(self.heap, self.geometry, self.area)?;
        written.lay_checkpoint(0, &empty[..count]);
        written.lay_log();
        written.lay_data_pages(&left);
        written.set_state(j, state.0);
        let at = format_args!(
            "row {}, full log, area {:?}, log page {j} in state {}",
            self.row, self.area, state.0
        );
        let answer = self.left_by(j, state, &marked);
        check_image(self.rt, &at, written.image.as_mut_slice(), answer);
        Ok(())
    }

    // A full log, and each of its pages blank and torn.
    fn try_logs(&self) -> Result<(), Fail> {
        self.try_log(0, HELD)?;
        for j in 0..self.geometry.log_pages() {
            self.try_log(j, BLANK)?;
            self.try_log(j, TORN)?;
        }
        Ok(())
    }
}

// A chip of so many erase blocks, with its log pages and the first address that the last of them leaves.
pub(super) struct Size(pub u32, pub u8, pub u32);

pub(super) const WRITTEN: &[Size] = &[Size(12, 30, 2900), Size(17, 29, 2800), Size(64, 24, 2300)];

// Tries the size of a row, with each area.
pub(super) fn try_size(rt: &impl Abort, heap: Global, row: usize, size: &Size) -> Result<(), Fail> {
    let Size(blocks, logs, first) = size;
    let Ok(geometry) = Geometry::new(*blocks) else {
        panic!(rt; "row {row}, no such chip");
    };
    assert_eq!(rt; geometry.log_pages(), *logs, "row {row}, log pages");
    for area in [Area::One, Area::Two] {
        let trial = Trial {
            rt,
            heap,
            row,
            geometry,
            area,
            first: *first,
        };
        trial.try_full_table()?;
        trial.try_logs()?;
    }
    Ok(())
}
