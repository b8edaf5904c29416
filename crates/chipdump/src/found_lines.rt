// Lines about a chip that recovery takes up: its layout, its mapping table and each marked page.
use crate::tally::tally;
use device::DataPage;
use layout::{Area, Entry, Geometry, Mark};
use recovery::Restored;
use std::io;
use table::MappingTable;

// How a chip of this size is laid out.
pub(super) fn say_geometry(rt: &impl Print, geometry: Geometry) -> io::Result<()> {
    let data = geometry.data_pages();
    let entry = geometry.entry_pages();
    let log = geometry.log_pages();
    println!(rt; "data pages: {data}, from chip page 64 on")?;
    println!(rt; "entry pages in each of the two areas: {entry}")?;
    println!(rt; "log pages in each of the two areas: {log}")
}

// An area, in words.
fn area_name(area: Area) -> &'static str {
    match area {
        Area::One => "one",
        Area::Two => "two",
    }
}

// The checkpoint and the log.
fn say_journal(rt: &impl Print, geometry: Geometry, found: &Restored) -> io::Result<()> {
    let area = area_name(found.area);
    let first = found.area.first().0;
    let number = found.number;
    let next = found.next;
    let log = geometry.log_pages();
    println!(rt; "active area: {area}, from chip page {first} on")?;
    println!(rt; "checkpoint number: {number} (of 0, 1, 2, in turn)")?;
    println!(rt; "log pages used: {next} of {log}")
}

// A mark, in words, if it is one.
fn mark_name(mark: Mark) -> Option<&'static str> {
    match mark {
        Mark::Empty => None,
        Mark::Clean => Some("clean"),
        Mark::Dirty => Some("dirty"),
    }
}

// One marked page.
fn say_marked(rt: &impl Print, page: DataPage, mark: &str, entry: &Entry) -> io::Result<()> {
    let data = page.0;
    let chip = page.chip_page().0;
    let address = entry.address.0;
    println!(rt; "data page {data}, chip page {chip}: {mark}, disk address {address}")
}

// The marked pages of a mapping table.
fn say_entries(rt: &impl Print, table: &MappingTable) -> io::Result<()> {
    for (page, entry) in (0..table.len()).map(DataPage).zip(table.as_slice()) {
        if let Some(mark) = mark_name(entry.mark) {
            say_marked(rt, page, mark, entry)?;
        }
    }
    Ok(())
}

// What recovery found.
pub(super) fn say_found(rt: &impl Print, geometry: Geometry, found: &Restored) -> io::Result<()> {
    say_journal(rt, geometry, found)?;
    let entries = found.table.as_slice();
    let clean = tally(entries, Mark::Clean);
    let dirty = tally(entries, Mark::Dirty);
    println!(rt; "clean pages: {clean} (the disk has the same)")?;
    println!(rt; "dirty pages: {dirty} (newer than the disk)")?;
    say_entries(rt, &found.table)
}
