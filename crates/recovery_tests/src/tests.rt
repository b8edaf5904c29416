// The tests, each over its rows.
use crate::cases::{Case, try_case, try_off};
use crate::data_rows::DATA;
use crate::entry_rows::ENTRIES;
use crate::log_rows::{LOGS, REPLAYS};
use crate::size_rows::{OFF, SIZES};
use crate::trailer_rows::TRAILERS;
use crate::written::{WRITTEN, try_size};
use std::alloc::Global;
use std::process::Abort;
use std::test::Fail;

// Tries cases in turn.
fn try_cases(rt: &impl Abort, heap: Global, cases: &[Case]) -> Result<(), Fail> {
    for (row, case) in cases.iter().enumerate() {
        try_case(rt, heap, row, case)?;
    }
    Ok(())
}

#[test]
fn trailers(rt: HostRuntime) -> Result<(), Fail> {
    try_cases(&rt, rt.alloc(), TRAILERS)
}

#[test]
fn entry_pages(rt: HostRuntime) -> Result<(), Fail> {
    try_cases(&rt, rt.alloc(), ENTRIES)
}

#[test]
fn replays(rt: HostRuntime) -> Result<(), Fail> {
    try_cases(&rt, rt.alloc(), REPLAYS)
}

#[test]
fn log_pages(rt: HostRuntime) -> Result<(), Fail> {
    try_cases(&rt, rt.alloc(), LOGS)
}

#[test]
fn data_pages(rt: HostRuntime) -> Result<(), Fail> {
    try_cases(&rt, rt.alloc(), DATA)
}

#[test]
fn sizes(rt: HostRuntime) -> Result<(), Fail> {
    try_cases(&rt, rt.alloc(), SIZES)
}

#[test]
fn full_tables_and_logs(rt: HostRuntime) -> Result<(), Fail> {
    for (row, size) in WRITTEN.iter().enumerate() {
        try_size(&rt, rt.alloc(), row, size)?;
    }
    Ok(())
}

#[test]
fn chips_that_are_off(rt: HostRuntime) -> Result<(), Fail> {
    for (row, off) in OFF.iter().enumerate() {
        try_off(&rt, rt.alloc(), row, off)?;
    }
    Ok(())
}
