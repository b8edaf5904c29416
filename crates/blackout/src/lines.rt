// Lines about a call of the cache and what it answered, for people.
use bench::{Columns, refused, text_in};
use device::DiskAddress;
use history::{Answer, Call, Served};
use std::io;

// "write clean" is the longest call, and a place has one figure.
pub(super) const COLUMNS: Columns = Columns { call: 11, place: 1 };

// The beginning of a line about a write, with the text of its block.
fn called_with(rt: &impl Print, call: &str, address: DiskAddress, bytes: &[u8]) -> io::Result<()> {
    let text = text_in(bytes);
    COLUMNS.called_at(rt, call, address.0)?;
    print!(rt; "{text}: ")
}

fn say_call(rt: &impl Print, call: &Call) -> io::Result<()> {
    match call {
        Call::WriteDirty(address, bytes) => called_with(rt, "write dirty", *address, bytes),
        Call::WriteClean(address, bytes) => called_with(rt, "write clean", *address, bytes),
        Call::Read(address, _) => COLUMNS.called_at(rt, "read", address.0),
        Call::Evict(address) => COLUMNS.called_at(rt, "evict", address.0),
        Call::Clean(address) => COLUMNS.called_at(rt, "clean", address.0),
        Call::Exists(address, _) => COLUMNS.called_at(rt, "exists", address.0),
        Call::Sync => COLUMNS.called(rt, "sync"),
        Call::PowerOn => COLUMNS.called(rt, "power-on"),
    }
}

// The end of a line: what was answered.
fn say_answer(rt: &impl Print, answer: &Answer) -> io::Result<()> {
    match answer {
        Ok(Served::Done) => println!(rt; "served"),
        Ok(Served::Data(block)) => {
            let text = text_in(block);
            println!(rt; "{text}")
        }
        Ok(Served::Marks(_, count)) => println!(rt; "{count} marks"),
        Err(fault) => refused(rt, *fault),
    }
}

// A line for each call with its answer.
pub(super) fn say_all(rt: &impl Print, calls: &[Call], answers: &[Answer]) -> io::Result<()> {
    for (call, answer) in calls.iter().zip(answers) {
        say_call(rt, call)?;
        say_answer(rt, answer)?;
    }
    Ok(())
}
