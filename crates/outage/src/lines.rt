// Lines about a call and what it answered.
use bench::{Columns, refused};
use device::Fault;
use std::io;

// "power-on" is the longest call, and a place has two figures at most.
pub(super) const COLUMNS: Columns = Columns { call: 8, place: 2 };

// The end of a line: the answer of a call that answers nothing else.
pub(super) fn answered(rt: &impl Print, answer: Result<(), Fault>) -> io::Result<()> {
    match answer {
        Ok(()) => println!(rt; "served"),
        Err(fault) => refused(rt, fault),
    }
}
