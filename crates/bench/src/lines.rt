// Lines about calls and refusals, for people.
use device::Fault;
use std::io;

// How wide the name of a call and its place are in a line.
#[derive(Clone, Copy)]
pub struct Columns {
    pub call: usize,
    pub place: usize,
}

impl Columns {
    // The beginning of a line: a call, and the place that it is given.
    pub fn called_at(self, rt: &impl Print, call: &str, place: u32) -> io::Result<()> {
        let Columns { call: c, place: p } = self;
        print!(rt; "  {call:<c$} {place:>p$}  ")
    }

    // The same of a call that is given no place.
    pub fn called(self, rt: &impl Print, call: &str) -> io::Result<()> {
        let Columns { call: c, place: p } = self;
        print!(rt; "  {call:<c$} {:>p$}  ", "")
    }
}

// The end of a line: a refusal by its three numbers, and in words.
pub fn refused(rt: &impl Print, fault: Fault) -> io::Result<()> {
    let Fault {
        refusal,
        layer,
        place,
    } = fault;
    println!(rt; "refused {fault} ({refusal}, {layer}, place {place})")
}
