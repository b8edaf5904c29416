// Says what a chip image on standard input holds: the mapping table that recovery finds on it, or why it finds none.
#![tactic(auto)]

mod dump;
mod finding;
mod found_lines;
mod refused_lines;
mod tally;
mod usage;

use std::io::Read;
use std::{env, io};

// One byte more than the largest image, so that longer input is seen to be too long.
const LIMIT: u64 = dump::MOST as u64 + 1;

fn main(rt: HostRuntime) -> io::Result<()> {
    // Any word after the program's name asks for help: the image comes on standard input.
    if env::args(&rt)?.count() > 1 {
        return usage::say_usage(&rt);
    }
    let mut image = Vec::new(rt.alloc());
    rt.stdin().take(LIMIT).read_to_end(&mut image)?;
    dump::dump(&rt, image.as_mut_slice())
}
