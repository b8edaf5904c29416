// A bench: it records alarms on a chip, a disk and a pair of chips, cuts their power, and says what is left.
#![tactic(auto)]

mod alarms;
mod chip_night;
mod chip_steps;
mod disk_night;
mod disk_steps;
mod lines;
mod pair_night;

use std::io;

fn main(rt: HostRuntime) -> io::Result<()> {
    chip_night::run(&rt)?;
    disk_night::run(&rt)?;
    pair_night::run(&rt)
}
