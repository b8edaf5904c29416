// A cache through power cuts: three nights told call by call, and a sweep over every place where power can fail.
#![tactic(auto)]

mod cuts;
mod judge;
mod law;
mod lines;
mod nights;
mod rounds;
mod sweep;
mod totals;

use std::io;

fn main(rt: HostRuntime) -> io::Result<()> {
    let mut image = vec![in rt.alloc(); 0u8; cuts::IMAGE]?;
    nights::run(&rt, rt.alloc(), image.as_mut_slice())?;
    sweep::run(&rt, rt.alloc(), image.as_mut_slice())
}
