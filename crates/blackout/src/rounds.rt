// The calls of the sweep: rounds of the same steps, each of which writes a block of its own.
use crate::law::ADDRESSES;
use bench::BLOCK;
use device::DiskAddress;
use history::Call;
use std::alloc::{AllocError, Global};

// The bytes of a block, as a read is given them.
pub(super) const BUFFER: u16 = BLOCK as u16;

// A call, but for the block that it writes.
enum Step {
    WriteDirty(u32),
    WriteClean(u32),
    // writes clean the first or the second of the two addresses that no other round uses
    WriteOnce(u32),
    Read(u32),
    Evict(u32),
    Clean(u32),
    Marks,
    Sync,
}

// Blocks are written over, cleaned, evicted, left for the next commit and committed.
const ROUND: [Step; STEPS] = [
    Step::WriteDirty(1),
    Step::WriteClean(2),
    Step::WriteOnce(0),
    Step::WriteDirty(3),
    Step::Marks,
    Step::WriteDirty(1),
    Step::Clean(3),
    Step::Sync,
    Step::WriteClean(4),
    Step::Read(4),
    Step::Evict(2),
    Step::WriteDirty(4),
    Step::WriteClean(5),
    Step::Sync,
    Step::WriteClean(5),
    Step::WriteOnce(1),
    Step::WriteDirty(6),
    Step::Evict(6),
    Step::Evict(0),
    Step::Clean(1),
    Step::WriteDirty(3),
    Step::WriteClean(2),
    Step::Read(1),
    Step::WriteDirty(7),
    Step::Clean(7),
    Step::WriteClean(0),
];

const STEPS: usize = 26;

// Enough to fill the data pages and both logs: reclaims are among the calls, and a checkpoint over a used area.
const ROUNDS: u32 = 5;

// The calls of all rounds.
const CALLS: u8 = STEPS as u8 * ROUNDS as u8;

// The first of the addresses that one round alone uses.
const FIRST_ONCE: u32 = 8;

// How many addresses a call asks the marks of.
const MARKS: u16 = 8;

// An address that no other round uses.
fn once(round: u32, which: u32) -> DiskAddress {
    DiskAddress(
        round
            .saturating_mul(2)
            .saturating_add(which)
            .saturating_add(FIRST_ONCE),
    )
}

impl Step {
    fn call<'a>(&self, round: u32, block: &'a [u8]) -> Call<'a> {
        match self {
            Step::WriteDirty(address) => Call::WriteDirty(DiskAddress(*address), block),
            Step::WriteClean(address) => Call::WriteClean(DiskAddress(*address), block),
            Step::WriteOnce(which) => Call::WriteClean(once(round, *which), block),
            Step::Read(address) => Call::Read(DiskAddress(*address), BUFFER),
            Step::Evict(address) => Call::Evict(DiskAddress(*address)),
            Step::Clean(address) => Call::Clean(DiskAddress(*address)),
            Step::Marks => Call::Exists(DiskAddress(0), MARKS),
            Step::Sync => Call::Sync,
        }
    }
}

// A block for each call, with the call's number in every byte.
pub(super) fn blocks(heap: Global) -> Result<Vec<[u8; BLOCK]>, AllocError> {
    (0..CALLS).map(|number| [number; BLOCK]).collect(heap)
}

// The calls by themselves, and followed by a power-on and a read of each address.
#[derive(Drop)]
pub(super) struct Work<'a> {
    pub calls: Vec<Call<'a>>,
    pub calls_and_reads: Vec<Call<'a>>,
}

// A call for each block, round by round.
fn calls<'a>(heap: Global, blocks: &'a [[u8; BLOCK]]) -> Result<Vec<Call<'a>>, AllocError> {
    let mut calls = Vec::new(heap);
    for (round, blocks) in (0..ROUNDS).zip(blocks.chunks(STEPS)) {
        for (step, block) in ROUND.iter().zip(blocks) {
            calls.push(step.call(round, block))?;
        }
    }
    Ok(calls)
}

// Adds a power-on and a read of each address.
fn add_reads(calls: &mut Vec<Call>) -> Result<(), AllocError> {
    calls.push(Call::PowerOn)?;
    for address in 0..ADDRESSES as u32 {
        calls.push(Call::Read(DiskAddress(address), BUFFER))?;
    }
    Ok(())
}

// The calls that write these blocks.
pub(super) fn work_of<'a>(heap: Global, blocks: &'a [[u8; BLOCK]]) -> Result<Work<'a>, AllocError> {
    let calls = calls(heap, blocks)?;
    let mut calls_and_reads = calls.clone()?;
    add_reads(&mut calls_and_reads)?;
    Ok(Work {
        calls,
        calls_and_reads,
    })
}
