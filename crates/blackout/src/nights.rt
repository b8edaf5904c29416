// Three nights: power fails at the same chip call of the same write, and the cut leaves its log page old, new or torn.
use crate::cuts::{clear, run_cut, set_fate};
use crate::lines::{COLUMNS, say_all};
use crate::rounds::BUFFER;
use bench::{BLOCK, Fate, block_of, refused};
use device::DiskAddress;
use history::{Answer, Call, NotRun, Served};
use std::alloc::Global;
use std::io;

const FIRST: &str = "alarm 1, 21:40 front door";

const SECOND: &str = "alarm 2, 22:15 yard gate";

const ADDRESS: DiskAddress = DiskAddress(5);

// The form takes 17 programs, erases and syncs, the first write 4, and the second write has 3 when power fails.
const FUSE: u32 = 24;

// The log page of the second write.
const LOG_PAGE: usize = 3;

// What is said before a night, and what its cut does.
struct Night {
    words: &'static str,
    fate: Fate,
}

const NIGHTS: [Night; 3] = [
    Night {
        words: "Old: the power cut leaves the log page blank, as it was before the write.",
        fate: Fate::Old,
    },
    Night {
        words: "New: the power cut leaves the log page as the write made it.",
        fate: Fate::New,
    },
    Night {
        words: "Torn: the power cut leaves the log page torn, so that nobody can read it.",
        fate: Fate::Torn,
    },
];

fn say_beginning(rt: &impl Print) -> io::Result<()> {
    println!(rt;
        "A cache through power cuts. Each indented line is a call, its disk address, and what was"
    )?;
    println!(rt;
        "answered. A refusal shows its number, layer and place, and then the same in words."
    )?;
    println!(rt; "")?;
    println!(rt; "1. Power fails in the middle of a write")?;
    println!(rt;
        "A block that is written dirty is newer than the disk's, so the cache has to keep it. The write"
    )?;
    println!(rt;
        "takes four calls of the chip: a page with the block, a sync, a log page that says where the"
    )?;
    println!(rt;
        "block is, a sync. In the second write power fails at the last of the four, so what becomes of"
    )?;
    println!(rt; "its log page is open. The write is refused: it may count wholly or not at all.")
}

// Which of the two blocks a run read back at last.
fn read_back(answers: &[Answer], blocks: &[[u8; BLOCK]; 2]) -> &'static str {
    let [first, second] = blocks;
    match answers.last() {
        Some(Ok(Served::Data(block))) if block == first => "the first one",
        Some(Ok(Served::Data(block))) if block == second => "the second one",
        Some(Ok(Served::Data(_))) => "neither of the two",
        _ => "none",
    }
}

// The calls of a night.
fn calls<'a>(blocks: &'a [[u8; BLOCK]; 2]) -> [Call<'a>; 4] {
    let [first, second] = blocks;
    [
        Call::WriteDirty(ADDRESS, first),
        Call::WriteDirty(ADDRESS, second),
        Call::PowerOn,
        Call::Read(ADDRESS, BUFFER),
    ]
}

// One night, from the form to the block that is read back.
fn pass(rt: &impl Print, heap: Global, image: &mut [u8], night: &Night) -> io::Result<()> {
    let blocks = [block_of(FIRST), block_of(SECOND)];
    let calls = calls(&blocks);
    let words = night.words;
    println!(rt; "")?;
    println!(rt; "{words}")?;
    clear(image);
    set_fate(image, LOG_PAGE, night.fate);
    COLUMNS.called(rt, "form")?;
    match run_cut(heap, image, FUSE, &calls) {
        Err(NotRun::NoMemory) => println!(rt; "no memory"),
        Err(NotRun::NotFormed(fault)) => refused(rt, fault),
        Ok(answers) => {
            println!(rt; "served")?;
            say_all(rt, &calls, answers.as_slice())?;
            let block = read_back(answers.as_slice(), &blocks);
            println!(rt; "So the block that is read back is {block}.")
        }
    }
}

// The three nights.
pub(super) fn run(rt: &impl Print, heap: Global, image: &mut [u8]) -> io::Result<()> {
    say_beginning(rt)?;
    for night in &NIGHTS {
        pass(rt, heap, image, night)?;
    }
    Ok(())
}
