// A sweep: the same calls with power failing at each chip call in turn, and each page that is unsettled then old, new and torn.
use crate::cuts::{clear, run_cut, set_fate, unsettled};
use crate::judge::judge_run;
use crate::law::is_dark;
use crate::rounds;
use crate::rounds::Work;
use crate::totals::Totals;
use bench::Fate;
use device::Refusal;
use history::{Answer, Call, NotRun};
use std::alloc::{AllocError, Global};
use std::io;

// More chip calls than the rounds take, so that the sweep comes to its end before.
const LIMIT: u32 = 1000;

// A power cut: the chip calls before it, and the page that has another fate than to be old.
#[derive(Clone, Copy)]
struct Cut {
    fuse: u32,
    page: usize,
    fate: Fate,
}

// Where the power of the first power-on fails.
#[derive(Clone, Copy)]
enum Stop {
    InForm,
    InCall,
    // the fuse outlasts the calls
    Nowhere,
}

// The error of a run in which no call was made.
fn error_of(reason: NotRun) -> io::Error {
    match reason {
        NotRun::NotFormed(_) => io::Error::other("the cache is not formed"),
        NotRun::NoMemory => io::Error::from(AllocError),
    }
}

// Where power failed in a run of the calls.
fn stop_of(run: Result<Vec<Answer>, NotRun>) -> io::Result<Stop> {
    match run {
        Err(NotRun::NotFormed(fault)) if fault.refusal == Refusal::PowerOff => Ok(Stop::InForm),
        Err(reason) => Err(error_of(reason)),
        Ok(answers) if answers.iter().any(is_dark) => Ok(Stop::InCall),
        Ok(_) => Ok(Stop::Nowhere),
    }
}

// The memory and the image that a sweep works with, its calls, and what it has counted so far.
#[derive(Drop)]
struct Sweep<'image, 'blocks> {
    heap: Global,
    image: &'image mut [u8],
    work: Work<'blocks>,
    totals: Totals,
}

impl Sweep<'_, '_> {
    // Makes the calls, the power-on and the reads with one cut, and judges and counts them.
    fn make(&mut self, cut: Cut) -> io::Result<()> {
        let calls = self.work.calls_and_reads.as_slice();
        clear(self.image);
        set_fate(self.image, cut.page, cut.fate);
        let answers = run_cut(self.heap, self.image, cut.fuse, calls).map_err(error_of)?;
        self.totals.add_cut(judge_run(calls, answers.as_slice()));
        Ok(())
    }

    // Makes the cuts at a position: every unsettled page old, and then one of them new or torn.
    fn cut_each(&mut self, fuse: u32) -> io::Result<()> {
        let pages = unsettled(self.heap, self.image)?;
        self.make(Cut {
            fuse,
            page: 0,
            fate: Fate::Old,
        })?;
        for page in pages.iter() {
            for fate in [Fate::New, Fate::Torn] {
                self.make(Cut {
                    fuse,
                    page: *page,
                    fate,
                })?;
            }
        }
        Ok(())
    }

    // Makes the calls by themselves, to learn where power fails and which pages are unsettled then, and then the cuts.
    fn visit(&mut self, fuse: u32) -> io::Result<Stop> {
        clear(self.image);
        let calls = self.work.calls.as_slice();
        let stop = stop_of(run_cut(self.heap, self.image, fuse, calls))?;
        self.totals.add_position();
        match stop {
            Stop::InForm => self.totals.add_in_form(),
            _ => self.cut_each(fuse)?,
        }
        Ok(stop)
    }

    // Visits one position after the other, until the fuse outlasts the calls.
    fn visit_all(&mut self) -> io::Result<()> {
        for fuse in 0..LIMIT {
            if let Stop::Nowhere = self.visit(fuse)? {
                return Ok(());
            }
        }
        Err(io::Error::other("the sweep did not come to its end"))
    }
}

fn say_beginning(rt: &impl Print, calls: usize) -> io::Result<()> {
    println!(rt; "")?;
    println!(rt; "2. Power fails anywhere")?;
    println!(rt;
        "A run of {calls} calls over 18 disk addresses: writes, dirty and clean, reads, evicts, cleans and"
    )?;
    println!(rt;
        "syncs. It is made again and again. Power fails at each chip call in turn, and after the last."
    )?;
    println!(rt;
        "Each time the cut leaves every unsettled page old; then one of them new, or torn, each in its"
    )?;
    println!(rt;
        "turn. After the power-on every address is read, and the reads together have to fit the calls"
    )?;
    println!(rt; "before the cut, with or without the call in which power failed.")
}

// The sweep, and its totals.
pub(super) fn run(rt: &impl Print, heap: Global, image: &mut [u8]) -> io::Result<()> {
    let blocks = rounds::blocks(heap)?;
    let work = rounds::work_of(heap, blocks.as_slice())?;
    say_beginning(rt, work.calls.len())?;
    let mut sweep = Sweep {
        heap,
        image,
        work,
        totals: Totals::default(),
    };
    sweep.visit_all()?;
    sweep.totals.say(rt)
}
