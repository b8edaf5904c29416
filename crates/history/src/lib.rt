// The histories of a cache: what a run of calls promises, and the call that runs a list of calls under that law.
#![tactic(auto)]

mod calls;
mod runs;
mod serving;

pub use calls::{Answer, Call, Served};
pub use runs::{NotRun, Ran, run};
