// Tests of the image chip and of a pair of them.
use crate::any_chip::{EDGES, ROWS};
use crate::chip_calls::Call;
use crate::chip_cases::try_chip;
use crate::chip_fuses::FUSES;
use crate::pair_cases::{try_both, try_joined, try_pair};
use crate::pair_tables::{POWER_FAILURES, SEAMS};
use std::test::Fail;

#[test]
fn refusals_at_their_edges(rt: HostRuntime) {
    for (row, case) in EDGES.iter().enumerate() {
        try_both(&rt, row, case);
    }
}

#[test]
fn each_state_under_each_call_and_fate(rt: HostRuntime) {
    for (row, trial) in ROWS.iter().enumerate() {
        let steps = trial.steps(Call::PowerOn);
        try_both(&rt, row, &trial.case(&steps));
    }
}

#[test]
fn fuses_of_an_image_chip(rt: HostRuntime) {
    for (row, case) in FUSES.iter().enumerate() {
        try_chip(&rt, row, case);
    }
}

#[test]
fn seams_of_a_pair(rt: HostRuntime) -> Result<(), Fail> {
    for (row, joined) in SEAMS.iter().enumerate() {
        try_joined(&rt, rt.alloc(), row, joined)?;
    }
    Ok(())
}

#[test]
fn power_failures_of_a_pair(rt: HostRuntime) {
    for (row, case) in POWER_FAILURES.iter().enumerate() {
        try_pair(&rt, row, case);
    }
}
