// Tests of the image disk.
use crate::disk_calls::DiskCall;
use crate::disk_cases::try_disk;
use crate::disk_tables::{DISK_CASES, DISK_ROWS};

#[test]
fn refusals_at_their_edges_and_fuses(rt: HostRuntime) {
    for (row, case) in DISK_CASES.iter().enumerate() {
        try_disk(&rt, row, case);
    }
}

#[test]
fn each_state_under_each_call_and_fate(rt: HostRuntime) {
    for (row, trial) in DISK_ROWS.iter().enumerate() {
        let steps = trial.steps(DiskCall::PowerOn);
        try_disk(&rt, row, &trial.case(&steps));
    }
}
