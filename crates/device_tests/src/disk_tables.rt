// Tables of an image disk: refusals at their edges, states, fates and fuses.
use crate::calls::Answer::{Counted, Done, Found, Refused};
use crate::calls::Step;
use crate::cases::{Case, Row};
use crate::disk_calls::DiskCall::{Blocks, PowerOn, Read, Sync, Write};
use crate::disk_cases::{DiskCase, DiskFrame, DiskRow};

// Refusals at the last good block and the first bad one, at 511, 512 and 513 bytes, and where two conditions hold at once;
// fuses: what counts, where power fails, and which power-on has which.
pub(super) const DISK_CASES: &[DiskCase<'static>] = &[
    // off comes before the size and the place; the number of blocks is told all the same
    Case {
        fuses: &[],
        before: &[DiskFrame(2, 0, 0, 5, 6)],
        steps: &[
            Step(Read(2, 512), Refused(1, 3, 2)),
            Step(Read(3, 511), Refused(1, 3, 3)),
            Step(Write(2, 512, 9), Refused(1, 3, 2)),
            Step(Write(3, 513, 9), Refused(1, 3, 3)),
            Step(Sync, Refused(1, 3, 0)),
            Step(Blocks, Counted(3)),
            Step(PowerOn, Done),
            Step(Blocks, Counted(3)),
        ],
        after: &[],
    },
    // reads: size before place
    Case {
        fuses: &[],
        before: &[DiskFrame(0, 0, 0, 3, 4), DiskFrame(2, 0, 0, 5, 6)],
        steps: &[
            Step(PowerOn, Done),
            Step(Read(0, 512), Found(3)),
            Step(Read(2, 512), Found(5)),
            Step(Read(3, 512), Refused(3, 3, 3)),
            Step(Read(4294967295, 512), Refused(3, 3, 4294967295)),
            Step(Read(2, 0), Refused(2, 3, 2)),
            Step(Read(2, 511), Refused(2, 3, 2)),
            Step(Read(2, 513), Refused(2, 3, 2)),
            Step(Read(3, 511), Refused(2, 3, 3)),
        ],
        after: &[],
    },
    // writes: size before place, both before unsettled
    Case {
        fuses: &[],
        before: &[DiskFrame(0, 0, 0, 3, 4), DiskFrame(2, 0, 0, 5, 6)],
        steps: &[
            Step(PowerOn, Done),
            Step(Write(2, 0, 9), Refused(2, 3, 2)),
            Step(Write(2, 511, 9), Refused(2, 3, 2)),
            Step(Write(2, 513, 9), Refused(2, 3, 2)),
            Step(Write(3, 513, 9), Refused(2, 3, 3)),
            Step(Write(3, 512, 9), Refused(3, 3, 3)),
            Step(Write(4294967295, 512, 9), Refused(3, 3, 4294967295)),
            Step(Write(2, 512, 9), Done),
            Step(Write(2, 511, 8), Refused(2, 3, 2)),
            Step(Write(2, 512, 8), Refused(4, 3, 2)),
            Step(Write(0, 512, 7), Done),
            Step(Read(2, 512), Found(9)),
        ],
        after: &[DiskFrame(0, 1, 0, 3, 7), DiskFrame(2, 1, 0, 5, 9)],
    },
    // fuses: none ever fails without one
    Case {
        fuses: &[],
        before: &[],
        steps: &[
            Step(PowerOn, Done),
            Step(Write(0, 512, 1), Done),
            Step(Sync, Done),
            Step(Sync, Done),
        ],
        after: &[DiskFrame(0, 0, 0, 1, 1)],
    },
    // a write that loses power changes nothing, and the disk is off
    Case {
        fuses: &[0],
        before: &[DiskFrame(2, 0, 1, 5, 6)],
        steps: &[
            Step(PowerOn, Done),
            Step(Read(2, 512), Found(5)),
            Step(Write(2, 512, 9), Refused(1, 3, 2)),
            Step(Read(2, 512), Refused(1, 3, 2)),
            Step(Write(3, 512, 9), Refused(1, 3, 3)),
            Step(Sync, Refused(1, 3, 0)),
            Step(PowerOn, Done),
            Step(Read(2, 512), Found(5)),
        ],
        after: &[],
    },
    // a sync that loses power settles nothing
    Case {
        fuses: &[1],
        before: &[DiskFrame(2, 0, 0, 5, 6)],
        steps: &[
            Step(PowerOn, Done),
            Step(Write(2, 512, 9), Done),
            Step(Sync, Refused(1, 3, 0)),
        ],
        after: &[DiskFrame(2, 1, 0, 5, 9)],
    },
    // with its fuse spent, a call that is refused anyway answers its refusal; refused calls and reads do not count
    Case {
        fuses: &[2],
        before: &[],
        steps: &[
            Step(PowerOn, Done),
            Step(Write(0, 511, 1), Refused(2, 3, 0)),
            Step(Write(3, 512, 1), Refused(3, 3, 3)),
            Step(Write(0, 512, 1), Done),
            Step(Read(0, 512), Found(1)),
            Step(Write(0, 512, 2), Refused(4, 3, 0)),
            Step(Sync, Done),
            Step(Write(0, 511, 1), Refused(2, 3, 0)),
            Step(Write(3, 512, 1), Refused(3, 3, 3)),
            Step(Read(0, 512), Found(1)),
            Step(Write(1, 512, 2), Refused(1, 3, 1)),
        ],
        after: &[DiskFrame(0, 0, 0, 1, 1)],
    },
    // the second and third power-on have their own fuses, the fourth has none
    Case {
        fuses: &[2, 0, 1],
        before: &[],
        steps: &[
            Step(PowerOn, Done),
            Step(Sync, Done),
            Step(Sync, Done),
            Step(Sync, Refused(1, 3, 0)),
            Step(PowerOn, Done),
            Step(Write(1, 512, 1), Refused(1, 3, 1)),
            Step(PowerOn, Done),
            Step(Sync, Done),
            Step(Write(1, 512, 1), Refused(1, 3, 1)),
            Step(PowerOn, Done),
            Step(Sync, Done),
            Step(Sync, Done),
            Step(Sync, Done),
        ],
        after: &[],
    },
    // a power-on takes the next of eight fuses, though the last is not spent
    Case {
        fuses: &[9, 9, 9, 9, 9, 9, 4294967295, 1],
        before: &[],
        steps: &[
            Step(PowerOn, Done),
            Step(PowerOn, Done),
            Step(PowerOn, Done),
            Step(PowerOn, Done),
            Step(PowerOn, Done),
            Step(PowerOn, Done),
            Step(PowerOn, Done),
            Step(Sync, Done),
            Step(PowerOn, Done),
            Step(Sync, Done),
            Step(Sync, Refused(1, 3, 0)),
            Step(PowerOn, Done),
            Step(Sync, Done),
            Step(Sync, Done),
        ],
        after: &[],
    },
];

// Each state of a block under each call. A block is brought to state 1 by a write.
pub(super) const DISK_ROWS: &[DiskRow] = &[
    // 0, settled
    Row(
        DiskFrame(1, 0, 0, 1, 2),
        PowerOn,
        Read(1, 512),
        Found(1),
        DiskFrame(1, 0, 0, 1, 2),
    ),
    Row(
        DiskFrame(1, 0, 0, 1, 2),
        PowerOn,
        Write(1, 512, 3),
        Done,
        DiskFrame(1, 1, 0, 1, 3),
    ),
    Row(
        DiskFrame(1, 0, 0, 1, 2),
        PowerOn,
        Sync,
        Done,
        DiskFrame(1, 0, 0, 1, 2),
    ),
    Row(
        DiskFrame(1, 0, 0, 1, 2),
        PowerOn,
        PowerOn,
        Done,
        DiskFrame(1, 0, 0, 1, 2),
    ),
    // 1, unsettled
    Row(
        DiskFrame(1, 0, 0, 1, 2),
        Write(1, 512, 3),
        Read(1, 512),
        Found(3),
        DiskFrame(1, 1, 0, 1, 3),
    ),
    Row(
        DiskFrame(1, 0, 0, 1, 2),
        Write(1, 512, 3),
        Write(1, 512, 4),
        Refused(4, 3, 1),
        DiskFrame(1, 1, 0, 1, 3),
    ),
    Row(
        DiskFrame(1, 0, 0, 1, 2),
        Write(1, 512, 3),
        Sync,
        Done,
        DiskFrame(1, 0, 0, 3, 3),
    ),
    Row(
        DiskFrame(1, 0, 0, 1, 2),
        Write(1, 512, 3),
        PowerOn,
        Done,
        DiskFrame(1, 0, 0, 1, 3),
    ),
    Row(
        DiskFrame(1, 0, 1, 1, 2),
        Write(1, 512, 3),
        PowerOn,
        Done,
        DiskFrame(1, 0, 1, 3, 3),
    ),
    Row(
        DiskFrame(1, 0, 2, 1, 2),
        Write(1, 512, 3),
        PowerOn,
        Done,
        DiskFrame(1, 0, 2, 1, 3),
    ),
    Row(
        DiskFrame(1, 0, 255, 1, 2),
        Write(1, 512, 3),
        PowerOn,
        Done,
        DiskFrame(1, 0, 255, 1, 3),
    ),
    // each state in an image by each fate at the first power-on, and what the block then reads
    Row(
        DiskFrame(1, 0, 0, 1, 2),
        PowerOn,
        Read(1, 512),
        Found(1),
        DiskFrame(1, 0, 0, 1, 2),
    ),
    Row(
        DiskFrame(1, 0, 1, 1, 2),
        PowerOn,
        Read(1, 512),
        Found(1),
        DiskFrame(1, 0, 1, 1, 2),
    ),
    Row(
        DiskFrame(1, 0, 2, 1, 2),
        PowerOn,
        Read(1, 512),
        Found(1),
        DiskFrame(1, 0, 2, 1, 2),
    ),
    Row(
        DiskFrame(1, 0, 255, 1, 2),
        PowerOn,
        Read(1, 512),
        Found(1),
        DiskFrame(1, 0, 255, 1, 2),
    ),
    Row(
        DiskFrame(1, 1, 0, 1, 2),
        PowerOn,
        Read(1, 512),
        Found(1),
        DiskFrame(1, 0, 0, 1, 2),
    ),
    Row(
        DiskFrame(1, 1, 1, 1, 2),
        PowerOn,
        Read(1, 512),
        Found(2),
        DiskFrame(1, 0, 1, 2, 2),
    ),
    Row(
        DiskFrame(1, 1, 2, 1, 2),
        PowerOn,
        Read(1, 512),
        Found(1),
        DiskFrame(1, 0, 2, 1, 2),
    ),
    Row(
        DiskFrame(1, 1, 255, 1, 2),
        PowerOn,
        Read(1, 512),
        Found(1),
        DiskFrame(1, 0, 255, 1, 2),
    ),
];
