// Cases of an image chip with fuses: which calls count, where power fails, and what that leaves.
use crate::calls::Answer::{Done, Found, Refused};
use crate::calls::Step;
use crate::cases::Case;
use crate::chip_calls::Call::{Erase, PowerOn, Program, Read, Sync};
use crate::chip_cases::{ChipCase, Frame};

// Power fails in the call that finds its fuse spent, if that call would be served, and never without a fuse. Each power-on
// takes the next fuse.
pub(super) const FUSES: &[ChipCase<'static>] = &[
    Case {
        fuses: &[],
        before: &[],
        steps: &[
            Step(PowerOn, Done),
            Step(Program(0, 512, 1), Done),
            Step(Sync, Done),
            Step(Erase(0), Done),
            Step(Sync, Done),
            Step(Sync, Done),
        ],
        after: &[Frame(0, 0, 0, 1)],
    },
    // a sync that loses power settles nothing, and the chip is off until the next power-on, which has no fuse
    Case {
        fuses: &[1],
        before: &[Frame(3, 0, 0, 4)],
        steps: &[
            Step(PowerOn, Done),
            Step(Program(3, 512, 1), Done),
            Step(Sync, Refused(1, 1, 0)),
            Step(Sync, Refused(1, 1, 0)),
            Step(Read(3, 512), Refused(1, 1, 3)),
            Step(Program(4, 512, 1), Refused(1, 1, 4)),
            Step(Erase(1), Refused(1, 1, 1)),
        ],
        after: &[Frame(3, 3, 0, 1)],
    },
    Case {
        fuses: &[1],
        before: &[Frame(3, 0, 2, 4)],
        steps: &[
            Step(PowerOn, Done),
            Step(Program(3, 512, 1), Done),
            Step(Sync, Refused(1, 1, 0)),
            Step(PowerOn, Done),
            Step(Read(3, 512), Refused(6, 1, 3)),
            Step(Sync, Done),
            Step(Sync, Done),
        ],
        after: &[Frame(3, 2, 2, 1)],
    },
    // a program and an erase that lose power change nothing
    Case {
        fuses: &[0],
        before: &[],
        steps: &[
            Step(PowerOn, Done),
            Step(Program(15, 512, 9), Refused(1, 1, 15)),
            Step(Read(15, 512), Refused(1, 1, 15)),
        ],
        after: &[],
    },
    Case {
        fuses: &[0],
        before: &[Frame(8, 1, 2, 1), Frame(9, 2, 1, 1)],
        steps: &[
            Step(PowerOn, Done),
            Step(Erase(1), Refused(1, 1, 1)),
            Step(PowerOn, Done),
            Step(Read(8, 512), Found(1)),
            Step(Read(9, 512), Refused(6, 1, 9)),
        ],
        after: &[],
    },
    // with its fuse spent, a call that is refused anyway answers its refusal, and a read is served
    Case {
        fuses: &[1],
        before: &[Frame(8, 1, 0, 1)],
        steps: &[
            Step(PowerOn, Done),
            Step(Program(15, 512, 2), Done),
            Step(Program(0, 511, 2), Refused(2, 1, 0)),
            Step(Program(16, 512, 2), Refused(3, 1, 16)),
            Step(Program(15, 512, 2), Refused(4, 1, 15)),
            Step(Program(8, 512, 2), Refused(5, 1, 8)),
            Step(Erase(2), Refused(3, 1, 2)),
            Step(Erase(1), Refused(4, 1, 1)),
            Step(Read(16, 512), Refused(3, 1, 16)),
            Step(Read(8, 512), Found(1)),
            Step(Erase(0), Refused(1, 1, 0)),
        ],
        after: &[Frame(15, 3, 0, 2)],
    },
    // refused calls and reads do not count; programs, erases and syncs do
    Case {
        fuses: &[3],
        before: &[],
        steps: &[
            Step(PowerOn, Done),
            Step(Read(0, 512), Refused(7, 1, 0)),
            Step(Program(0, 513, 1), Refused(2, 1, 0)),
            Step(Program(0, 512, 1), Done),
            Step(Read(0, 512), Found(1)),
            Step(Program(0, 512, 1), Refused(4, 1, 0)),
            Step(Erase(0), Refused(4, 1, 0)),
            Step(Erase(1), Done),
            Step(Read(0, 512), Found(1)),
            Step(Sync, Done),
            Step(Sync, Refused(1, 1, 0)),
        ],
        after: &[Frame(0, 1, 0, 1)],
    },
    // the second and third power-on have their own fuses, the fourth has none
    Case {
        fuses: &[2, 0, 1],
        before: &[],
        steps: &[
            Step(PowerOn, Done),
            Step(Sync, Done),
            Step(Sync, Done),
            Step(Sync, Refused(1, 1, 0)),
            Step(PowerOn, Done),
            Step(Sync, Refused(1, 1, 0)),
            Step(PowerOn, Done),
            Step(Sync, Done),
            Step(Program(5, 512, 1), Refused(1, 1, 5)),
            Step(PowerOn, Done),
            Step(Sync, Done),
            Step(Sync, Done),
            Step(Sync, Done),
        ],
        after: &[],
    },
    // a power-on takes the next fuse, though the last is not spent
    Case {
        fuses: &[5, 0],
        before: &[],
        steps: &[
            Step(PowerOn, Done),
            Step(Sync, Done),
            Step(PowerOn, Done),
            Step(Erase(0), Refused(1, 1, 0)),
        ],
        after: &[],
    },
    // all of eight fuses serve, and the largest number does
    Case {
        fuses: &[9, 9, 9, 9, 9, 9, 4294967295, 1],
        before: &[],
        steps: &[
            Step(PowerOn, Done),
            Step(PowerOn, Done),
            Step(PowerOn, Done),
            Step(PowerOn, Done),
            Step(PowerOn, Done),
            Step(PowerOn, Done),
            Step(PowerOn, Done),
            Step(Sync, Done),
            Step(PowerOn, Done),
            Step(Sync, Done),
            Step(Sync, Refused(1, 1, 0)),
            Step(PowerOn, Done),
            Step(Sync, Done),
            Step(Sync, Done),
        ],
        after: &[],
    },
];
