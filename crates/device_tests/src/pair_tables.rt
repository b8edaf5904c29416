// Tables of a pair: where its two chips meet, how many erase blocks it may have, and power failing in either chip.
use crate::calls::Answer::{Counted, Done, Found, Refused};
use crate::calls::Step;
use crate::cases::Case;
use crate::chip_calls::Call::{Blocks, Erase, PowerOn, Program, Read, Sync};
use crate::chip_cases::Frame;
use crate::pair_cases::{Joined, PairCase};

// Up to 64 erase blocks; places run on where the chips meet.
pub(super) const SEAMS: &[Joined] = &[
    // the last page of the first chip is 7, and 24 is the first page that is not there
    Joined(
        1,
        2,
        Counted(3),
        &[
            Step(PowerOn, Done),
            Step(Program(7, 512, 1), Done),
            Step(Program(8, 512, 2), Done),
            Step(Program(23, 512, 3), Done),
            Step(Program(24, 512, 4), Refused(3, 1, 24)),
            Step(Program(8, 512, 4), Refused(4, 1, 8)),
            Step(Read(7, 512), Found(1)),
            Step(Read(8, 512), Found(2)),
            Step(Read(23, 512), Found(3)),
            Step(Read(24, 512), Refused(3, 1, 24)),
            Step(Erase(0), Refused(4, 1, 0)),
            Step(Erase(1), Refused(4, 1, 1)),
            Step(Erase(3), Refused(3, 1, 3)),
            Step(Sync, Done),
            Step(Program(8, 512, 4), Refused(5, 1, 8)),
            Step(Erase(1), Done),
            Step(Read(7, 512), Found(1)),
            Step(Read(8, 512), Refused(7, 1, 8)),
            Step(Erase(0), Done),
            Step(Read(7, 512), Refused(7, 1, 7)),
        ],
    ),
    // the last page of the first chip is 15, and 24 is the first page that is not there
    Joined(
        2,
        1,
        Counted(3),
        &[
            Step(PowerOn, Done),
            Step(Program(15, 512, 1), Done),
            Step(Program(16, 512, 2), Done),
            Step(Program(23, 512, 3), Done),
            Step(Program(24, 512, 4), Refused(3, 1, 24)),
            Step(Program(16, 512, 4), Refused(4, 1, 16)),
            Step(Read(15, 512), Found(1)),
            Step(Read(16, 512), Found(2)),
            Step(Read(23, 512), Found(3)),
            Step(Read(24, 512), Refused(3, 1, 24)),
            Step(Erase(1), Refused(4, 1, 1)),
            Step(Erase(2), Refused(4, 1, 2)),
            Step(Erase(3), Refused(3, 1, 3)),
            Step(Sync, Done),
            Step(Program(16, 512, 4), Refused(5, 1, 16)),
            Step(Erase(2), Done),
            Step(Read(15, 512), Found(1)),
            Step(Read(16, 512), Refused(7, 1, 16)),
            Step(Erase(1), Done),
            Step(Read(15, 512), Refused(7, 1, 15)),
        ],
    ),
    // the last page of the first chip is 503, and 512 is the first page that is not there
    Joined(
        63,
        1,
        Counted(64),
        &[
            Step(PowerOn, Done),
            Step(Program(503, 512, 1), Done),
            Step(Program(504, 512, 2), Done),
            Step(Program(511, 512, 3), Done),
            Step(Program(512, 512, 4), Refused(3, 1, 512)),
            Step(Program(504, 512, 4), Refused(4, 1, 504)),
            Step(Read(503, 512), Found(1)),
            Step(Read(504, 512), Found(2)),
            Step(Read(511, 512), Found(3)),
            Step(Read(512, 512), Refused(3, 1, 512)),
            Step(Erase(62), Refused(4, 1, 62)),
            Step(Erase(63), Refused(4, 1, 63)),
            Step(Erase(64), Refused(3, 1, 64)),
            Step(Sync, Done),
            Step(Program(504, 512, 4), Refused(5, 1, 504)),
            Step(Erase(63), Done),
            Step(Read(503, 512), Found(1)),
            Step(Read(504, 512), Refused(7, 1, 504)),
            Step(Erase(62), Done),
            Step(Read(503, 512), Refused(7, 1, 503)),
        ],
    ),
    Joined(1, 63, Counted(64), &[]),
    Joined(32, 32, Counted(64), &[]),
    Joined(64, 1, Refused(12, 1, 0), &[]),
    Joined(1, 64, Refused(12, 1, 0), &[]),
    Joined(33, 32, Refused(12, 1, 0), &[]),
    Joined(64, 64, Refused(12, 1, 0), &[]),
];

// Power failing in a program, an erase or a sync of either chip: the pair is off as a whole, and names its own place.
pub(super) const POWER_FAILURES: &[PairCase<'static>] = &[
    PairCase(
        &[],
        Case {
            fuses: &[0],
            before: &[],
            steps: &[
                Step(PowerOn, Done),
                Step(Program(8, 512, 2), Done),
                Step(Program(7, 512, 1), Refused(1, 1, 7)),
                Step(Read(8, 512), Refused(1, 1, 8)),
                Step(Program(9, 512, 2), Refused(1, 1, 9)),
                Step(Erase(1), Refused(1, 1, 1)),
                Step(Blocks, Counted(2)),
            ],
            after: &[Frame(8, 3, 0, 2)],
        },
    ),
    PairCase(
        &[0],
        Case {
            fuses: &[],
            before: &[],
            steps: &[
                Step(PowerOn, Done),
                Step(Program(7, 512, 1), Done),
                Step(Program(8, 512, 2), Refused(1, 1, 8)),
                Step(Read(7, 512), Refused(1, 1, 7)),
                Step(Program(6, 512, 1), Refused(1, 1, 6)),
                Step(Sync, Refused(1, 1, 0)),
            ],
            after: &[Frame(7, 3, 0, 1)],
        },
    ),
    PairCase(
        &[],
        Case {
            fuses: &[0],
            before: &[Frame(7, 1, 0, 3), Frame(8, 1, 0, 4)],
            steps: &[
                Step(PowerOn, Done),
                Step(Erase(1), Done),
                Step(Erase(0), Refused(1, 1, 0)),
                Step(Erase(1), Refused(1, 1, 1)),
            ],
            after: &[Frame(8, 4, 0, 4)],
        },
    ),
    PairCase(
        &[0],
        Case {
            fuses: &[],
            before: &[Frame(7, 1, 0, 3), Frame(8, 1, 0, 4)],
            steps: &[
                Step(PowerOn, Done),
                Step(Erase(0), Done),
                Step(Erase(1), Refused(1, 1, 1)),
                Step(Erase(0), Refused(1, 1, 0)),
            ],
            after: &[Frame(7, 4, 0, 3)],
        },
    ),
    // with the second chip's fuse spent, what would be refused is refused for its own reason
    PairCase(
        &[0],
        Case {
            fuses: &[],
            before: &[Frame(8, 1, 0, 3)],
            steps: &[
                Step(PowerOn, Done),
                Step(Program(8, 512, 2), Refused(5, 1, 8)),
                Step(Program(15, 511, 2), Refused(2, 1, 15)),
                Step(Program(16, 512, 2), Refused(3, 1, 16)),
                Step(Erase(2), Refused(3, 1, 2)),
                Step(Read(8, 512), Found(3)),
                Step(Read(15, 512), Refused(7, 1, 15)),
                Step(Program(15, 512, 2), Refused(1, 1, 15)),
            ],
            after: &[],
        },
    ),
    // a sync, in the first chip: the second is not reached
    PairCase(
        &[],
        Case {
            fuses: &[1],
            before: &[],
            steps: &[
                Step(PowerOn, Done),
                Step(Program(7, 512, 1), Done),
                Step(Program(8, 512, 2), Done),
                Step(Sync, Refused(1, 1, 0)),
                Step(Sync, Refused(1, 1, 0)),
            ],
            after: &[Frame(7, 3, 0, 1), Frame(8, 3, 0, 2)],
        },
    ),
    // a sync, in the second chip: the first has settled its pages
    PairCase(
        &[1],
        Case {
            fuses: &[],
            before: &[],
            steps: &[
                Step(PowerOn, Done),
                Step(Program(7, 512, 1), Done),
                Step(Program(8, 512, 2), Done),
                Step(Sync, Refused(1, 1, 0)),
                Step(Read(7, 512), Refused(1, 1, 7)),
            ],
            after: &[Frame(7, 1, 0, 1), Frame(8, 3, 0, 2)],
        },
    ),
    // the next power-on cuts the power of both
    PairCase(
        &[0],
        Case {
            fuses: &[],
            before: &[Frame(6, 0, 1, 9), Frame(7, 0, 2, 9), Frame(8, 0, 1, 9)],
            steps: &[
                Step(PowerOn, Done),
                Step(Program(6, 512, 1), Done),
                Step(Program(7, 512, 1), Done),
                Step(Program(8, 512, 2), Refused(1, 1, 8)),
                Step(PowerOn, Done),
                Step(Read(6, 512), Found(1)),
                Step(Read(7, 512), Refused(6, 1, 7)),
                Step(Read(8, 512), Refused(7, 1, 8)),
                Step(Program(8, 512, 2), Done),
                Step(Sync, Done),
            ],
            after: &[Frame(6, 1, 1, 1), Frame(7, 2, 2, 1), Frame(8, 1, 1, 2)],
        },
    ),
    // a sync counts in both chips, a program only in its own; each chip takes its own next fuse
    PairCase(
        &[2, 0],
        Case {
            fuses: &[1, 1],
            before: &[],
            steps: &[
                Step(PowerOn, Done),
                Step(Sync, Done),
                Step(Program(8, 512, 2), Done),
                Step(Program(7, 512, 1), Refused(1, 1, 7)),
                Step(PowerOn, Done),
                Step(Program(7, 512, 1), Done),
                Step(Program(9, 512, 2), Refused(1, 1, 9)),
                Step(PowerOn, Done),
                Step(Sync, Done),
                Step(Sync, Done),
            ],
            after: &[Frame(7, 0, 0, 1), Frame(8, 0, 0, 2)],
        },
    ),
];
