// Rows about the log, chip pages 2 to 31 or 34 to 63: which records can be replayed, and which pages are log pages.
use crate::cases::{Case, Found, Marked, Refused};
use crate::frames::{At, BLANK, BYTES, Frame, HELD, TORN};
use crate::trailer_rows::{FORMED, SECOND};
use layout::Area::{One, Two};

pub(super) const REPLAYS: &[Case<'static>] = &[
    // an empty log; one page; the last page; torn ones alone
    Case(12, FORMED, &[], Ok(Found(One, 0, 0, &[]))),
    Case(
        12,
        FORMED,
        &[
            Frame(2, HELD, (3, 1, 0), &[At(0, 2, 0, 3, 258)]),
            Frame(67, HELD, (4, 0, 258), BYTES),
        ],
        Ok(Found(One, 0, 1, &[Marked(3, 2, 258)])),
    ),
    Case(
        12,
        FORMED,
        &[
            Frame(31, HELD, (3, 1, 0), &[At(0, 1, 0, 0, 5)]),
            Frame(64, HELD, (4, 0, 5), BYTES),
        ],
        Ok(Found(One, 0, 30, &[Marked(0, 1, 5)])),
    ),
    Case(
        12,
        FORMED,
        &[Frame(2, TORN, (3, 0, 0), &[])],
        Ok(Found(One, 0, 1, &[])),
    ),
    Case(
        12,
        FORMED,
        &[Frame(31, TORN, (3, 0, 0), &[])],
        Ok(Found(One, 0, 30, &[])),
    ),
    // in area two
    Case(
        12,
        SECOND,
        &[
            Frame(34, HELD, (3, 1, 0), &[At(0, 1, 0, 31, 4294967295)]),
            Frame(63, TORN, (3, 0, 0), &[]),
            Frame(95, HELD, (4, 0, 4294967295), BYTES),
        ],
        Ok(Found(Two, 1, 30, &[Marked(31, 1, 4294967295)])),
    ),
    // pages in order, blank and torn ones before, between and behind them
    Case(
        12,
        FORMED,
        &[
            Frame(2, TORN, (3, 0, 0), &[]),
            Frame(4, HELD, (3, 1, 0), &[At(0, 1, 0, 0, 5)]),
            Frame(5, TORN, (3, 0, 0), &[]),
            Frame(6, TORN, (3, 0, 0), &[]),
            Frame(9, HELD, (3, 1, 0), &[At(0, 2, 0, 1, 5)]),
            Frame(11, TORN, (3, 0, 0), &[]),
            Frame(65, HELD, (4, 0, 5), BYTES),
        ],
        Ok(Found(One, 0, 10, &[Marked(1, 2, 5)])),
    ),
    // a torn page is passed over, whatever its note and bytes
    Case(
        12,
        FORMED,
        &[
            Frame(2, HELD, (3, 1, 0), &[At(0, 1, 0, 0, 5)]),
            Frame(3, TORN, (3, 1, 0), &[At(0, 3, 0, 0, 5)]),
            Frame(4, HELD, (3, 1, 0), &[At(0, 2, 0, 1, 6)]),
            Frame(64, HELD, (4, 0, 5), BYTES),
            Frame(65, HELD, (4, 0, 6), BYTES),
        ],
        Ok(Found(One, 0, 3, &[Marked(0, 1, 5), Marked(1, 2, 6)])),
    ),
    // a blank page likewise
    Case(
        12,
        FORMED,
        &[
            Frame(2, HELD, (3, 1, 0), &[At(0, 1, 0, 0, 5)]),
            Frame(3, BLANK, (3, 1, 0), &[At(0, 3, 0, 0, 5)]),
            Frame(64, HELD, (4, 0, 5), BYTES),
        ],
        Ok(Found(One, 0, 1, &[Marked(0, 1, 5)])),
    ),
    // an unsettled page is old, new or torn after the power cut
    Case(
        12,
        FORMED,
        &[
            Frame(2, (3, 0), (3, 1, 0), &[At(0, 1, 0, 0, 5)]),
            Frame(64, HELD, (4, 0, 5), BYTES),
        ],
        Ok(Found(One, 0, 0, &[])),
    ),
    Case(
        12,
        FORMED,
        &[
            Frame(2, (3, 1), (3, 1, 0), &[At(0, 1, 0, 0, 5)]),
            Frame(64, HELD, (4, 0, 5), BYTES),
        ],
        Ok(Found(One, 0, 1, &[Marked(0, 1, 5)])),
    ),
    Case(
        12,
        FORMED,
        &[
            Frame(2, (3, 2), (3, 1, 0), &[At(0, 1, 0, 0, 5)]),
            Frame(64, HELD, (4, 0, 5), BYTES),
        ],
        Ok(Found(One, 0, 1, &[])),
    ),
    // put clean, put dirty on another page, then drop: empty
    Case(
        12,
        FORMED,
        &[
            Frame(2, HELD, (3, 2, 0), &[At(0, 1, 0, 0, 5), At(1, 2, 0, 1, 5)]),
            Frame(65, HELD, (4, 0, 5), BYTES),
        ],
        Ok(Found(One, 0, 1, &[Marked(1, 2, 5)])),
    ),
    Case(
        12,
        FORMED,
        &[Frame(
            2,
            HELD,
            (3, 3, 0),
            &[At(0, 1, 0, 0, 5), At(1, 2, 0, 1, 5), At(2, 3, 0, 0, 5)],
        )],
        Ok(Found(One, 0, 1, &[])),
    ),
    Case(
        12,
        FORMED,
        &[Frame(
            2,
            HELD,
            (3, 4, 0),
            &[
                At(0, 1, 0, 0, 5),
                At(1, 2, 0, 1, 5),
                At(2, 3, 0, 0, 5),
                At(3, 3, 0, 0, 5),
            ],
        )],
        Err(Refused(11, 2, 2)),
    ),
    // a page that was emptied may be put again, in the same log page or a later one
    Case(
        12,
        FORMED,
        &[
            Frame(
                2,
                HELD,
                (3, 3, 0),
                &[At(0, 1, 0, 0, 5), At(1, 2, 0, 1, 5), At(2, 2, 0, 0, 5)],
            ),
            Frame(64, HELD, (4, 0, 5), BYTES),
        ],
        Ok(Found(One, 0, 1, &[Marked(0, 2, 5)])),
    ),
    Case(
        12,
        FORMED,
        &[
            Frame(2, HELD, (3, 2, 0), &[At(0, 1, 0, 0, 5), At(1, 3, 0, 0, 5)]),
            Frame(3, HELD, (3, 1, 0), &[At(0, 2, 0, 0, 6)]),
            Frame(64, HELD, (4, 0, 6), BYTES),
        ],
        Ok(Found(One, 0, 2, &[Marked(0, 2, 6)])),
    ),
    // marks: dirty becomes clean, clean stays clean; addresses 0 and the largest
    Case(
        12,
        FORMED,
        &[
            Frame(
                2,
                HELD,
                (3, 3, 0),
                &[
                    At(0, 2, 0, 0, 0),
                    At(1, 2, 0, 1, 4294967295),
                    At(2, 4, 0, 0, 0),
                ],
            ),
            Frame(64, HELD, (4, 0, 0), BYTES),
            Frame(65, HELD, (4, 0, 4294967295), BYTES),
        ],
        Ok(Found(One, 0, 1, &[Marked(0, 1, 0), Marked(1, 2, 4294967295)])),
    ),
    Case(
        12,
        FORMED,
        &[
            Frame(
                2,
                HELD,
                (3, 3, 0),
                &[At(0, 1, 0, 4, 9), At(1, 4, 0, 0, 9), At(2, 4, 0, 0, 9)],
            ),
            Frame(68, HELD, (4, 0, 9), BYTES),
        ],
        Ok(Found(One, 0, 1, &[Marked(4, 1, 9)])),
    ),
    // records on entries of the checkpoint
    Case(
        12,
        FORMED,
        &[
            Frame(
                0,
                HELD,
                (1, 0, 0),
                &[At(0, 2, 0, 0, 7), At(1, 1, 0, 0, 8), At(2, 2, 0, 0, 9)],
            ),
            Frame(
                2,
                HELD,
                (3, 3, 0),
                &[At(0, 4, 0, 0, 7), At(1, 3, 0, 0, 8), At(2, 2, 0, 3, 9)],
            ),
            Frame(64, HELD, (4, 0, 7), BYTES),
            Frame(67, HELD, (4, 0, 9), BYTES),
        ],
        Ok(Found(One, 0, 1, &[Marked(0, 1, 7), Marked(3, 2, 9)])),
    ),
    // puts: on a page marked before, by the log or the checkpoint, even with its own address
    Case(
        12,
        FORMED,
        &[
            Frame(2, HELD, (3, 2, 0), &[At(0, 1, 0, 0, 5), At(1, 2, 0, 0, 6)]),
            Frame(64, HELD, (4, 0, 6), BYTES),
        ],
        Err(Refused(11, 2, 2)),
    ),
    Case(
        12,
        FORMED,
        &[
            Frame(2, HELD, (3, 2, 0), &[At(0, 1, 0, 0, 5), At(1, 2, 0, 0, 5)]),
            Frame(64, HELD, (4, 0, 5), BYTES),
        ],
        Err(Refused(11, 2, 2)),
    ),
    Case(
        12,
        FORMED,
        &[
            Frame(0, HELD, (1, 0, 0), &[At(31, 1, 0, 0, 5)]),
            Frame(2, HELD, (3, 1, 0), &[At(0, 1, 0, 31, 5)]),
            Frame(95, HELD, (4, 0, 5), BYTES),
        ],
        Err(Refused(11, 2, 2)),
    ),
    Case(
        12,
        FORMED,
        &[
            Frame(2, HELD, (3, 1, 0), &[At(0, 1, 0, 0, 5)]),
            Frame(5, HELD, (3, 1, 0), &[At(0, 1, 0, 0, 6)]),
            Frame(64, HELD, (4, 0, 6), BYTES),
        ],
        Err(Refused(11, 2, 5)),
    ),
    // puts: the last data page, the first that is not there, the largest number
    Case(
        12,
        FORMED,
        &[
            Frame(2, HELD, (3, 1, 0), &[At(0, 1, 0, 31, 5)]),
            Frame(95, HELD, (4, 0, 5), BYTES),
        ],
        Ok(Found(One, 0, 1, &[Marked(31, 1, 5)])),
    ),
    Case(
        12,
        FORMED,
        &[Frame(2, HELD, (3, 1, 0), &[At(0, 1, 0, 32, 5)])],
        Err(Refused(11, 2, 2)),
    ),
    Case(
        12,
        FORMED,
        &[Frame(2, HELD, (3, 1, 0), &[At(0, 2, 0, 65535, 5)])],
        Err(Refused(11, 2, 2)),
    ),
    // drops and marks of an address that is not held; address 0 is not held by an empty page
    Case(
        12,
        FORMED,
        &[Frame(2, HELD, (3, 1, 0), &[At(0, 3, 0, 0, 5)])],
        Err(Refused(11, 2, 2)),
    ),
    Case(
        12,
        FORMED,
        &[Frame(2, HELD, (3, 1, 0), &[At(0, 4, 0, 0, 5)])],
        Err(Refused(11, 2, 2)),
    ),
    Case(
        12,
        FORMED,
        &[Frame(2, HELD, (3, 1, 0), &[At(0, 3, 0, 0, 0)])],
        Err(Refused(11, 2, 2)),
    ),
    Case(
        12,
        FORMED,
        &[Frame(2, HELD, (3, 1, 0), &[At(0, 4, 0, 0, 0)])],
        Err(Refused(11, 2, 2)),
    ),
    Case(
        12,
        FORMED,
        &[Frame(2, HELD, (3, 2, 0), &[At(0, 2, 0, 0, 5), At(1, 4, 0, 0, 6)])],
        Err(Refused(11, 2, 2)),
    ),
    Case(
        12,
        FORMED,
        &[Frame(31, HELD, (3, 1, 0), &[At(0, 3, 0, 0, 4294967295)])],
        Err(Refused(11, 2, 31)),
    ),
    Case(
        12,
        SECOND,
        &[Frame(34, HELD, (3, 1, 0), &[At(0, 3, 0, 0, 5)])],
        Err(Refused(11, 2, 34)),
    ),
    Case(
        12,
        SECOND,
        &[Frame(63, HELD, (3, 1, 0), &[At(0, 4, 0, 0, 5)])],
        Err(Refused(11, 2, 63)),
    ),
];

pub(super) const LOGS: &[Case<'static>] = &[
    // another kind
    Case(
        12,
        FORMED,
        &[
            Frame(2, HELD, (0, 1, 0), &[At(0, 1, 0, 0, 5)]),
            Frame(64, HELD, (4, 0, 5), BYTES),
        ],
        Err(Refused(11, 2, 2)),
    ),
    Case(
        12,
        FORMED,
        &[
            Frame(2, HELD, (1, 1, 0), &[At(0, 1, 0, 0, 5)]),
            Frame(64, HELD, (4, 0, 5), BYTES),
        ],
        Err(Refused(11, 2, 2)),
    ),
    Case(
        12,
        FORMED,
        &[
            Frame(2, HELD, (2, 1, 0), &[At(0, 1, 0, 0, 5)]),
            Frame(64, HELD, (4, 0, 5), BYTES),
        ],
        Err(Refused(11, 2, 2)),
    ),
    Case(
        12,
        FORMED,
        &[
            Frame(2, HELD, (4, 1, 0), &[At(0, 1, 0, 0, 5)]),
            Frame(64, HELD, (4, 0, 5), BYTES),
        ],
        Err(Refused(11, 2, 2)),
    ),
    Case(
        12,
        FORMED,
        &[
            Frame(2, HELD, (255, 1, 0), &[At(0, 1, 0, 0, 5)]),
            Frame(64, HELD, (4, 0, 5), BYTES),
        ],
        Err(Refused(11, 2, 2)),
    ),
    // count 0, 65 and 255; an address in the note
    Case(
        12,
        FORMED,
        &[Frame(2, HELD, (3, 0, 0), &[])],
        Err(Refused(11, 2, 2)),
    ),
    Case(
        12,
        FORMED,
        &[
            Frame(2, HELD, (3, 65, 0), &[At(0, 1, 0, 0, 5)]),
            Frame(64, HELD, (4, 0, 5), BYTES),
        ],
        Err(Refused(11, 2, 2)),
    ),
    Case(
        12,
        FORMED,
        &[
            Frame(2, HELD, (3, 255, 0), &[At(0, 1, 0, 0, 5)]),
            Frame(64, HELD, (4, 0, 5), BYTES),
        ],
        Err(Refused(11, 2, 2)),
    ),
    Case(
        12,
        FORMED,
        &[
            Frame(2, HELD, (3, 1, 1), &[At(0, 1, 0, 0, 5)]),
            Frame(64, HELD, (4, 0, 5), BYTES),
        ],
        Err(Refused(11, 2, 2)),
    ),
    // fewer or more records than the count says
    Case(
        12,
        FORMED,
        &[
            Frame(2, HELD, (3, 1, 0), &[At(0, 1, 0, 0, 5), At(1, 1, 0, 1, 6)]),
            Frame(64, HELD, (4, 0, 5), BYTES),
            Frame(65, HELD, (4, 0, 6), BYTES),
        ],
        Err(Refused(11, 2, 2)),
    ),
    Case(
        12,
        FORMED,
        &[
            Frame(2, HELD, (3, 2, 0), &[At(0, 1, 0, 0, 5)]),
            Frame(64, HELD, (4, 0, 5), BYTES),
        ],
        Err(Refused(11, 2, 2)),
    ),
    // a byte that is not zero after the records: the next, the last
    Case(
        12,
        FORMED,
        &[
            Frame(2, HELD, (3, 1, 0), &[At(0, 1, 0, 0, 5), At(1, 0, 1, 0, 0)]),
            Frame(64, HELD, (4, 0, 5), BYTES),
        ],
        Err(Refused(11, 2, 2)),
    ),
    Case(
        12,
        FORMED,
        &[
            Frame(2, HELD, (3, 1, 0), &[At(0, 1, 0, 0, 5), At(63, 0, 0, 0, 1)]),
            Frame(64, HELD, (4, 0, 5), BYTES),
        ],
        Err(Refused(11, 2, 2)),
    ),
    // records of kind 0, 5 and 255
    Case(
        12,
        FORMED,
        &[Frame(2, HELD, (3, 1, 0), &[At(0, 0, 0, 0, 5)])],
        Err(Refused(11, 2, 2)),
    ),
    Case(
        12,
        FORMED,
        &[Frame(2, HELD, (3, 2, 0), &[At(0, 1, 0, 0, 5), At(1, 5, 0, 0, 5)])],
        Err(Refused(11, 2, 2)),
    ),
    Case(
        12,
        FORMED,
        &[Frame(2, HELD, (3, 1, 0), &[At(0, 255, 0, 0, 5)])],
        Err(Refused(11, 2, 2)),
    ),
    // a second byte that is not zero, in each kind of record
    Case(
        12,
        FORMED,
        &[
            Frame(2, HELD, (3, 1, 0), &[At(0, 1, 1, 0, 5)]),
            Frame(64, HELD, (4, 0, 5), BYTES),
        ],
        Err(Refused(11, 2, 2)),
    ),
    Case(
        12,
        FORMED,
        &[
            Frame(2, HELD, (3, 1, 0), &[At(0, 2, 128, 0, 5)]),
            Frame(64, HELD, (4, 0, 5), BYTES),
        ],
        Err(Refused(11, 2, 2)),
    ),
    Case(
        12,
        FORMED,
        &[Frame(2, HELD, (3, 2, 0), &[At(0, 1, 0, 0, 5), At(1, 3, 1, 0, 5)])],
        Err(Refused(11, 2, 2)),
    ),
    Case(
        12,
        FORMED,
        &[
            Frame(2, HELD, (3, 2, 0), &[At(0, 1, 0, 0, 5), At(1, 4, 1, 0, 5)]),
            Frame(64, HELD, (4, 0, 5), BYTES),
        ],
        Err(Refused(11, 2, 2)),
    ),
    // a data page in a drop or a mark
    Case(
        12,
        FORMED,
        &[Frame(2, HELD, (3, 2, 0), &[At(0, 1, 0, 1, 5), At(1, 3, 0, 1, 5)])],
        Err(Refused(11, 2, 2)),
    ),
    Case(
        12,
        FORMED,
        &[
            Frame(2, HELD, (3, 2, 0), &[At(0, 1, 0, 1, 5), At(1, 4, 0, 1, 5)]),
            Frame(65, HELD, (4, 0, 5), BYTES),
        ],
        Err(Refused(11, 2, 2)),
    ),
    Case(
        12,
        FORMED,
        &[
            Frame(
                2,
                HELD,
                (3, 2, 0),
                &[At(0, 1, 0, 1, 5), At(1, 4, 0, 256, 5)],
            ),
            Frame(65, HELD, (4, 0, 5), BYTES),
        ],
        Err(Refused(11, 2, 2)),
    ),
    // the page where it is met, behind a good one and a torn one; the first of two
    Case(
        12,
        FORMED,
        &[
            Frame(2, HELD, (3, 1, 0), &[At(0, 1, 0, 0, 5)]),
            Frame(3, TORN, (3, 0, 0), &[]),
            Frame(4, HELD, (3, 1, 0), &[At(0, 9, 0, 0, 0)]),
            Frame(5, HELD, (3, 1, 0), &[At(0, 9, 0, 0, 0)]),
            Frame(64, HELD, (4, 0, 5), BYTES),
        ],
        Err(Refused(11, 2, 4)),
    ),
    Case(
        12,
        FORMED,
        &[Frame(31, HELD, (4, 0, 5), &[])],
        Err(Refused(11, 2, 31)),
    ),
    Case(
        12,
        SECOND,
        &[Frame(34, HELD, (1, 0, 0), &[])],
        Err(Refused(11, 2, 34)),
    ),
    Case(
        12,
        SECOND,
        &[Frame(63, HELD, (2, 1, 1), &[])],
        Err(Refused(11, 2, 63)),
    ),
    // the log comes before the data pages
    Case(
        12,
        FORMED,
        &[
            Frame(0, HELD, (1, 0, 0), &[At(0, 1, 0, 0, 5)]),
            Frame(31, HELD, (3, 1, 0), &[At(0, 3, 0, 0, 6)]),
        ],
        Err(Refused(11, 2, 31)),
    ),
];
