// Rows about entry pages: each that is not in order is met at its chip page, 0 or 32.
use crate::cases::{Case, Found, Marked, Refused};
use crate::frames::{At, BLANK, BYTES, Frame, HELD, TORN};
use crate::trailer_rows::{FORMED, SECOND};
use layout::Area::{One, Two};

pub(super) const ENTRIES: &[Case<'static>] = &[
    // blank, torn
    Case(
        12,
        FORMED,
        &[Frame(0, BLANK, (1, 0, 0), &[])],
        Err(Refused(11, 2, 0)),
    ),
    Case(
        12,
        FORMED,
        &[Frame(0, TORN, (1, 0, 0), &[])],
        Err(Refused(11, 2, 0)),
    ),
    // another kind, count or address in the note
    Case(
        12,
        FORMED,
        &[Frame(0, HELD, (0, 0, 0), &[])],
        Err(Refused(11, 2, 0)),
    ),
    Case(
        12,
        FORMED,
        &[Frame(0, HELD, (2, 0, 0), &[])],
        Err(Refused(11, 2, 0)),
    ),
    Case(
        12,
        FORMED,
        &[Frame(0, HELD, (3, 1, 0), &[])],
        Err(Refused(11, 2, 0)),
    ),
    Case(
        12,
        FORMED,
        &[Frame(0, HELD, (1, 1, 0), &[])],
        Err(Refused(11, 2, 0)),
    ),
    Case(
        12,
        FORMED,
        &[Frame(0, HELD, (1, 0, 1), &[])],
        Err(Refused(11, 2, 0)),
    ),
    Case(
        12,
        FORMED,
        &[Frame(0, HELD, (1, 0, 0x0100_0000), &[])],
        Err(Refused(11, 2, 0)),
    ),
    // marks 3 and 255
    Case(
        12,
        FORMED,
        &[Frame(0, HELD, (1, 0, 0), &[At(0, 3, 0, 0, 0)])],
        Err(Refused(11, 2, 0)),
    ),
    Case(
        12,
        FORMED,
        &[Frame(0, HELD, (1, 0, 0), &[At(31, 255, 0, 0, 5)])],
        Err(Refused(11, 2, 0)),
    ),
    // an empty entry with an address
    Case(
        12,
        FORMED,
        &[Frame(0, HELD, (1, 0, 0), &[At(0, 0, 0, 0, 1)])],
        Err(Refused(11, 2, 0)),
    ),
    Case(
        12,
        FORMED,
        &[Frame(0, HELD, (1, 0, 0), &[At(31, 0, 0, 0, 4294967295)])],
        Err(Refused(11, 2, 0)),
    ),
    // a byte that is not zero behind the mark, each of three
    Case(
        12,
        FORMED,
        &[
            Frame(0, HELD, (1, 0, 0), &[At(5, 1, 1, 0, 7)]),
            Frame(69, HELD, (4, 0, 7), BYTES),
        ],
        Err(Refused(11, 2, 0)),
    ),
    Case(
        12,
        FORMED,
        &[
            Frame(0, HELD, (1, 0, 0), &[At(5, 1, 0, 256, 7)]),
            Frame(69, HELD, (4, 0, 7), BYTES),
        ],
        Err(Refused(11, 2, 0)),
    ),
    Case(
        12,
        FORMED,
        &[
            Frame(0, HELD, (1, 0, 0), &[At(5, 1, 0, 1, 7)]),
            Frame(69, HELD, (4, 0, 7), BYTES),
        ],
        Err(Refused(11, 2, 0)),
    ),
    // behind the last data page: an entry, a byte, the last byte
    Case(
        12,
        FORMED,
        &[Frame(0, HELD, (1, 0, 0), &[At(32, 1, 0, 0, 7)])],
        Err(Refused(11, 2, 0)),
    ),
    Case(
        12,
        FORMED,
        &[Frame(0, HELD, (1, 0, 0), &[At(32, 0, 0, 0, 1)])],
        Err(Refused(11, 2, 0)),
    ),
    Case(
        12,
        FORMED,
        &[Frame(0, HELD, (1, 0, 0), &[At(63, 0, 0, 0, 1)])],
        Err(Refused(11, 2, 0)),
    ),
    // an address twice, with equal marks and with others; address 0 too
    Case(
        12,
        FORMED,
        &[
            Frame(0, HELD, (1, 0, 0), &[At(0, 1, 0, 0, 7), At(1, 1, 0, 0, 7)]),
            Frame(64, HELD, (4, 0, 7), BYTES),
            Frame(65, HELD, (4, 0, 7), BYTES),
        ],
        Err(Refused(11, 2, 0)),
    ),
    Case(
        12,
        FORMED,
        &[
            Frame(0, HELD, (1, 0, 0), &[At(0, 2, 0, 0, 7), At(31, 1, 0, 0, 7)]),
            Frame(64, HELD, (4, 0, 7), BYTES),
            Frame(95, HELD, (4, 0, 7), BYTES),
        ],
        Err(Refused(11, 2, 0)),
    ),
    Case(
        12,
        FORMED,
        &[
            Frame(0, HELD, (1, 0, 0), &[At(3, 2, 0, 0, 0), At(4, 2, 0, 0, 0)]),
            Frame(67, HELD, (4, 0, 0), BYTES),
            Frame(68, HELD, (4, 0, 0), BYTES),
        ],
        Err(Refused(11, 2, 0)),
    ),
    // in area two the page is 32
    Case(
        12,
        SECOND,
        &[Frame(32, TORN, (1, 0, 0), &[])],
        Err(Refused(11, 2, 32)),
    ),
    Case(
        12,
        SECOND,
        &[Frame(32, HELD, (1, 0, 0), &[At(0, 1, 0, 0, 7), At(1, 1, 0, 0, 7)])],
        Err(Refused(11, 2, 32)),
    ),
    // an entry page comes before the log and the data pages
    Case(
        12,
        FORMED,
        &[
            Frame(0, HELD, (1, 0, 0), &[At(0, 3, 0, 0, 0), At(1, 1, 0, 0, 7)]),
            Frame(2, HELD, (9, 0, 0), &[]),
        ],
        Err(Refused(11, 2, 0)),
    ),
    // in order: the first and the last data page, the smallest and the largest address
    Case(
        12,
        FORMED,
        &[
            Frame(
                0,
                HELD,
                (1, 0, 0),
                &[At(0, 1, 0, 0, 0), At(31, 2, 0, 0, 4294967295)],
            ),
            Frame(64, HELD, (4, 0, 0), BYTES),
            Frame(95, HELD, (4, 0, 4294967295), BYTES),
        ],
        Ok(Found(One, 0, 0, &[Marked(0, 1, 0), Marked(31, 2, 4294967295)])),
    ),
    // address 0 is held by a marked page only
    Case(
        12,
        FORMED,
        &[
            Frame(0, HELD, (1, 0, 0), &[At(9, 2, 0, 0, 0)]),
            Frame(73, HELD, (4, 0, 0), BYTES),
        ],
        Ok(Found(One, 0, 0, &[Marked(9, 2, 0)])),
    ),
    // addresses that differ in one byte each
    Case(
        12,
        FORMED,
        &[
            Frame(
                0,
                HELD,
                (1, 0, 0),
                &[
                    At(0, 1, 0, 0, 0x0100_0000),
                    At(1, 2, 0, 0, 0x0001_0000),
                    At(2, 1, 0, 0, 256),
                    At(3, 2, 0, 0, 1),
                ],
            ),
            Frame(64, HELD, (4, 0, 0x0100_0000), BYTES),
            Frame(65, HELD, (4, 0, 0x0001_0000), BYTES),
            Frame(66, HELD, (4, 0, 256), BYTES),
            Frame(67, HELD, (4, 0, 1), BYTES),
        ],
        Ok(Found(
            One,
            0,
            0,
            &[
                Marked(0, 1, 0x0100_0000),
                Marked(1, 2, 0x0001_0000),
                Marked(2, 1, 256),
                Marked(3, 2, 1),
            ],
        )),
    ),
    Case(
        12,
        SECOND,
        &[
            Frame(32, HELD, (1, 0, 0), &[At(3, 2, 0, 0, 258)]),
            Frame(67, HELD, (4, 0, 258), BYTES),
        ],
        Ok(Found(Two, 1, 0, &[Marked(3, 2, 258)])),
    ),
];
