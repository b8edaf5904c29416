// Rows about chips of other sizes: 12 to 64 erase blocks serve. The largest has 448 data pages, its entry pages at 0 to 6 and 32
// to 38, its trailers at 7 and 39, and 24 log pages behind each.
use crate::cases::{Case, Found, Marked, Off, Refused};
use crate::frames::{At, BLANK, BYTES, Frame, HELD, TORN};
use layout::Area::{One, Two};

// The checkpoint of an empty table on the largest chip, in area one with number 2.
const LARGE: &[Frame<'static>] = &[
    Frame(0, HELD, (1, 0, 0), &[]),
    Frame(1, HELD, (1, 1, 0), &[]),
    Frame(2, HELD, (1, 2, 0), &[]),
    Frame(3, HELD, (1, 3, 0), &[]),
    Frame(4, HELD, (1, 4, 0), &[]),
    Frame(5, HELD, (1, 5, 0), &[]),
    Frame(6, HELD, (1, 6, 0), &[]),
    Frame(
        7,
        HELD,
        (2, 7, 2),
        &[At(0, 0x46, 0x54, 0x4350, 0x0000_01c0)],
    ),
];

pub(super) const SIZES: &[Case<'static>] = &[
    // too few erase blocks, whatever the chip holds
    Case(1, &[], &[], Err(Refused(12, 2, 0))),
    Case(8, &[], &[], Err(Refused(12, 2, 0))),
    Case(11, &[], &[], Err(Refused(12, 2, 0))),
    Case(
        11,
        &[
            Frame(0, HELD, (1, 0, 0), &[]),
            Frame(
                1,
                HELD,
                (2, 1, 0),
                &[At(0, 0x46, 0x54, 0x4350, 0x0000_0018)],
            ),
        ],
        &[],
        Err(Refused(12, 2, 0)),
    ),
    // too many are no image chip
    Case(65, &[], &[], Err(Refused(2, 1, 0))),
    // the smallest chip, and those where another entry page begins
    Case(
        12,
        &[
            Frame(32, HELD, (1, 0, 0), &[]),
            Frame(
                33,
                HELD,
                (2, 1, 0),
                &[At(0, 0x46, 0x54, 0x4350, 0x0020_0020)],
            ),
        ],
        &[],
        Ok(Found(Two, 0, 0, &[])),
    ),
    Case(
        16,
        &[
            Frame(0, HELD, (1, 0, 0), &[]),
            Frame(
                1,
                HELD,
                (2, 1, 1),
                &[At(0, 0x46, 0x54, 0x4350, 0x0000_0040)],
            ),
        ],
        &[
            Frame(0, HELD, (1, 0, 0), &[At(63, 1, 0, 0, 9)]),
            Frame(127, HELD, (4, 0, 9), BYTES),
            Frame(31, TORN, (0, 0, 0), &[]),
        ],
        Ok(Found(One, 1, 30, &[Marked(63, 1, 9)])),
    ),
    Case(
        17,
        &[
            Frame(0, HELD, (1, 0, 0), &[]),
            Frame(1, HELD, (1, 1, 0), &[]),
            Frame(
                2,
                HELD,
                (2, 2, 1),
                &[At(0, 0x46, 0x54, 0x4350, 0x0000_0048)],
            ),
        ],
        &[
            Frame(1, HELD, (1, 1, 0), &[At(0, 1, 0, 0, 9)]),
            Frame(128, HELD, (4, 0, 9), BYTES),
            Frame(31, TORN, (0, 0, 0), &[]),
        ],
        Ok(Found(One, 1, 29, &[Marked(64, 1, 9)])),
    ),
    Case(
        17,
        &[
            Frame(32, HELD, (1, 0, 0), &[]),
            Frame(33, HELD, (1, 1, 0), &[]),
            Frame(
                34,
                HELD,
                (2, 2, 1),
                &[At(0, 0x46, 0x54, 0x4350, 0x0020_0048)],
            ),
        ],
        &[
            Frame(33, HELD, (1, 1, 0), &[At(7, 1, 0, 0, 9)]),
            Frame(135, HELD, (4, 0, 9), BYTES),
            Frame(35, TORN, (0, 0, 0), &[]),
        ],
        Ok(Found(Two, 1, 1, &[Marked(71, 1, 9)])),
    ),
    Case(
        17,
        &[
            Frame(0, HELD, (1, 0, 0), &[]),
            Frame(1, HELD, (1, 1, 0), &[]),
            Frame(
                2,
                HELD,
                (2, 2, 1),
                &[At(0, 0x46, 0x54, 0x4350, 0x0000_0048)],
            ),
        ],
        &[Frame(1, HELD, (1, 1, 0), &[At(8, 1, 0, 0, 9)])],
        Err(Refused(11, 2, 1)),
    ),
    // the largest chip
    Case(64, &[], &[], Err(Refused(10, 2, 0))),
    Case(64, LARGE, &[], Ok(Found(One, 2, 0, &[]))),
    Case(
        64,
        LARGE,
        &[
            Frame(
                39,
                HELD,
                (2, 7, 0),
                &[At(0, 0x46, 0x54, 0x4350, 0x0020_01c0)],
            ),
            Frame(32, HELD, (1, 0, 0), &[]),
            Frame(33, HELD, (1, 1, 0), &[]),
            Frame(34, HELD, (1, 2, 0), &[]),
            Frame(35, HELD, (1, 3, 0), &[]),
            Frame(36, HELD, (1, 4, 0), &[]),
            Frame(37, HELD, (1, 5, 0), &[]),
            Frame(38, HELD, (1, 6, 0), &[]),
        ],
        Ok(Found(Two, 0, 0, &[])),
    ),
    Case(
        64,
        LARGE,
        &[Frame(
            39,
            HELD,
            (2, 7, 2),
            &[At(0, 0x46, 0x54, 0x4350, 0x0020_01c0)],
        )],
        Err(Refused(11, 2, 39)),
    ),
    Case(
        64,
        LARGE,
        &[Frame(
            39,
            HELD,
            (2, 6, 0),
            &[At(0, 0x46, 0x54, 0x4350, 0x0020_01c0)],
        )],
        Err(Refused(11, 2, 39)),
    ),
    Case(
        64,
        LARGE,
        &[Frame(
            7,
            HELD,
            (2, 7, 2),
            &[At(0, 0x46, 0x54, 0x4350, 0x0000_0200)],
        )],
        Err(Refused(11, 2, 7)),
    ),
    // every entry page has its own entries
    Case(
        64,
        LARGE,
        &[
            Frame(
                0,
                HELD,
                (1, 0, 0),
                &[At(0, 1, 0, 0, 100), At(63, 2, 0, 0, 200)],
            ),
            Frame(
                1,
                HELD,
                (1, 1, 0),
                &[At(0, 1, 0, 0, 101), At(63, 2, 0, 0, 201)],
            ),
            Frame(
                2,
                HELD,
                (1, 2, 0),
                &[At(0, 1, 0, 0, 102), At(63, 2, 0, 0, 202)],
            ),
            Frame(
                3,
                HELD,
                (1, 3, 0),
                &[At(0, 1, 0, 0, 103), At(63, 2, 0, 0, 203)],
            ),
            Frame(
                4,
                HELD,
                (1, 4, 0),
                &[At(0, 1, 0, 0, 104), At(63, 2, 0, 0, 204)],
            ),
            Frame(
                5,
                HELD,
                (1, 5, 0),
                &[At(0, 1, 0, 0, 105), At(63, 2, 0, 0, 205)],
            ),
            Frame(
                6,
                HELD,
                (1, 6, 0),
                &[At(0, 1, 0, 0, 106), At(63, 2, 0, 0, 206)],
            ),
            Frame(64, HELD, (4, 0, 100), BYTES),
            Frame(128, HELD, (4, 0, 101), BYTES),
            Frame(192, HELD, (4, 0, 102), BYTES),
            Frame(256, HELD, (4, 0, 103), BYTES),
            Frame(320, HELD, (4, 0, 104), BYTES),
            Frame(384, HELD, (4, 0, 105), BYTES),
            Frame(448, HELD, (4, 0, 106), BYTES),
            Frame(127, HELD, (4, 0, 200), BYTES),
            Frame(191, HELD, (4, 0, 201), BYTES),
            Frame(255, HELD, (4, 0, 202), BYTES),
            Frame(319, HELD, (4, 0, 203), BYTES),
            Frame(383, HELD, (4, 0, 204), BYTES),
            Frame(447, HELD, (4, 0, 205), BYTES),
            Frame(511, HELD, (4, 0, 206), BYTES),
        ],
        Ok(Found(
            One,
            2,
            0,
            &[
                Marked(0, 1, 100),
                Marked(63, 2, 200),
                Marked(64, 1, 101),
                Marked(127, 2, 201),
                Marked(128, 1, 102),
                Marked(191, 2, 202),
                Marked(192, 1, 103),
                Marked(255, 2, 203),
                Marked(256, 1, 104),
                Marked(319, 2, 204),
                Marked(320, 1, 105),
                Marked(383, 2, 205),
                Marked(384, 1, 106),
                Marked(447, 2, 206),
            ],
        )),
    ),
    // entry pages that are not held, or stand in another's place; the first is met
    Case(
        64,
        LARGE,
        &[Frame(6, TORN, (0, 0, 0), &[])],
        Err(Refused(11, 2, 6)),
    ),
    Case(
        64,
        LARGE,
        &[
            Frame(3, BLANK, (0, 0, 0), &[]),
            Frame(5, BLANK, (0, 0, 0), &[]),
        ],
        Err(Refused(11, 2, 3)),
    ),
    Case(
        64,
        LARGE,
        &[Frame(4, HELD, (1, 3, 0), &[])],
        Err(Refused(11, 2, 4)),
    ),
    Case(
        64,
        LARGE,
        &[
            Frame(2, HELD, (1, 3, 0), &[]),
            Frame(3, HELD, (1, 2, 0), &[]),
        ],
        Err(Refused(11, 2, 2)),
    ),
    // an address twice, on two pages: met at the second
    Case(
        64,
        LARGE,
        &[
            Frame(0, HELD, (1, 0, 0), &[At(0, 1, 0, 0, 9)]),
            Frame(6, HELD, (1, 6, 0), &[At(63, 2, 0, 0, 9)]),
            Frame(64, HELD, (4, 0, 9), BYTES),
            Frame(511, HELD, (4, 0, 9), BYTES),
        ],
        Err(Refused(11, 2, 6)),
    ),
    Case(
        64,
        LARGE,
        &[
            Frame(2, HELD, (1, 2, 0), &[At(63, 1, 0, 0, 0)]),
            Frame(3, HELD, (1, 3, 0), &[At(0, 1, 0, 0, 0)]),
            Frame(255, HELD, (4, 0, 0), BYTES),
            Frame(256, HELD, (4, 0, 0), BYTES),
        ],
        Err(Refused(11, 2, 3)),
    ),
    // the log: pages 8 to 31, and the last data page
    Case(
        64,
        LARGE,
        &[
            Frame(
                8,
                HELD,
                (3, 2, 0),
                &[At(0, 2, 0, 447, 4294967295), At(1, 1, 0, 256, 0)],
            ),
            Frame(31, HELD, (3, 1, 0), &[At(0, 4, 0, 0, 4294967295)]),
            Frame(511, HELD, (4, 0, 4294967295), BYTES),
            Frame(320, HELD, (4, 0, 0), BYTES),
        ],
        Ok(Found(One, 2, 24, &[Marked(256, 1, 0), Marked(447, 1, 4294967295)])),
    ),
    Case(
        64,
        LARGE,
        &[Frame(8, HELD, (3, 1, 0), &[At(0, 1, 0, 448, 5)])],
        Err(Refused(11, 2, 8)),
    ),
    Case(
        64,
        LARGE,
        &[Frame(31, HELD, (3, 1, 0), &[At(0, 3, 0, 0, 5)])],
        Err(Refused(11, 2, 31)),
    ),
    Case(
        64,
        LARGE,
        &[Frame(31, HELD, (3, 1, 0), &[At(0, 2, 0, 447, 5)])],
        Err(Refused(11, 2, 511)),
    ),
    Case(
        64,
        LARGE,
        &[
            Frame(31, HELD, (3, 1, 0), &[At(0, 2, 0, 447, 5)]),
            Frame(511, TORN, (4, 0, 5), BYTES),
        ],
        Err(Refused(11, 2, 511)),
    ),
    Case(
        64,
        LARGE,
        &[
            Frame(9, HELD, (3, 1, 0), &[At(0, 2, 0, 192, 5)]),
            Frame(256, HELD, (4, 0, 6), BYTES),
        ],
        Err(Refused(11, 2, 256)),
    ),
];

// A chip that is off: the size is judged first, then the first look at a trailer finds no power.
pub(super) const OFF: &[Off] = &[
    Off(11, Refused(12, 2, 0)),
    Off(12, Refused(1, 1, 1)),
    Off(17, Refused(1, 1, 2)),
    Off(64, Refused(1, 1, 7)),
];
