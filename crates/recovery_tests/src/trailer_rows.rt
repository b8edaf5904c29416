// Rows about trailers: which count, which are in order, and which area is active. A chip of 12 erase blocks has its trailers
// at chip pages 1 and 33.
use crate::cases::{Case, Found, Refused};
use crate::frames::{At, BLANK, Frame, HELD, TORN};
use layout::Area::{One, Two};

// The data of each area's trailer.
pub(super) const ONE: &[At] = &[At(0, 0x46, 0x54, 0x4350, 0x0000_0020)];

pub(super) const TWO: &[At] = &[At(0, 0x46, 0x54, 0x4350, 0x0020_0020)];

// The checkpoint of an empty table in area one with number 0, and in area two with number 1.
pub(super) const FORMED: &[Frame<'static>] = &[
    Frame(0, HELD, (1, 0, 0), &[]),
    Frame(1, HELD, (2, 1, 0), ONE),
];

pub(super) const SECOND: &[Frame<'static>] = &[
    Frame(32, HELD, (1, 0, 0), &[]),
    Frame(33, HELD, (2, 1, 1), TWO),
];

pub(super) const TRAILERS: &[Case<'static>] = &[
    // no trailer counts: all blank; torn; held with another kind, whatever else is there
    Case(12, &[], &[], Err(Refused(10, 2, 0))),
    Case(
        12,
        FORMED,
        &[
            Frame(1, TORN, (2, 1, 0), ONE),
            Frame(33, TORN, (2, 1, 0), TWO),
        ],
        Err(Refused(10, 2, 0)),
    ),
    Case(
        12,
        FORMED,
        &[Frame(1, BLANK, (2, 1, 0), ONE)],
        Err(Refused(10, 2, 0)),
    ),
    Case(
        12,
        FORMED,
        &[
            Frame(1, HELD, (1, 1, 0), ONE),
            Frame(33, HELD, (3, 1, 0), TWO),
        ],
        Err(Refused(10, 2, 0)),
    ),
    Case(
        12,
        FORMED,
        &[
            Frame(1, HELD, (0, 1, 0), ONE),
            Frame(33, HELD, (4, 1, 0), TWO),
        ],
        Err(Refused(10, 2, 0)),
    ),
    // a trailer one page too far counts for nothing
    Case(
        12,
        &[
            Frame(0, HELD, (1, 0, 0), &[]),
            Frame(2, HELD, (2, 1, 0), ONE),
        ],
        &[],
        Err(Refused(10, 2, 0)),
    ),
    // one trailer, with each number
    Case(
        12,
        FORMED,
        &[Frame(1, HELD, (2, 1, 0), ONE)],
        Ok(Found(One, 0, 0, &[])),
    ),
    Case(
        12,
        &[Frame(32, HELD, (1, 0, 0), &[])],
        &[Frame(33, HELD, (2, 1, 0), TWO)],
        Ok(Found(Two, 0, 0, &[])),
    ),
    Case(
        12,
        FORMED,
        &[Frame(1, HELD, (2, 1, 1), ONE)],
        Ok(Found(One, 1, 0, &[])),
    ),
    Case(
        12,
        &[Frame(32, HELD, (1, 0, 0), &[])],
        &[Frame(33, HELD, (2, 1, 1), TWO)],
        Ok(Found(Two, 1, 0, &[])),
    ),
    Case(
        12,
        FORMED,
        &[Frame(1, HELD, (2, 1, 2), ONE)],
        Ok(Found(One, 2, 0, &[])),
    ),
    Case(
        12,
        &[Frame(32, HELD, (1, 0, 0), &[])],
        &[Frame(33, HELD, (2, 1, 2), TWO)],
        Ok(Found(Two, 2, 0, &[])),
    ),
    // two trailers, with each pair of numbers
    Case(
        12,
        &[
            Frame(0, HELD, (1, 0, 0), &[]),
            Frame(32, HELD, (1, 0, 0), &[]),
        ],
        &[
            Frame(1, HELD, (2, 1, 0), ONE),
            Frame(33, HELD, (2, 1, 0), TWO),
        ],
        Err(Refused(11, 2, 33)),
    ),
    Case(
        12,
        &[
            Frame(0, HELD, (1, 0, 0), &[]),
            Frame(32, HELD, (1, 0, 0), &[]),
        ],
        &[
            Frame(1, HELD, (2, 1, 0), ONE),
            Frame(33, HELD, (2, 1, 1), TWO),
        ],
        Ok(Found(Two, 1, 0, &[])),
    ),
    Case(
        12,
        &[
            Frame(0, HELD, (1, 0, 0), &[]),
            Frame(32, HELD, (1, 0, 0), &[]),
        ],
        &[
            Frame(1, HELD, (2, 1, 0), ONE),
            Frame(33, HELD, (2, 1, 2), TWO),
        ],
        Ok(Found(One, 0, 0, &[])),
    ),
    Case(
        12,
        &[
            Frame(0, HELD, (1, 0, 0), &[]),
            Frame(32, HELD, (1, 0, 0), &[]),
        ],
        &[
            Frame(1, HELD, (2, 1, 1), ONE),
            Frame(33, HELD, (2, 1, 0), TWO),
        ],
        Ok(Found(One, 1, 0, &[])),
    ),
    Case(
        12,
        &[
            Frame(0, HELD, (1, 0, 0), &[]),
            Frame(32, HELD, (1, 0, 0), &[]),
        ],
        &[
            Frame(1, HELD, (2, 1, 1), ONE),
            Frame(33, HELD, (2, 1, 1), TWO),
        ],
        Err(Refused(11, 2, 33)),
    ),
    Case(
        12,
        &[
            Frame(0, HELD, (1, 0, 0), &[]),
            Frame(32, HELD, (1, 0, 0), &[]),
        ],
        &[
            Frame(1, HELD, (2, 1, 1), ONE),
            Frame(33, HELD, (2, 1, 2), TWO),
        ],
        Ok(Found(Two, 2, 0, &[])),
    ),
    Case(
        12,
        &[
            Frame(0, HELD, (1, 0, 0), &[]),
            Frame(32, HELD, (1, 0, 0), &[]),
        ],
        &[
            Frame(1, HELD, (2, 1, 2), ONE),
            Frame(33, HELD, (2, 1, 0), TWO),
        ],
        Ok(Found(Two, 0, 0, &[])),
    ),
    Case(
        12,
        &[
            Frame(0, HELD, (1, 0, 0), &[]),
            Frame(32, HELD, (1, 0, 0), &[]),
        ],
        &[
            Frame(1, HELD, (2, 1, 2), ONE),
            Frame(33, HELD, (2, 1, 1), TWO),
        ],
        Ok(Found(One, 2, 0, &[])),
    ),
    Case(
        12,
        &[
            Frame(0, HELD, (1, 0, 0), &[]),
            Frame(32, HELD, (1, 0, 0), &[]),
        ],
        &[
            Frame(1, HELD, (2, 1, 2), ONE),
            Frame(33, HELD, (2, 1, 2), TWO),
        ],
        Err(Refused(11, 2, 33)),
    ),
    // a torn trailer, or one of another kind, leaves the other area active
    Case(
        12,
        &[
            Frame(0, HELD, (1, 0, 0), &[]),
            Frame(32, HELD, (1, 0, 0), &[]),
        ],
        &[
            Frame(1, HELD, (2, 1, 1), ONE),
            Frame(33, TORN, (2, 1, 2), TWO),
        ],
        Ok(Found(One, 1, 0, &[])),
    ),
    Case(
        12,
        &[
            Frame(0, HELD, (1, 0, 0), &[]),
            Frame(32, HELD, (1, 0, 0), &[]),
        ],
        &[
            Frame(1, TORN, (2, 1, 1), ONE),
            Frame(33, HELD, (2, 1, 2), TWO),
        ],
        Ok(Found(Two, 2, 0, &[])),
    ),
    Case(
        12,
        &[
            Frame(0, HELD, (1, 0, 0), &[]),
            Frame(32, HELD, (1, 0, 0), &[]),
        ],
        &[
            Frame(1, HELD, (3, 1, 1), ONE),
            Frame(33, HELD, (2, 1, 2), TWO),
        ],
        Ok(Found(Two, 2, 0, &[])),
    ),
    Case(
        12,
        &[
            Frame(0, HELD, (1, 0, 0), &[]),
            Frame(32, HELD, (1, 0, 0), &[]),
        ],
        &[
            Frame(1, HELD, (2, 1, 1), ONE),
            Frame(33, HELD, (1, 1, 2), TWO),
        ],
        Ok(Found(One, 1, 0, &[])),
    ),
    // number 3, 256, 65,536 and the largest
    Case(
        12,
        FORMED,
        &[Frame(1, HELD, (2, 1, 3), ONE)],
        Err(Refused(11, 2, 1)),
    ),
    Case(
        12,
        FORMED,
        &[Frame(1, HELD, (2, 1, 256), ONE)],
        Err(Refused(11, 2, 1)),
    ),
    Case(
        12,
        FORMED,
        &[Frame(1, HELD, (2, 1, 0x0001_0000), ONE)],
        Err(Refused(11, 2, 1)),
    ),
    Case(
        12,
        FORMED,
        &[Frame(1, HELD, (2, 1, 4294967295), ONE)],
        Err(Refused(11, 2, 1)),
    ),
    // count 0 and 2
    Case(
        12,
        FORMED,
        &[Frame(1, HELD, (2, 0, 0), ONE)],
        Err(Refused(11, 2, 1)),
    ),
    Case(
        12,
        FORMED,
        &[Frame(1, HELD, (2, 2, 0), ONE)],
        Err(Refused(11, 2, 1)),
    ),
    // no letters
    Case(
        12,
        FORMED,
        &[Frame(1, HELD, (2, 1, 0), &[])],
        Err(Refused(11, 2, 1)),
    ),
    // a letter wrong, each of four
    Case(
        12,
        FORMED,
        &[Frame(
            1,
            HELD,
            (2, 1, 0),
            &[At(0, 0x47, 0x54, 0x4350, 0x0000_0020)],
        )],
        Err(Refused(11, 2, 1)),
    ),
    Case(
        12,
        FORMED,
        &[Frame(
            1,
            HELD,
            (2, 1, 0),
            &[At(0, 0x46, 0x55, 0x4350, 0x0000_0020)],
        )],
        Err(Refused(11, 2, 1)),
    ),
    Case(
        12,
        FORMED,
        &[Frame(
            1,
            HELD,
            (2, 1, 0),
            &[At(0, 0x46, 0x54, 0x4450, 0x0000_0020)],
        )],
        Err(Refused(11, 2, 1)),
    ),
    Case(
        12,
        FORMED,
        &[Frame(
            1,
            HELD,
            (2, 1, 0),
            &[At(0, 0x46, 0x54, 0x4351, 0x0000_0020)],
        )],
        Err(Refused(11, 2, 1)),
    ),
    // the other area's first page, and one that is no area's
    Case(
        12,
        FORMED,
        &[Frame(1, HELD, (2, 1, 0), TWO)],
        Err(Refused(11, 2, 1)),
    ),
    Case(
        12,
        FORMED,
        &[Frame(
            1,
            HELD,
            (2, 1, 0),
            &[At(0, 0x46, 0x54, 0x4350, 0x0001_0020)],
        )],
        Err(Refused(11, 2, 1)),
    ),
    // 31, 33 and 0 data pages
    Case(
        12,
        FORMED,
        &[Frame(
            1,
            HELD,
            (2, 1, 0),
            &[At(0, 0x46, 0x54, 0x4350, 0x0000_001f)],
        )],
        Err(Refused(11, 2, 1)),
    ),
    Case(
        12,
        FORMED,
        &[Frame(
            1,
            HELD,
            (2, 1, 0),
            &[At(0, 0x46, 0x54, 0x4350, 0x0000_0021)],
        )],
        Err(Refused(11, 2, 1)),
    ),
    Case(
        12,
        FORMED,
        &[Frame(
            1,
            HELD,
            (2, 1, 0),
            &[At(0, 0x46, 0x54, 0x4350, 0x0000_0000)],
        )],
        Err(Refused(11, 2, 1)),
    ),
    // a byte that is not zero after it: the next, the last
    Case(
        12,
        FORMED,
        &[Frame(
            1,
            HELD,
            (2, 1, 0),
            &[At(0, 0x46, 0x54, 0x4350, 0x0000_0020), At(1, 1, 0, 0, 0)],
        )],
        Err(Refused(11, 2, 1)),
    ),
    Case(
        12,
        FORMED,
        &[Frame(
            1,
            HELD,
            (2, 1, 0),
            &[At(0, 0x46, 0x54, 0x4350, 0x0000_0020), At(63, 0, 0, 0, 1)],
        )],
        Err(Refused(11, 2, 1)),
    ),
    // area two's trailer, in the same ways, though area one's is in order
    Case(
        12,
        FORMED,
        &[Frame(33, HELD, (2, 1, 3), TWO)],
        Err(Refused(11, 2, 33)),
    ),
    Case(
        12,
        FORMED,
        &[Frame(33, HELD, (2, 0, 1), TWO)],
        Err(Refused(11, 2, 33)),
    ),
    Case(
        12,
        FORMED,
        &[Frame(33, HELD, (2, 2, 1), TWO)],
        Err(Refused(11, 2, 33)),
    ),
    Case(
        12,
        FORMED,
        &[Frame(33, HELD, (2, 1, 1), &[])],
        Err(Refused(11, 2, 33)),
    ),
    Case(
        12,
        FORMED,
        &[Frame(33, HELD, (2, 1, 1), ONE)],
        Err(Refused(11, 2, 33)),
    ),
    Case(
        12,
        FORMED,
        &[Frame(
            33,
            HELD,
            (2, 1, 1),
            &[At(0, 0x46, 0x54, 0x4350, 0x0020_001f)],
        )],
        Err(Refused(11, 2, 33)),
    ),
    Case(
        12,
        FORMED,
        &[Frame(
            33,
            HELD,
            (2, 1, 1),
            &[At(0, 0x46, 0x54, 0x4350, 0x0020_0020), At(63, 0, 0, 0, 1)],
        )],
        Err(Refused(11, 2, 33)),
    ),
    // area two's alone
    Case(
        12,
        &[],
        &[Frame(33, HELD, (2, 1, 3), TWO)],
        Err(Refused(11, 2, 33)),
    ),
    // both out of order: area one's is met first
    Case(
        12,
        FORMED,
        &[
            Frame(1, HELD, (2, 1, 3), ONE),
            Frame(33, HELD, (2, 1, 3), TWO),
        ],
        Err(Refused(11, 2, 1)),
    ),
    // a trailer out of order comes before an entry page that is not held
    Case(
        12,
        &[],
        &[
            Frame(1, HELD, (2, 1, 0), ONE),
            Frame(33, HELD, (2, 1, 3), TWO),
        ],
        Err(Refused(11, 2, 33)),
    ),
    // equal numbers come before entry pages that are not held
    Case(
        12,
        &[],
        &[
            Frame(1, HELD, (2, 1, 2), ONE),
            Frame(33, HELD, (2, 1, 2), TWO),
        ],
        Err(Refused(11, 2, 33)),
    ),
    // only the active area's pages matter: the other has its trailer alone
    Case(
        12,
        SECOND,
        &[Frame(1, HELD, (2, 1, 0), ONE)],
        Ok(Found(Two, 1, 0, &[])),
    ),
    Case(
        12,
        SECOND,
        &[
            Frame(1, HELD, (2, 1, 0), ONE),
            Frame(0, TORN, (0, 0, 0), &[]),
            Frame(2, HELD, (9, 9, 9), &[]),
        ],
        Ok(Found(Two, 1, 0, &[])),
    ),
    Case(
        12,
        FORMED,
        &[
            Frame(33, HELD, (2, 1, 2), TWO),
            Frame(32, TORN, (0, 0, 0), &[]),
            Frame(34, HELD, (3, 0, 0), &[]),
            Frame(63, HELD, (4, 0, 0), &[]),
        ],
        Ok(Found(One, 0, 0, &[])),
    ),
];
