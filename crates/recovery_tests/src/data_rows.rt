// Rows about data pages: each one that the table marks is held, with kind 4, count 0 and its address.
use crate::cases::{Case, Found, Marked, Refused};
use crate::frames::{At, BLANK, BYTES, Frame, HELD, TORN};
use crate::trailer_rows::{FORMED, SECOND};
use layout::Area::One;

pub(super) const DATA: &[Case<'static>] = &[
    // a marked page that is blank, torn; by the checkpoint, by the log
    Case(
        12,
        FORMED,
        &[
            Frame(0, HELD, (1, 0, 0), &[At(0, 1, 0, 0, 5)]),
            Frame(64, BLANK, (4, 0, 5), BYTES),
        ],
        Err(Refused(11, 2, 64)),
    ),
    Case(
        12,
        FORMED,
        &[
            Frame(0, HELD, (1, 0, 0), &[At(31, 2, 0, 0, 5)]),
            Frame(95, BLANK, (4, 0, 5), BYTES),
        ],
        Err(Refused(11, 2, 95)),
    ),
    Case(
        12,
        FORMED,
        &[
            Frame(2, HELD, (3, 1, 0), &[At(0, 2, 0, 7, 5)]),
            Frame(71, BLANK, (4, 0, 5), BYTES),
        ],
        Err(Refused(11, 2, 71)),
    ),
    Case(
        12,
        FORMED,
        &[
            Frame(0, HELD, (1, 0, 0), &[At(0, 1, 0, 0, 5)]),
            Frame(64, TORN, (4, 0, 5), BYTES),
        ],
        Err(Refused(11, 2, 64)),
    ),
    Case(
        12,
        FORMED,
        &[
            Frame(0, HELD, (1, 0, 0), &[At(31, 2, 0, 0, 5)]),
            Frame(95, TORN, (4, 0, 5), BYTES),
        ],
        Err(Refused(11, 2, 95)),
    ),
    Case(
        12,
        FORMED,
        &[
            Frame(2, HELD, (3, 1, 0), &[At(0, 2, 0, 7, 5)]),
            Frame(71, TORN, (4, 0, 5), BYTES),
        ],
        Err(Refused(11, 2, 71)),
    ),
    // another kind
    Case(
        12,
        FORMED,
        &[
            Frame(2, HELD, (3, 1, 0), &[At(0, 2, 0, 7, 5)]),
            Frame(71, HELD, (0, 0, 5), BYTES),
        ],
        Err(Refused(11, 2, 71)),
    ),
    Case(
        12,
        FORMED,
        &[
            Frame(2, HELD, (3, 1, 0), &[At(0, 2, 0, 7, 5)]),
            Frame(71, HELD, (3, 0, 5), BYTES),
        ],
        Err(Refused(11, 2, 71)),
    ),
    Case(
        12,
        FORMED,
        &[
            Frame(2, HELD, (3, 1, 0), &[At(0, 2, 0, 7, 5)]),
            Frame(71, HELD, (5, 0, 5), BYTES),
        ],
        Err(Refused(11, 2, 71)),
    ),
    // another count
    Case(
        12,
        FORMED,
        &[
            Frame(2, HELD, (3, 1, 0), &[At(0, 2, 0, 7, 5)]),
            Frame(71, HELD, (4, 1, 5), BYTES),
        ],
        Err(Refused(11, 2, 71)),
    ),
    Case(
        12,
        FORMED,
        &[
            Frame(0, HELD, (1, 0, 0), &[At(7, 1, 0, 0, 5)]),
            Frame(71, HELD, (4, 255, 5), BYTES),
        ],
        Err(Refused(11, 2, 71)),
    ),
    // another address, in each of its bytes
    Case(
        12,
        FORMED,
        &[
            Frame(2, HELD, (3, 1, 0), &[At(0, 2, 0, 7, 5)]),
            Frame(71, HELD, (4, 0, 4), BYTES),
        ],
        Err(Refused(11, 2, 71)),
    ),
    Case(
        12,
        FORMED,
        &[
            Frame(2, HELD, (3, 1, 0), &[At(0, 1, 0, 7, 5)]),
            Frame(71, HELD, (4, 0, 261), BYTES),
        ],
        Err(Refused(11, 2, 71)),
    ),
    Case(
        12,
        FORMED,
        &[
            Frame(0, HELD, (1, 0, 0), &[At(7, 1, 0, 0, 5)]),
            Frame(71, HELD, (4, 0, 0x0001_0005), BYTES),
        ],
        Err(Refused(11, 2, 71)),
    ),
    Case(
        12,
        FORMED,
        &[
            Frame(0, HELD, (1, 0, 0), &[At(7, 2, 0, 0, 5)]),
            Frame(71, HELD, (4, 0, 0x0100_0005), BYTES),
        ],
        Err(Refused(11, 2, 71)),
    ),
    Case(
        12,
        FORMED,
        &[
            Frame(0, HELD, (1, 0, 0), &[At(7, 2, 0, 0, 0)]),
            Frame(71, HELD, (4, 0, 4294967295), BYTES),
        ],
        Err(Refused(11, 2, 71)),
    ),
    // the first of two
    Case(
        12,
        FORMED,
        &[Frame(0, HELD, (1, 0, 0), &[At(3, 1, 0, 0, 5), At(9, 1, 0, 0, 6)])],
        Err(Refused(11, 2, 67)),
    ),
    Case(
        12,
        FORMED,
        &[
            Frame(0, HELD, (1, 0, 0), &[At(3, 1, 0, 0, 5), At(9, 1, 0, 0, 6)]),
            Frame(67, HELD, (4, 0, 5), BYTES),
        ],
        Err(Refused(11, 2, 73)),
    ),
    // in area two the data pages are the same
    Case(
        12,
        SECOND,
        &[Frame(32, HELD, (1, 0, 0), &[At(3, 1, 0, 0, 5)])],
        Err(Refused(11, 2, 67)),
    ),
    // pages without a mark are not looked at, nor one that the log has emptied
    Case(
        12,
        FORMED,
        &[
            Frame(64, TORN, (4, 0, 5), BYTES),
            Frame(65, HELD, (9, 9, 9), BYTES),
            Frame(66, HELD, (4, 0, 6), BYTES),
        ],
        Ok(Found(One, 0, 0, &[])),
    ),
    Case(
        12,
        FORMED,
        &[
            Frame(0, HELD, (1, 0, 0), &[At(0, 1, 0, 0, 5), At(1, 2, 0, 0, 6)]),
            Frame(2, HELD, (3, 2, 0), &[At(0, 3, 0, 0, 5), At(1, 2, 0, 2, 6)]),
            Frame(64, TORN, (4, 0, 5), BYTES),
            Frame(66, HELD, (4, 0, 6), BYTES),
        ],
        Ok(Found(One, 0, 1, &[Marked(2, 2, 6)])),
    ),
    // an unsettled data page is old, new or torn after the power cut
    Case(
        12,
        FORMED,
        &[
            Frame(2, HELD, (3, 1, 0), &[At(0, 2, 0, 7, 5)]),
            Frame(71, (3, 0), (4, 0, 5), BYTES),
        ],
        Err(Refused(11, 2, 71)),
    ),
    Case(
        12,
        FORMED,
        &[
            Frame(2, HELD, (3, 1, 0), &[At(0, 2, 0, 7, 5)]),
            Frame(71, (3, 1), (4, 0, 5), BYTES),
        ],
        Ok(Found(One, 0, 1, &[Marked(7, 2, 5)])),
    ),
    Case(
        12,
        FORMED,
        &[
            Frame(2, HELD, (3, 1, 0), &[At(0, 2, 0, 7, 5)]),
            Frame(71, (3, 2), (4, 0, 5), BYTES),
        ],
        Err(Refused(11, 2, 71)),
    ),
    Case(
        12,
        FORMED,
        &[
            Frame(2, HELD, (3, 1, 0), &[At(0, 2, 0, 7, 5)]),
            Frame(71, (4, 0), (4, 0, 5), BYTES),
        ],
        Ok(Found(One, 0, 1, &[Marked(7, 2, 5)])),
    ),
    Case(
        12,
        FORMED,
        &[
            Frame(2, HELD, (3, 1, 0), &[At(0, 2, 0, 7, 5)]),
            Frame(71, (4, 1), (4, 0, 5), BYTES),
        ],
        Err(Refused(11, 2, 71)),
    ),
];
