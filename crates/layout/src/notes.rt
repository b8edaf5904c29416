// What the note of a page says that the page holds, and the error of a page that does not hold it.

// The kinds of pages. A page's note begins with the number of its kind.
#[derive(Clone, Copy, PartialEq, Eq, Debug)]
pub(crate) enum Kind {
    Entries = 1,
    Trailer = 2,
    Log = 3,
    Data = 4,
}

// A page that is not what its note should make it.
#[derive(Clone, Copy, PartialEq, Eq, Debug)]
pub struct Malformed;
