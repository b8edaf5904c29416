// Why a page of the mapping table is refused that was read back.
use layout::Malformed;
use table::Breach;

// It is not such a page, or does not fit what the pages before it say.
#[derive(Clone, Copy)]
pub(crate) struct Misfit;

impl From<Breach> for Misfit {
    fn from(_breach: Breach) -> Misfit {
        Misfit
    }
}

impl From<Malformed> for Misfit {
    fn from(_malformed: Malformed) -> Misfit {
        Misfit
    }
}
