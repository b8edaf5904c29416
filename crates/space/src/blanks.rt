// What is remembered of the data pages, on a page of its own since the type keeps the bound.
ghost use Rattle.std.specs.Prelude.{◌≤◌, length};

use arrayvec::ArrayVec;
use device::DataPage;

// Which data pages are blank, with a flag for each, and the cursor from which the next one is looked for.
#[derive(Drop)]
pub struct Space {
    pub(crate) blank: ArrayVec<bool, 448>,
    pub(crate) cursor: DataPage,
    ghost within: { length blank.items ≤ 448 },
}
