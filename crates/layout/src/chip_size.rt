// The size of a chip that a cache serves, on a page of its own since the type keeps the bounds.
ghost use Rattle.std.specs.Prelude.{◌≤◌};

// A number of erase blocks, 12 to 64.
#[derive(Clone, Copy, PartialEq, Eq, Debug)]
pub struct Geometry {
    pub(crate) blocks: u32,
    ghost enough: { 12 ≤ blocks },
    ghost few: { blocks ≤ 64 },
}
