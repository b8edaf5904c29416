// The two areas at a chip's beginning. One holds the newest checkpoint; the next one goes to the other.
ghost use Rattle.std.specs.Prelude.{◌≡◌, ◌≢◌, MatchResult};
ghost use Rattle.layout.specs.declared.areas.Area.{Area};
ghost use Rattle.layout.specs.Geometry.{first_page, other_area};

use device::ChipPage;

// An area, by the number of the first of its 32 chip pages.
#[derive(Clone, Copy, PartialEq, Eq, Debug)]
pub enum Area {
    One = 0,
    Two = 32,
}

impl Area {
    // The first of the area's 32 chip pages.
    pub fn first(self) -> ChipPage
        ensures { result.0 ≡ first_page self }
    {
        ChipPage(self as u32)
    }

    // The area that is not this one.
    pub fn other(self) -> Area
        ensures { result ≡ other_area self }
    {
        match self {
            Area::One => Area::Two,
            Area::Two => Area::One,
        }
    }
}

// The area that begins at this chip page, as a trailer tells it; other numbers come back.
impl TryFrom<u16> for Area {
    type Error = u16;

    ghost try_from_gives = { λ n r. MatchResult r (λ area. first_page area ≡ n) (λ m. (m ≡ n) × ((area : Area) → first_page area ≢ n)) };

    fn try_from(first: u16) -> Result<Area, u16> {
        match first {
            0 => Ok(Area::One),
            32 => Ok(Area::Two),
            _ => Err(first),
        }
    }
}
