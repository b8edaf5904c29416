// The head of a trailer's page, the last page of a checkpoint: which area it closes, for how many data pages.
ghost use Rattle.std.specs.Prelude.{◌≡◌};
ghost use Rattle.layout.specs.Geometry.{data_pages};
ghost use Rattle.layout.specs.Pages.{trailer_bytes, ProperTrailer};
ghost use Rattle.std.proofs.Common.{rules};

use crate::areas::Area;
use crate::cells::Cell;
use crate::chip_size::Geometry;

#[derive(Clone, Copy, PartialEq, Eq, Debug)]
pub struct Trailer {
    pub area: Area,
    pub pages: u16,
}

impl Trailer {
    // The head of this area's trailer, on a chip of this size.
    pub fn new(geometry: Geometry, area: Area) -> Trailer
        ensures { result ≡ record { area = area; pages = data_pages geometry.blocks } }
    {
        Trailer {
            area,
            pages: geometry.data_pages(),
        }
    }
}

impl Cell for Trailer {
    ghost bytes = { trailer_bytes };

    ghost proper = { ProperTrailer };

    ghost eight = { Prim.search rules };

    ghost apart = { Prim.search rules };

    fn encode(self) -> [u8; 8] {
        let [_, _, a, b] = self.area.first().0.to_be_bytes();
        let [c, d] = self.pages.to_be_bytes();
        [b'F', b'T', b'C', b'P', a, b, c, d]
    }

    fn decode(from: &[u8]) -> Option<Trailer> {
        match from {
            [b'F', b'T', b'C', b'P', a, b, c, d] => {
                let area = Area::try_from(u16::from_be_bytes([*a, *b])).ok()?;
                let pages = u16::from_be_bytes([*c, *d]);
                Some(Trailer { area, pages })
            }
            _ => None,
        }
    }
}
