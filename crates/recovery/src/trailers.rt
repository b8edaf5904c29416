// The two trailers of a chip, and which area is active.
ghost use Rattle.std.specs.Prelude.{◌≡◌, ◌<◌, IfSome};
ghost use Rattle.device.specs.declared.faults.Refusal.TheVariants.{Breach};
ghost use Rattle.layout.specs.Geometry.{data_pages, trailer_at};
ghost use Rattle.recovery.specs.Recovering.{cache_fault, Malformed, Active, Failed};
ghost use Rattle.device.specs.Chips.{State};
ghost use Rattle.recovery.specs.Looking.{shown, Quiet, Saw, Stage};
ghost use Rattle.recovery.specs.Trailers.{TrailerIs, Judged, Chosen};

use crate::look::Seen;
use crate::reader::Reader;
use device::{Chip, Fault, Layer, Refusal};
use layout::{Area, Geometry};

// The active area, with the number of its trailer.
#[derive(Clone, Copy)]
pub(crate) struct ActiveArea {
    pub(crate) area: Area,
    pub(crate) number: u8,
}

// What a look at the trailer's page of an area says: the number of the trailer, that none counts there, or a breach.
fn judge(geometry: Geometry, area: Area, seen: Seen, bytes: &[u8; 512]) -> Result<Option<u8>, Fault>
    ensures { (page : State) → Saw page seen bytes.now → Judged (data_pages geometry.blocks) area page result }
{
    match seen {
        Seen::Held(note) if note.0 == 2 => {
            let breach = Refusal::Breach.at(Layer::Cache, geometry.trailer_page(area).0);
            let number = layout::read_trailer(geometry, area, note, bytes).ok_or(breach)?;
            Ok(Some(number))
        }
        Seen::Held(_) | Seen::Blank | Seen::Torn => Ok(None),
    }
}

// Which area is active, by the numbers of the trailers that count.
fn choose(geometry: Geometry, one: Option<u8>, two: Option<u8>) -> Result<ActiveArea, Fault>
    requires one { IfSome one (λ n. n < 3) }
    requires two { IfSome two (λ n. n < 3) }
    ensures { Chosen (data_pages geometry.blocks) one two result }
{
    match (one, two) {
        (None, None) => Err(Refusal::NoCheckpoint.at(Layer::Cache, 0)),
        (Some(n), Some(m)) if n == m => {
            Err(Refusal::Breach.at(Layer::Cache, geometry.trailer_page(Area::Two).0))
        }
        (Some(n), Some(m)) if m == (n + 1) % 3 => Ok(ActiveArea {
            area: Area::Two,
            number: m,
        }),
        (Some(number), _) => Ok(ActiveArea {
            area: Area::One,
            number,
        }),
        (None, Some(number)) => Ok(ActiveArea {
            area: Area::Two,
            number,
        }),
    }
}

impl<C: Chip> Reader<'_, C> {
    // The number of an area's trailer, if one counts there; a breach if it is not in order.
    fn trailer_of(&mut self, area: Area) -> Result<Option<u8>, Fault>
        ensures same { (self.new.chip.ghost_name ≡ self.old.chip.ghost_name) × (self.new.geometry ≡ self.old.geometry) }
        ensures quiet { Quiet (C.Chip.meaning self.old.chip.now) (C.Chip.meaning self.new.chip.now) }
        ensures found { Stage (TrailerIs (data_pages self.old.geometry.blocks) (shown (C.Chip.meaning self.old.chip.now)) area) (λ f. (f ≡ cache_fault (trailer_at (data_pages self.old.geometry.blocks) area) Breach) × Malformed (data_pages self.old.geometry.blocks) (shown (C.Chip.meaning self.old.chip.now)) area) result (C.Chip.meaning self.new.chip.now) }
    {
        let geometry = self.geometry;
        let seen = self.look(geometry.trailer_page(area))?;
        judge(geometry, area, seen, &self.page)
    }

    // The active area.
    pub(crate) fn active_area(&mut self) -> Result<ActiveArea, Fault>
        ensures same { (self.new.chip.ghost_name ≡ self.old.chip.ghost_name) × (self.new.geometry ≡ self.old.geometry) }
        ensures quiet { Quiet (C.Chip.meaning self.old.chip.now) (C.Chip.meaning self.new.chip.now) }
        ensures found { Stage (λ a. Active (data_pages self.old.geometry.blocks) (shown (C.Chip.meaning self.old.chip.now)) a.area a.number) (Failed (data_pages self.old.geometry.blocks) (shown (C.Chip.meaning self.old.chip.now))) result (C.Chip.meaning self.new.chip.now) }
    {
        let one = self.trailer_of(Area::One)?;
        let two = self.trailer_of(Area::Two)?;
        choose(self.geometry, one, two)
    }
}
