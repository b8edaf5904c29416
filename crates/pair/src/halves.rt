// What a pair makes of its halves: how large one is, and how an answer of one becomes the pair's.
ghost use Rattle.std.specs.Prelude.{◌≡◌, ◌≤◌};
ghost use Rattle.device.specs.Chips.{page_count};
ghost use Rattle.pair.specs.Halves.{keeps_power, placed_at};

use device::{Chip, Fault, Refusal};

// The half in which a place of a pair lies, and its own place there.
pub(super) enum Half<L> {
    First(L),
    Second(L),
}

// How many pages a chip has.
pub(super) fn pages<C: Chip>(chip: &C) -> u32
    ensures number { result ≡ page_count (C.Chip.meaning chip.now) }
    ensures few { result ≤ 512 }
{
    8 * chip.blocks()
}

// Whether a half that was on is on after this answer.
pub(super) fn still_on<T>(answer: &Result<T, Fault>) -> bool
    ensures { result ≡ keeps_power answer.now }
{
    match answer {
        Ok(_) => true,
        Err(fault) => fault.refusal != Refusal::PowerOff,
    }
}

// A half's answer, its fault at the place that the pair was given.
pub(super) fn at_place<T>(answer: Result<T, Fault>, place: u32) -> Result<T, Fault>
    ensures { result ≡ placed_at place answer }
{
    answer.map_err(|fault| Fault { place, ..fault })
}
