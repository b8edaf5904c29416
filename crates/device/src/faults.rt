// Why a call is refused: one of twelve refusals, the layer where it arose, and the place.
ghost use Rattle.std.specs.Prelude.{◌≡◌};
ghost use Rattle.device.specs.Faults.{refusal_number, layer_number};

use std::fmt;

// The twelve refusals, in the order of their numbers.
#[derive(Clone, Copy, PartialEq, Eq, Debug)]
pub enum Refusal {
    // off, or power failed below
    PowerOff = 1,
    // a buffer, an image or a list of fuses of a wrong size
    BadSize = 2,
    // a page, an erase block or a block that is not there
    OutOfRange = 3,
    // a program or a write at an unsettled place, or an erase with an unsettled page inside
    Unsettled = 4,
    // a program of a settled page that is not blank
    NotBlank = 5,
    // a read of a torn page
    Torn = 6,
    // a read of a blank page
    Blank = 7,
    // a read, evict or clean of an address that the cache does not hold
    NotHeld = 8,
    // no blank page, and a dirty page in every data erase block
    Full = 9,
    // no checkpoint to recover from
    NoCheckpoint = 10,
    // a layout or a rule is broken
    Breach = 11,
    // a number of erase blocks that does not serve
    BadGeometry = 12,
}

// The layer where a fault arose.
#[derive(Clone, Copy, PartialEq, Eq, Debug)]
pub enum Layer {
    Chip = 1,
    Cache = 2,
    Disk = 3,
    Tier = 4,
}

// A refusal, the layer where it arose, and the place: the page, erase block or block that was given, else 0.
#[derive(Clone, Copy, PartialEq, Eq, Debug)]
pub struct Fault {
    pub refusal: Refusal,
    pub layer: Layer,
    pub place: u32,
}

impl Refusal {
    // The number by which people know the refusal, 1 to 12.
    pub fn number(self) -> u8
        ensures { result ≡ refusal_number self }
    {
        self as u8
    }

    // The fault of this refusal, where it arose.
    pub fn at(self, layer: Layer, place: u32) -> Fault
        ensures { result ≡ record { refusal = self; layer = layer; place = place } }
    {
        Fault {
            refusal: self,
            layer,
            place,
        }
    }
}

impl Layer {
    // The number by which people know the layer, 1 to 4.
    pub fn number(self) -> u8
        ensures { result ≡ layer_number self }
    {
        self as u8
    }
}

// In words, for people.
impl fmt::Display for Refusal {
    fn fmt<W: fmt::Write>(&self, f: &mut fmt::Formatter<W>) -> fmt::Result {
        let words = match self {
            Refusal::PowerOff => "no power",
            Refusal::BadSize => "wrong size",
            Refusal::OutOfRange => "no such place",
            Refusal::Unsettled => "unsettled",
            Refusal::NotBlank => "not blank",
            Refusal::Torn => "torn",
            Refusal::Blank => "blank",
            Refusal::NotHeld => "not held",
            Refusal::Full => "no page to be had",
            Refusal::NoCheckpoint => "no checkpoint",
            Refusal::Breach => "a layout or a rule is broken",
            Refusal::BadGeometry => "wrong number of erase blocks",
        };
        f.write_str(words)
    }
}

impl fmt::Display for Layer {
    fn fmt<W: fmt::Write>(&self, f: &mut fmt::Formatter<W>) -> fmt::Result {
        let words = match self {
            Layer::Chip => "chip",
            Layer::Cache => "cache",
            Layer::Disk => "disk",
            Layer::Tier => "tier",
        };
        f.write_str(words)
    }
}

// The three numbers that identify a fault: its refusal's, its layer's, and the place.
impl fmt::Display for Fault {
    fn fmt<W: fmt::Write>(&self, f: &mut fmt::Formatter<W>) -> fmt::Result {
        let number = self.refusal.number();
        let layer = self.layer.number();
        let place = self.place;
        write!(f, "{number} {layer} {place}")
    }
}
