// Power that fails where a fuse says: how many programs, writes, erases and syncs are served after a power-on.
ghost use Rattle.std.specs.Prelude.{◌≡◌, ◌<◌, ◌==◌, cond, true, Some, None, Option, OnOk, IfErr, nat_lt};
ghost use Rattle.device.specs.declared.faults.Fault.{Fault};
ghost use Rattle.device.specs.declared.faults.Refusal.TheVariants.{PowerOff};
ghost use Rattle.device.specs.Calls.{in_order};
ghost use Rattle.image.specs.Exact.{supply, new_supply, powered, next_fuse, later_fuses, fault_at, Allows, Burns};

use device::{Fault, Layer, Refusal};

// The bytes of a page or of a block, and so of each buffer.
pub const SIZE: usize = 512;

// Whether power is on, what the present fuse has left, and the fuses of the power-ons to come. Without a fuse power does not fail.
#[derive(Drop)]
pub struct Power<'a> {
    pub(crate) on: bool,
    pub(crate) left: Option<u32>,
    pub(crate) rest: &'a [u32],
}

impl<'a> Power<'a> {
    // Off, with no power-on behind it.
    pub fn off(fuses: &'a [u32]) -> Power<'a>
        ensures { supply result ≡ new_supply fuses.now }
    {
        Power {
            on: false,
            left: None,
            rest: fuses,
        }
    }

    // Refuses a call while power is off.
    pub fn needed(&self, layer: Layer, place: u32) -> Result<(), Fault>
        ensures { Allows (cond self.now.on None (Some (fault_at layer place PowerOff))) result }
    {
        if self.on {
            Ok(())
        } else {
            Err(Refusal::PowerOff.at(layer, place))
        }
    }

    // Refuses a call while power is off, then one with a buffer of a wrong size, then one past the last place: whatever is there.
    pub fn allows(&self, layer: Layer, place: u32, len: usize, count: u32) -> Result<(), Fault>
        ensures ok { OnOk result ((self.now.on ≡ true) × (len ≡ 512) × (place < count)) }
        ensures err { (there : Option Fault) → IfErr result (λ f. in_order self.now.on (fault_at layer place PowerOff) (len == 512) (nat_lt place count) (fault_at layer place) there ≡ Some f) }
    {
        self.needed(layer, place)?;
        if len != SIZE {
            return Err(Refusal::BadSize.at(layer, place));
        }
        if place >= count {
            return Err(Refusal::OutOfRange.at(layer, place));
        }
        Ok(())
    }

    // One call less to come, or power fails.
    pub fn burn(&mut self, layer: Layer, place: u32) -> Result<(), Fault>
        ensures { Burns (fault_at layer place PowerOff) (supply self.old) result (supply self.new) }
    {
        if self.left == Some(0) {
            self.on = false;
            return Err(Refusal::PowerOff.at(layer, place));
        }
        self.left = self.left.map(|n| n.saturating_sub(1));
        Ok(())
    }

    // The next fuse, taken off those to come.
    fn take_next(&mut self) -> Option<u32>
        ensures next { result ≡ next_fuse self.old.rest.now }
        ensures rest { supply self.new ≡ record { on = self.old.on; left = self.old.left; rest = later_fuses self.old.rest.now } }
    {
        let (next, later) = self.rest.split_first()?;
        self.rest = later;
        Some(*next)
    }

    // Power, with the next fuse.
    pub fn turn_on(&mut self)
        ensures { supply self.new ≡ powered (supply self.old) }
    {
        self.left = self.take_next();
        self.on = true;
    }
}
