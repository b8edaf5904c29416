// A cache on a chip that is not known to be formed. It takes form and adopt only.
ghost use Rattle.std.specs.Prelude.{◌≡◌, Some, None};
ghost use Rattle.engine.specs.declared.memory.Memory.{Memory};
ghost use Rattle.cache.specs.Views.{Bare, BareSound, ReadyToOpen};
ghost use Rattle.cache.specs.Caches.{IsSound, Granted, FormCall, AdoptCall, Opens};

use crate::working::Cache;
use device::{Chip, Fault};
use engine::Memory;
use layout::Geometry;
use std::marker::Model;

pub struct BareCache<C: Chip> {
    pub(crate) chip: C,
    // what a form or an adopt found, once it was served
    pub(crate) memory: Option<Memory>,
    // the number of the last permit
    pub(crate) number: u32,
}

impl<C: Chip> Model for BareCache<C> {
    ghost Value = { Bare C };

    ghost view = { λ b. record { chip = b.chip; memory = b.memory; number = b.number } };

    ghost invariant = { λ b. BareSound (C.Chip.meaning b.chip) b.memory };
}

// What a served form or adopt grants: `open` takes it. It cannot be let go.
pub struct Permit {
    pub(crate) number: u32,
}

impl<C: Chip> BareCache<C> {
    // A bare cache on this chip.
    pub fn new(chip: C) -> BareCache<C>
        ensures chip { result.chip ≡ chip }
        ensures none { result.memory ≡ None }
    {
        BareCache {
            chip,
            memory: None,
            number: 0,
        }
    }

    // Powers the chip on and forms it: what it held is gone. One function over a closure for this and for `adopt` would be no plainer: they
    // differ in one call, and its contract would have to speak of what the closure may do.
    pub fn form(&mut self) -> Result<Permit, Fault>
        ensures ready { BareSound (C.Chip.meaning self.new.chip) self.new.memory }
        ensures forms { FormCall C.Chip.meaning self.old result self.new }
    {
        let geometry = Geometry::new(self.chip.blocks())?;
        self.memory = None; // nothing is granted until the form is served
        let memory = Memory::begin(&mut self.chip, geometry)?;
        Ok(self.grant(memory))
    }

    // Powers the chip on and recovers the table that it holds.
    pub fn adopt(&mut self) -> Result<Permit, Fault>
        ensures ready { BareSound (C.Chip.meaning self.new.chip) self.new.memory }
        ensures adopts { AdoptCall C.Chip.meaning self.old result self.new }
    {
        let geometry = Geometry::new(self.chip.blocks())?;
        self.memory = None; // nothing is granted until the adopt is served
        let memory = Memory::wake(&mut self.chip, geometry)?;
        Ok(self.grant(memory))
    }

    // Keeps what was found, and grants a permit for it.
    fn grant(&mut self, memory: Memory) -> Permit
        requires { ReadyToOpen (C.Chip.meaning self.old.chip) memory }
        ensures chip { self.new.chip ≡ self.old.chip }
        ensures memory { self.new.memory ≡ Some memory }
        ensures granted { result.number ≡ self.new.number }
    {
        self.number = self.number.wrapping_add(1);
        self.memory = Some(memory);
        Permit {
            number: self.number,
        }
    }

    // A working cache. It cannot be refused: this very cache granted the permit.
    pub fn open(self, permit: Permit) -> Cache<C>
        requires granted { Granted C.Chip.meaning self permit }
        ensures sound { IsSound C.Chip.meaning result }
        ensures ready { BareSound (C.Chip.meaning self.chip) self.memory }
        ensures opens { (w : Memory) → self.memory ≡ Some w → Opens C.Chip.meaning self w result }
    {
        let Permit { number: _ } = permit;
        let BareCache {
            chip,
            memory,
            number: _,
        } = self;
        let Some(memory) = memory else { unreachable() };
        Cache {
            chip,
            memory,
            off: None,
        }
    }

    // Gives the chip back; it is never refused.
    pub fn retire(self) -> C
        ensures { result ≡ self.chip }
    {
        let BareCache {
            chip,
            memory: _,
            number: _,
        } = self;
        chip
    }
}
