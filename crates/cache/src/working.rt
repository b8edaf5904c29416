// A cache that works: its chip is formed. It is on, or off with the fault that put or kept it so.
ghost use Rattle.cache.specs.Views.{Working, Sound};

use device::{Chip, Fault};
use engine::Memory;
use std::marker::Model;

pub struct Cache<C: Chip> {
    pub(crate) chip: C,
    pub(crate) memory: Memory,
    pub(crate) off: Option<Fault>,
}

impl<C: Chip> Model for Cache<C> {
    ghost Value = { Working C };

    ghost view = { λ c. record { chip = c.chip; journal = c.memory.journal; space = c.memory.space; off = c.off } };

    ghost invariant = { λ c. Sound (C.Chip.meaning c.chip) c.memory c.off };
}
