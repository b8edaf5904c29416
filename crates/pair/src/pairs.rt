// A chip made of two chips: the first one's erase blocks, then the second's.
ghost use Rattle.std.specs.Prelude.{◌≡◌, true};
ghost use Rattle.device.specs.Chips.{page_count, Reads, Programs, Erases, Syncs, Powers};
ghost use Rattle.pair.specs.Halves.{Joined, Paired, PageLies, BlockLies};

use super::halves::{Half, at_place, pages, still_on};
use device::{Chip, ChipPage, EraseBlock, Fault, Layer, Note, Refusal};
use std::marker::Model;

// Two chips as one. It is on or off by itself: off as it is made, whatever its halves are.
#[derive(Drop)]
pub struct ChipPair<P: Chip, Q: Chip> {
    first: P,
    second: Q,
    on: bool,
}

impl<P: Chip, Q: Chip> Model for ChipPair<P, Q> {
    ghost Value = { Joined P Q };

    ghost view = { λ c. record { first = c.first; second = c.second; on = c.on } };

    ghost invariant = { λ c. Paired c.on (P.Chip.meaning c.first) (Q.Chip.meaning c.second) };
}

// Why two chips are not joined, with both of them.
#[derive(Drop)]
pub struct TooLarge<P, Q> {
    pub fault: Fault,
    pub first: P,
    pub second: Q,
}

impl<P: Chip, Q: Chip> ChipPair<P, Q> {
    ghost use Rattle.pair.specs.Pairs.{PairMade, PairOpens};

    // Joins two chips, or gives both back if they have more than 64 erase blocks.
    pub fn new(first: P, second: Q) -> Result<ChipPair<P, Q>, TooLarge<P, Q>>
        ensures made { PairMade P.Chip.meaning Q.Chip.meaning first second result }
        ensures opens { PairOpens P.Chip.meaning Q.Chip.meaning first second result }
    {
        if first.blocks() + second.blocks() > 64 {
            let fault = Refusal::BadGeometry.at(Layer::Chip, 0);
            return Err(TooLarge {
                fault,
                first,
                second,
            });
        }
        Ok(ChipPair {
            first,
            second,
            on: false,
        })
    }

    // Gives the two chips back.
    pub fn retire(self) -> (P, Q)
        ensures { (result.0 ≡ self.first) × (result.1 ≡ self.second) }
    {
        let ChipPair {
            first,
            second,
            on: _,
        } = self;
        (first, second)
    }

    // Where a page lies.
    fn half_of(&self, page: ChipPage) -> Half<ChipPage>
        ensures { PageLies (page_count (P.Chip.meaning self.now.first)) page.0 result }
    {
        let seam = pages(&self.first);
        if page.0 < seam {
            Half::First(page)
        } else {
            Half::Second(ChipPage(page.0 - seam))
        }
    }

    // Where an erase block lies. One function for both would take bare numbers, which is no plainer:
    // it would lose which kind of place it is given.
    fn half_of_block(&self, block: EraseBlock) -> Half<EraseBlock>
        ensures { BlockLies (P.Chip.meaning self.now.first).size block.0 result }
    {
        let seam = self.first.blocks();
        if block.0 < seam {
            Half::First(block)
        } else {
            Half::Second(EraseBlock(block.0 - seam))
        }
    }
}

impl<P: Chip, Q: Chip> Chip for ChipPair<P, Q> {
    ghost use Rattle.pair.specs.Pairs.{pair_meaning, InTurn};

    ghost meaning = { pair_meaning P.Chip.meaning Q.Chip.meaning };

    fn blocks(&self) -> u32 {
        self.first.blocks() + self.second.blocks()
    }

    fn read(&mut self, page: ChipPage, buf: &mut [u8]) -> Result<Note, Fault>
        ensures sound { Paired self.new.on (P.Chip.meaning self.new.first) (Q.Chip.meaning self.new.second) }
        ensures rules { Reads (pair_meaning P.Chip.meaning Q.Chip.meaning self.old) page.0 buf.old result buf.new (pair_meaning P.Chip.meaning Q.Chip.meaning self.new) }
    {
        if !self.on {
            return Err(Refusal::PowerOff.at(Layer::Chip, page.0));
        }
        let answer = match self.half_of(page) {
            Half::First(own) => self.first.read(own, buf),
            Half::Second(own) => self.second.read(own, buf),
        };
        self.on = still_on(&answer);
        at_place(answer, page.0)
    }

    fn program(&mut self, page: ChipPage, note: Note, bytes: &[u8]) -> Result<(), Fault>
        ensures sound { Paired self.new.on (P.Chip.meaning self.new.first) (Q.Chip.meaning self.new.second) }
        ensures rules { Programs (pair_meaning P.Chip.meaning Q.Chip.meaning self.old) page.0 note bytes.now result (pair_meaning P.Chip.meaning Q.Chip.meaning self.new) }
    {
        if !self.on {
            return Err(Refusal::PowerOff.at(Layer::Chip, page.0));
        }
        let answer = match self.half_of(page) {
            Half::First(own) => self.first.program(own, note, bytes),
            Half::Second(own) => self.second.program(own, note, bytes),
        };
        self.on = still_on(&answer);
        at_place(answer, page.0)
    }

    fn erase(&mut self, block: EraseBlock) -> Result<(), Fault>
        ensures sound { Paired self.new.on (P.Chip.meaning self.new.first) (Q.Chip.meaning self.new.second) }
        ensures rules { Erases (pair_meaning P.Chip.meaning Q.Chip.meaning self.old) block.0 result (pair_meaning P.Chip.meaning Q.Chip.meaning self.new) }
    {
        if !self.on {
            return Err(Refusal::PowerOff.at(Layer::Chip, block.0));
        }
        let answer = match self.half_of_block(block) {
            Half::First(own) => self.first.erase(own),
            Half::Second(own) => self.second.erase(own),
        };
        self.on = still_on(&answer);
        at_place(answer, block.0)
    }

    // The first half, then the second, which is not reached if the first loses power.
    fn sync(&mut self) -> Result<(), Fault>
        ensures sound { Paired self.new.on (P.Chip.meaning self.new.first) (Q.Chip.meaning self.new.second) }
        ensures rules { Syncs (pair_meaning P.Chip.meaning Q.Chip.meaning self.old) result (pair_meaning P.Chip.meaning Q.Chip.meaning self.new) }
        ensures turn { self.old.on ≡ true → InTurn P.Chip.meaning Q.Chip.meaning Syncs self.old result self.new }
    {
        if !self.on {
            return Err(Refusal::PowerOff.at(Layer::Chip, 0));
        }
        let answer = match self.first.sync() {
            Ok(()) => self.second.sync(),
            refused => refused,
        };
        self.on = still_on(&answer);
        answer
    }

    // The first half, then the second, which is not reached if the first loses power.
    #[tactic(auto, using(crate::proofs::Staging::powers_first, crate::proofs::Staging::powers_in_turn))]
    fn power_on(&mut self) -> Result<(), Fault>
        ensures sound { Paired self.new.on (P.Chip.meaning self.new.first) (Q.Chip.meaning self.new.second) }
        ensures rules { Powers (pair_meaning P.Chip.meaning Q.Chip.meaning self.old) result (pair_meaning P.Chip.meaning Q.Chip.meaning self.new) }
        ensures turn { InTurn P.Chip.meaning Q.Chip.meaning Powers self.old result self.new }
    {
        let answer = match self.first.power_on() {
            Ok(()) => self.second.power_on(),
            refused => refused,
        };
        self.on = answer.is_ok();
        answer
    }
}
