// The choices that the mapping table makes: a page to write, an erase block to reclaim, an erase block to write back.
ghost use Rattle.std.specs.Prelude.{◌≡◌, ℕ, ◌+◌, ◌<◌, ◌≤◌, false, length, slice_index_or};
ghost use Rattle.table.specs.Choices.{FindsRound, Victim, ToWriteBack};
ghost use Rattle.table.specs.Usages.{usage_at, usage_in, one_more, FindsFrom};
ghost use Rattle.table.specs.Views.{table_of, page_number, block_number};

use crate::mapping::MappingTable;
use device::{DataPage, EraseBlock};
use layout::{Geometry, Mark};

// How many pages of an erase block have a mark, and how many of those are dirty.
#[derive(Clone, Copy)]
pub(crate) struct Usage {
    marked: u16,
    dirty: u16,
}

// The first blank page at or after the cursor, going round.
pub fn first_blank(blank: &[bool], cursor: DataPage) -> Option<DataPage>
    requires { length blank.now ≤ 65536 }
    ensures { FindsRound (λ i. slice_index_or blank.now i false) (length blank.now) cursor.0 (page_number result) }
{
    first_from(blank, cursor.0 as usize).or_else(|| first_from(blank, 0))
}

// The first blank page of those from `low` on.
fn first_from(blank: &[bool], low: usize) -> Option<DataPage>
    requires { length blank.now ≤ 65536 }
    ensures { FindsFrom (λ i. slice_index_or blank.now i false) (length blank.now) low (page_number result) }
{
    (low..blank.len())
        .find(|i| blank[*i])
        .map(|i| DataPage(i as u16))
}

impl MappingTable {
    // The erase block to reclaim: of those without a dirty page, the one with the fewest marked pages, the lowest if equal.
    pub fn victim(&self, geometry: Geometry) -> Option<EraseBlock>
        ensures { Victim (table_of self.now) geometry.blocks (block_number result) }
    {
        let usage = self.usage();
        (8..geometry.blocks())
            .filter(|b| usage[*b as usize].dirty == 0)
            .min_by_key(|b| usage[*b as usize].marked)
            .map(EraseBlock)
    }

    // The erase block to write back: the one with the fewest dirty pages, the lowest if equal.
    pub fn to_write_back(&self, geometry: Geometry) -> Option<EraseBlock>
        ensures { ToWriteBack (table_of self.now) geometry.blocks (block_number result) }
    {
        let usage = self.usage();
        (8..geometry.blocks())
            .min_by_key(|b| usage[*b as usize].dirty)
            .map(EraseBlock)
    }

    // What the data pages make of each erase block.
    fn usage(&self) -> [Usage; 64]
        ensures whole { length result ≡ 64 }
        ensures each { (b : ℕ) → b < 64 → usage_at result b ≡ usage_in (table_of self.now) b }
    {
        let mut usage = [Usage {
            marked: 0,
            dirty: 0,
        }; 64];
        for (i, e) in self.entries.iter().enumerate() {
            let block = DataPage(i as u16).chip_page().erase_block();
            let b = block.0 as usize;
            usage[b] = usage[b].with(e.mark);
        }
        usage
    }
}

impl Usage {
    // One page more, with this mark.
    fn with(self, mark: Mark) -> Usage
        requires { (self.marked < 65535) × (self.dirty < 65535) }
        ensures { result ≡ one_more self mark }
    {
        match mark {
            Mark::Empty => self,
            Mark::Clean => Usage {
                marked: self.marked + 1,
                ..self
            },
            Mark::Dirty => Usage {
                marked: self.marked + 1,
                dirty: self.dirty + 1,
            },
        }
    }
}
