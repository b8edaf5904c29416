// What changes the mapping table: a page that enters an address, an address that is dropped or marked clean, and records.
ghost use Rattle.std.specs.Prelude.{◌≡◌, [], ◌∷◌, Some, None, is_ok};
ghost use Rattle.table.specs.Tables.{empty_table, held, without, cleaned, replayed};
ghost use Rattle.table.specs.Examples.{drop_five, after_puts, after_drop, AfterTwoPuts};
ghost use Rattle.table.specs.Views.{table_of, entry_with, remarked, may_enter, enters, Turns, Applies};

use crate::mapping::MappingTable;
use device::{DataPage, DiskAddress};
use layout::{Entry, Mark, Record};

// A record that does not fit the table.
#[derive(Clone, Copy)]
pub struct Breach;

impl MappingTable {
    // Empties the page that holds the address, or refuses an address that no page holds.
    pub fn empty_address(&mut self, address: DiskAddress) -> Result<(), Breach>
        ensures was { is_ok result ≡ held (table_of self.old) address.0 }
        ensures after { table_of self.new ≡ without (table_of self.old) address.0 }
    {
        self.remark(address, Mark::Empty)
    }

    // Marks the page that holds the address clean, or refuses an address that no page holds.
    pub fn mark_clean(&mut self, address: DiskAddress) -> Result<(), Breach>
        ensures was { is_ok result ≡ held (table_of self.old) address.0 }
        ensures after { table_of self.new ≡ cleaned (table_of self.old) address.0 }
    {
        self.remark(address, Mark::Clean)
    }

    // Gives the page that holds the address this mark, or refuses an address that no page holds.
    fn remark(&mut self, address: DiskAddress, mark: Mark) -> Result<(), Breach>
        ensures was { is_ok result ≡ held (table_of self.old) address.0 }
        ensures after { table_of self.new ≡ remarked (table_of self.old) mark address.0 }
    {
        let page = self.find(address).ok_or(Breach)?;
        self.entries[page.0 as usize] = entry_with(mark, address);
        Ok(())
    }

    // Whether the page may enter an address with this mark.
    fn may_enter(&self, page: DataPage, mark: Mark) -> bool
        ensures { result ≡ may_enter (table_of self.now) page.0 mark }
    {
        mark != Mark::Empty && page.0 < self.len() && self.entry(page).mark == Mark::Empty
    }

    // Has an unmarked page of the table hold the address, in place of the page that held it, if one did. Refuses, and changes nothing, where the page or the
    // mark does not do.
    pub fn enter(&mut self, page: DataPage, mark: Mark, address: DiskAddress) -> Result<(), Breach>
        ensures { Turns (table_of self.old) (enters (table_of self.old) page.0 mark address.0) result (table_of self.new) }
    {
        if !self.may_enter(page, mark) {
            return Err(Breach);
        }
        let _ = self.empty_address(address);
        self.entries[page.0 as usize] = Entry { mark, address };
        Ok(())
    }

    // Does what the record says, or refuses a record that does not fit the table.
    pub fn apply(&mut self, record: Record) -> Result<(), Breach>
        ensures { Applies (table_of self.old) «record» result (table_of self.new) }
    {
        match record {
            Record::PutClean(page, address) => self.enter(page, Mark::Clean, address),
            Record::PutDirty(page, address) => self.enter(page, Mark::Dirty, address),
            Record::Drop(address) => self.empty_address(address),
            Record::MarkClean(address) => self.mark_clean(address),
        }
    }
}

// The entry of a page with this mark for an address, which it has only with a mark.
fn entry_with(mark: Mark, address: DiskAddress) -> Entry
    ensures { result ≡ entry_with mark address.0 }
{
    match mark {
        Mark::Empty => Entry::EMPTY,
        Mark::Clean | Mark::Dirty => Entry { mark, address },
    }
}

// From an empty table: a put clean and a put dirty of one address, then a drop of it, then another.
pub fn replay_examples()
    ensures puts { AfterTwoPuts after_puts }
    ensures dropped { after_drop ≡ Some (empty_table 32) }
    ensures again { replayed after_drop (drop_five ∷ []) ≡ None }
{}
