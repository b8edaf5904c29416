// That pages of the mapping table can be read in one way only, each law on the contract of a function.
ghost use Rattle.layout.specs.Laws.{OneCheckpoint, OneLog};

// Proper tables with the same checkpoint pages are the same table.
pub fn checkpoints_read_one_way()
    ensures { OneCheckpoint }
{}

// Proper records with the same log page are the same records.
pub fn log_pages_read_one_way()
    ensures { OneLog }
{}
