// What a power cut can do to the mapping table on a chip, step by step: pure laws, each on the contract of a function.
#![tactic(auto)]

ghost use Rattle.std.specs.Prelude.{ℕ, ◌≤◌};
ghost use Rattle.crash.specs.Crash.{SafeSteps};
ghost use Rattle.crash.specs.Examples.{OneSyncExample, EraseFirstExample};
ghost use Rattle.crash.specs.Orders.{OneSyncLoses, EraseFirstLoses, StoppingLoses, StoppingLosesSeven};

// Each step of a commit, a checkpoint and a reclaim keeps the table that the chip holds, or leaves the old one or the new one.
pub fn steps_are_safe()
    ensures { (D : ℕ) → D ≤ 448 → SafeSteps D }
{}

// A log page that is programmed while a data page that it marks is unsettled can lose both tables.
pub fn log_and_data_under_one_sync_lose()
    ensures { (D : ℕ) → D ≤ 448 → OneSyncLoses D }
{}

// An erase of a block with a page that the table still marks loses the table.
pub fn erase_before_commit_loses()
    ensures { (D : ℕ) → EraseFirstLoses D }
{}

// A replay that stops at a torn log page loses what was committed behind it.
pub fn stopping_at_a_torn_page_loses()
    ensures { (D : ℕ) → D ≤ 448 → StoppingLoses D }
{}

// For example, it loses the one block that a log holds behind a torn page.
pub fn torn_page_example()
    ensures { StoppingLosesSeven }
{}

// A chip that holds the empty table, and then neither that nor the next one.
pub fn one_sync_example()
    ensures { OneSyncExample }
{}

// A chip that holds a table of one block, and then does not.
pub fn erase_first_example()
    ensures { EraseFirstExample }
{}
