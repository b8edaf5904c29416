// How many pages have a mark.
ghost use Rattle.std.specs.Prelude.{◌≡◌};
ghost use Rattle.chipdump.specs.Tallies.{marked_as};

use layout::{Entry, Mark};

// How many of the entries have this mark.
pub(super) fn tally(entries: &[Entry], mark: Mark) -> usize
    ensures { result ≡ marked_as mark entries.now }
{
    entries.iter().filter(|entry| entry.mark == mark).count()
}
