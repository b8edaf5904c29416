// The laws of chips and disks, each on the contract of a function, so that a crate without their proof is refused.
ghost use Rattle.device.specs.Laws.{ChipReads, DiskReads, SyncsSettle, ChipCuts, DiskCuts};

// What each page reads after a call.
pub fn chip_reads_after_a_call()
    ensures { ChipReads }
{}

// What each block reads after a call.
pub fn disk_reads_after_a_call()
    ensures { DiskReads }
{}

// After a served sync of a chip or a disk everything is settled.
pub fn served_syncs_settle_everything()
    ensures { SyncsSettle }
{}

// Whatever a call of a chip answered, a later power cut leaves nothing but what it may leave of the chip as the call wanted it.
pub fn chip_cuts_stay_within_what_was_wanted()
    ensures { ChipCuts }
{}

// The same of a disk.
pub fn disk_cuts_stay_within_what_was_wanted()
    ensures { DiskCuts }
{}
