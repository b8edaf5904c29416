// That recovery has one answer, and examples of what the trailers' numbers decide: each on the contract of a function.
ghost use Rattle.recovery.specs.Examples.{WorkedExamples};
ghost use Rattle.recovery.specs.RoundTrip.{ReadsBack};
ghost use Rattle.recovery.specs.Answer.{OneAnswer, ZeroFollowsTwo, SameNumberRefused};

// The same chip pages are recovered to one answer only.
pub fn recovery_has_one_answer()
    ensures { OneAnswer }
{}

// Trailers with numbers 2 and 0: the second area is active.
pub fn newer_area_example()
    ensures { ZeroFollowsTwo }
{}

// Trailers with number 1 each: refused at the second one.
pub fn same_numbers_example()
    ensures { SameNumberRefused }
{}

// A written checkpoint and log are read back as the table that they stand for, with torn and blank pages anywhere in the log.
pub fn what_was_written_is_read_back()
    ensures { ReadsBack }
{}

// Worked examples of the formats, of the trailers' numbers and of replay.
pub fn worked_examples()
    ensures { WorkedExamples }
{}
