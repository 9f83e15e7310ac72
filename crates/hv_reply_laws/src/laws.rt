//! Laws of entries that may happen, each the contract of a function that does nothing.
ghost use Rattle.hv_reply_laws.specs.Replied.{MemoryShownEndsWithin, StepsAreRepliedTo, StepsBringRegions};

/// The reply to a step of a terminal is one to that step: a script is opened by a run alone, with as
/// many lines as were handed over, and a slot is given by a claim alone. Each guest that a step shows,
/// claims or turns is in one of the board's slots.
pub fn steps_are_replied_to()
    ensures { StepsAreRepliedTo }
{}

/// What a step on a region brings to its terminal is of the board: a row of a guest, whose interrupts
/// go to another one, if to any.
pub fn steps_bring_regions_of_the_board()
    ensures { StepsBringRegions }
{}

/// The bytes that a look at memory shows end within the numbers of an address, where windows do.
pub fn memory_shown_ends_within()
    ensures { MemoryShownEndsWithin }
{}
