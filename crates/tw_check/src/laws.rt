//! Laws of what is looked at and saved. Each is the contract of a function that does nothing.
ghost use Rattle.tw_check.specs.Look.{OpensToOneState};
ghost use Rattle.tw_check.specs.Whole.{NoHoursAreLeftOut, NothingWholeIsLeftOut};

/// A journal opens to one state at most. So what is told of a journal is told of each state that it opens to.
pub fn a_journal_opens_to_one_state()
    ensures { OpensToOneState }
{}

/// No whole record of tasks before the damage is left out of what is saved, if its step and those of the records before it lead to a state.
pub fn nothing_whole_is_left_out()
    ensures { NothingWholeIsLeftOut }
{}

/// No whole record of hours before the damage is left out of what is saved.
pub fn no_hours_are_left_out()
    ensures { NoHoursAreLeftOut }
{}
