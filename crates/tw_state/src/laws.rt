//! Laws of what records stand for. Each is the contract of a function that does nothing.
ghost use Rattle.tw_state.specs.Pending.{PendingBeginsWithPoint};
ghost use Rattle.tw_state.specs.Sound.{StandsIsSound, SoundIsTested, LeadingMayPend, FittingMayBeCarried};
ghost use Rattle.tw_state.specs.Sound.{UndoLeadsBack, CheckpointLeads};

/// In every state that records lead to, the pending operations fit and lead to the tasks, and the open tasks have one number each.
pub fn what_records_stand_for_is_sound()
    ensures { StandsIsSound }
{}

/// Soundness can be tested by one walk over the pending operations, from the last to the first, and a look at the numbers.
pub fn soundness_is_tested()
    ensures { SoundIsTested }
{}

/// Operations that begin with an undo point, fit some tasks and lead from them to others may be pending on these.
pub fn operations_that_lead_to_tasks_may_pend()
    ensures { LeadingMayPend }
{}

/// Operations of versions that fit the tasks at hand may be carried.
pub fn operations_that_fit_may_be_carried()
    ensures { FittingMayBeCarried }
{}

/// An undo leads to the tasks that the operations before the last undo point make of those before pending.
pub fn an_undo_leads_back()
    ensures { UndoLeadsBack }
{}

/// In every state that records lead to, there are no pending operations, or the first is an undo point.
pub fn pending_begins_with_an_undo_point()
    ensures { PendingBeginsWithPoint }
{}

/// The step that holds a whole state leads to that state, whatever the records before it lead to.
pub fn a_checkpoint_leads_to_its_state()
    ensures { CheckpointLeads }
{}
