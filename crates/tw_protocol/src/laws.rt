//! Laws over chains and answers. Each function does nothing: its contract is the law.
ghost use Rattle.tw_protocol.specs.Laws.{AnswerKeepsChain, AnswerGrows, AnswerDrawsOnce, ChildIsFound, RepeatConflicts};
ghost use Rattle.tw_protocol.specs.Laws.{RowIsSplitOnce, BetweenIsOne, BetweenJoins};
ghost use Rattle.tw_protocol.specs.SnapshotLaws.{ResponseKeepsAccount, ResponseGrows, StoredRises, ResponseDrawsOnce};

/// An answer leaves a chain a chain, and its own id becomes one of the chain's only if it is no nil uuid.
pub fn answer_keeps_chain()
    ensures { AnswerKeepsChain }
{}

/// An answer only adds at the end of the chain.
pub fn answer_grows()
    ensures { AnswerGrows }
{}

/// Only an add-version that is accepted looks at the id that it gets.
pub fn answer_draws_once()
    ensures { AnswerDrawsOnce }
{}

/// What get-child-version answers: the child of the parent, that there is none yet, or that the chain
/// does not know the parent.
pub fn child_is_found()
    ensures { ChildIsFound }
{}

/// A parent is accepted once: a second add-version with it conflicts, however the chain grew since.
pub fn repeat_conflicts()
    ensures { RepeatConflicts }
{}

/// A chain is cut after a version in one way alone.
pub fn row_is_split_once()
    ensures { RowIsSplitOnce }
{}

/// The versions after one up to another are one list.
pub fn between_is_one()
    ensures { BetweenIsOne }
{}

/// What lies between two versions, and what lies between the second and a third, join.
pub fn between_joins()
    ensures { BetweenJoins }
{}

/// A response leaves an account: a chain, and a stored snapshot of a version of it.
pub fn response_keeps_account()
    ensures { ResponseKeepsAccount }
{}

/// A response only adds at the end of the chain.
pub fn response_grows()
    ensures { ResponseGrows }
{}

/// A stored snapshot gives way to none of an earlier version.
pub fn stored_rises()
    ensures { StoredRises }
{}

/// Only an accepted add-version looks at the id that it gets.
pub fn response_draws_once()
    ensures { ResponseDrawsOnce }
{}
