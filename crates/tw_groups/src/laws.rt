//! Laws of groups. Each function does nothing: its contract is the law.
ghost use Rattle.tw_groups.specs.Laws.{GroupsHoldAll, RenewedFits, RenewedGoesBack, RenewedIsOfGroups, PendingIsRenewed};
ghost use Rattle.tw_groups.specs.Laws.{CrossIsGrid, CutSplits, CutIsFirst, CrossAppends, CrossApart, CutOfAll};

/// The groups of pending operations hold all that is exchanged.
pub fn groups_hold_all()
    ensures { GroupsHoldAll }
{}

/// Groups that fit become pending operations that fit.
pub fn renewed_fits()
    ensures { RenewedFits }
{}

/// Taking these back leads to the tasks before.
pub fn renewed_goes_back()
    ensures { RenewedGoesBack }
{}

/// Their groups are those that they were made of.
pub fn renewed_is_of_groups()
    ensures { RenewedIsOfGroups }
{}

/// Pending operations that fit are what their groups become.
pub fn pending_is_renewed()
    ensures { PendingIsRenewed }
{}

/// Crossing groups is the grid with all they hold.
pub fn cross_is_grid()
    ensures { CrossIsGrid }
{}

/// What is sent first and what is left are all there is.
pub fn cut_splits()
    ensures { CutSplits }
{}

/// The longest row of whole groups within the limit is sent first, or the longest row of operations of one group.
pub fn cut_is_first()
    ensures { CutIsFirst }
{}

/// The operations of a version may cross in two parts.
pub fn cross_appends()
    ensures { CrossAppends }
{}

/// An operation about no task of the groups changes none of them.
pub fn cross_apart()
    ensures { CrossApart }
{}

/// Without a limit all is sent at once.
pub fn cut_of_all()
    ensures { CutOfAll }
{}
