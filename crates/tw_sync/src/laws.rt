//! Laws of chains, positions and ends of a sync. Each function does nothing: its contract is the law.
ghost use Rattle.tw_sync.specs.Laws.{NewReplicaAgrees, AgreesIsKept, FoldIsOne, PendingActsOnTheFold, AgreeingReplicasAreEqual, SentIsSound};
ghost use Rattle.tw_sync.specs.Laws.{AddedWasSent};
ghost use Rattle.tw_sync.specs.Laws.LaterOps.{CommitKeepsLaterOps, UndoStaysBehind, SentForFollowing};
ghost use Rattle.tw_sync.specs.Theorem.{ReachedIsGood, ReachedFollows};
ghost use Rattle.tw_sync.specs.Way.Positions.{ChainStarts, ChainPulls, ChainFits, ChainPushes, OwnVersionsCancelAt, OwnVersionCancelsIn};
ghost use Rattle.tw_sync.specs.Way.Positions.{OwnVersionsCancelEachTime};
ghost use Rattle.tw_sync.specs.Laws.LocalSteps.{CommitAgrees, UndoAgrees};

/// A new replica agrees with every chain.
pub fn a_new_replica_agrees()
    ensures { NewReplicaAgrees }
{}

/// A replica that agrees with a chain agrees with it when it has grown.
pub fn agrees_is_kept()
    ensures { AgreesIsKept }
{}

/// A chain is folded to a version in one way.
pub fn fold_is_one()
    ensures { FoldIsOne }
{}

/// The tasks of a replica that agrees with a chain are the chain folded to its base, then what is pending.
pub fn pending_acts_on_the_fold()
    ensures { PendingActsOnTheFold }
{}

/// Replicas that agree with one chain, have one base and have nothing pending hold the same tasks,
/// and so print the same export.
pub fn agreeing_replicas_are_equal()
    ensures { AgreeingReplicasAreEqual }
{}

/// The tasks of a replica that agrees with a chain, and in which nothing is pending, are the chain folded to its base: a sound snapshot.
pub fn what_is_sent_is_sound()
    ensures { SentIsSound }
{}

/// With no version pulled the local list is left as it is.
pub fn chain_starts()
    ensures { ChainStarts }
{}

/// One version more is pulled over what was left.
pub fn chain_pulls()
    ensures { ChainPulls }
{}

/// What is left fits the chain folded to the version up to which was pulled.
pub fn chain_fits()
    ensures { ChainFits }
{}

/// A version that is added after a chain acts on the fold of the chain.
pub fn chain_pushes()
    ensures { ChainPushes }
{}

/// If what was sent comes back, of later operations the rest is left, and of those that were sent none.
pub fn own_versions_cancel_at()
    ensures { OwnVersionsCancelAt }
{}

/// If the version that a refused sync added is pulled, nothing is left of what it was made from.
pub fn own_version_cancels_in()
    ensures { OwnVersionCancelsIn }
{}

/// After any number of refused syncs whose versions were added, each sends what is left of the operations
/// since the one before, and none of them again.
pub fn own_versions_cancel_each_time()
    ensures { OwnVersionsCancelEachTime }
{}

/// Each version that a sync added, whatever it answered, is one that was sent: of what was pending when it began, its
/// first operations up to the last that the version holds. Once it is pulled, nothing of them is left.
pub fn what_was_added_was_sent()
    ensures { AddedWasSent }
{}

/// A commit of a group leaves a replica in agreement with the chains that it agreed with.
pub fn commit_agrees()
    ensures { CommitAgrees }
{}

/// An undo leaves a replica in agreement with the chains that it agreed with.
pub fn undo_agrees()
    ensures { UndoAgrees }
{}

/// A commit puts its operations after what was pending and what came later.
pub fn a_commit_follows()
    ensures { CommitKeepsLaterOps }
{}

/// An undo that does not reach into what was pending leaves it, and a part of what came later.
pub fn an_undo_stays_behind()
    ensures { UndoStaysBehind }
{}

/// What was sent up to a version stays so, after any commits, and undos that do not reach into what was pending then.
pub fn what_was_sent_stays_sent()
    ensures { SentForFollowing }
{}

/// In every world that any runs, crashes, lost and repeated requests and other clients lead to from empty disks,
/// each replica that a machine's disk may open to agrees with the server's chain.
pub fn every_reached_world_is_good()
    ensures { ReachedIsGood }
{}

/// In such a world the tasks of each replica are the server's chain folded to its base, then what is pending.
pub fn every_reached_replica_follows_the_chain()
    ensures { ReachedFollows }
{}
