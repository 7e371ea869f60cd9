//! Laws of the ends of a sync. Each function does nothing: its contract is the law.
ghost use Rattle.tw_outcome.specs.Laws.{StartStandsBeside, DoneIsSynced, DoneIsCarried, StoppedIsPartly, CarriedFits};
ghost use Rattle.tw_outcome.specs.Laws.{StoppedStartsThere, SnapshotLeadsOn, SnapshotEndsAlike, NewReplicasEndAlike, EndAgrees};

/// The path of a sound replica starts beside its tasks.
pub fn start_stands_beside()
    ensures { StartStandsBeside }
{}

/// If nothing is left, all operations of the versions lead to the end of the path.
pub fn done_is_synced()
    ensures { DoneIsSynced }
{}

/// If nothing is left, what is carried leads there on the tasks at hand.
pub fn done_is_carried()
    ensures { DoneIsCarried }
{}

/// If something is left, what is carried and what is pending there lead to the replica there.
pub fn stopped_is_partly()
    ensures { StoppedIsPartly }
{}

/// What is carried fits the tasks at hand, over any link.
pub fn carried_fits()
    ensures { CarriedFits }
{}

/// A replica that is stopped somewhere starts its next path there.
pub fn stopped_starts_there()
    ensures { StoppedStartsThere }
{}

/// On a path from a snapshot nothing is left, and what is carried leads from its tasks to those at its end.
pub fn snapshot_leads_on()
    ensures { SnapshotLeadsOn }
{}

/// A sync from a snapshot is done where it is stopped.
pub fn snapshot_ends_alike()
    ensures { SnapshotEndsAlike }
{}

/// A new replica that begins at a sound snapshot ends as one that folds from the first version: at one version both have the same base, pending
/// operations, tasks and numbers.
pub fn new_replicas_end_alike()
    ensures { NewReplicasEndAlike }
{}

/// A sync of a replica that agrees with the chain, from its base or from a sound snapshot, leaves one that agrees with it, whatever it answers.
pub fn end_agrees()
    ensures { EndAgrees }
{}
