// `purge`: a deleted task is removed.
ghost use Rattle.std.specs.Prelude.{◌≡◌};
ghost use Rattle.tw_changes.specs.Effects.Purge as spec;

use crate::effects::Effect;
use tw_model::TaskMap;
use tw_urgency::{Status, status_of};
use tw_world::Moment;

/// What `purge` makes of a task (task(1), "purge").
pub(crate) fn purge(now: Moment, task: &TaskMap) -> Effect
    ensures { result ≡ spec.purge now task.now }
{
    match status_of(task, now.seconds) {
        Status::Deleted => Effect::Removed,
        _ => Effect::Nothing,
    }
}
