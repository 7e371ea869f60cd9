// `undo`: the last group is taken back.
ghost use Rattle.std.specs.Prelude.{◌≡◌};
ghost use Rattle.tw_commands.specs.Plan.{plan_view};
ghost use Rattle.tw_commands.specs.Commands as spec;

use crate::plan::{Plan, Show, Work};

/// What `undo` is to do (task(1), "undo").
pub(crate) fn undoing() -> Plan
    ensures { plan_view result ≡ spec.undoing }
{
    Plan {
        work: Work::TakeBack,
        show: Show::TakenBack,
    }
}
