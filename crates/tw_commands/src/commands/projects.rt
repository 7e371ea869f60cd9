// `projects` and `tags`: the names that pending tasks have. Both count them in the same rows.
ghost use Rattle.std.specs.Prelude.{◌≡◌, IfOk};
ghost use Rattle.tw_replica.specs.Replica.{held_state};
ghost use Rattle.tw_commands.specs.Plan.{plan_view};
ghost use Rattle.tw_commands.specs.Looks.Projects as spec;

use crate::commands::count::looking;
use crate::commands::report::rows_of;
use crate::plan::Plan;
use crate::request::{selected, view_of};
use std::alloc::Global;
use tw_changes::Request;
use tw_replica::Replica;
use tw_report::{Report, projects_text, tags_text};
use tw_world::Memory;
use uuid::Uuid;

// Those of the selected tasks that are pending.
fn pending(alloc: Global, request: &Request<'_>, replica: &Replica) -> Result<Vec<Uuid>, Memory>
    ensures { IfOk result (λ rows. rows.items ≡ spec.pending_in request.now (held_state replica.now)) }
{
    let rows = selected(alloc, request, replica)?;
    rows_of(
        alloc,
        Report::List,
        replica.tasks(),
        request.at.seconds,
        &rows,
    )
}

/// What `projects` is to do (task(1), "projects").
pub(crate) fn projecting(
    alloc: Global,
    request: &Request<'_>,
    replica: &Replica,
) -> Result<Plan, Memory>
    ensures { IfOk result (λ plan. plan_view plan ≡ spec.projecting request.now (held_state replica.now)) }
{
    let rows = pending(alloc, request, replica)?;
    let view = view_of(request, replica);
    let text = projects_text(alloc, &rows, &view)?;
    Ok(looking(alloc, text))
}

/// What `tags` is to do (task(1), "tags").
pub(crate) fn tagging(
    alloc: Global,
    request: &Request<'_>,
    replica: &Replica,
) -> Result<Plan, Memory>
    ensures { IfOk result (λ plan. plan_view plan ≡ spec.tagging request.now (held_state replica.now)) }
{
    let rows = pending(alloc, request, replica)?;
    let view = view_of(request, replica);
    let text = tags_text(alloc, &rows, &view)?;
    Ok(looking(alloc, text))
}
