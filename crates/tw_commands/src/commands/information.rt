// `information`: all that is known of tasks.
ghost use Rattle.std.specs.Prelude.{◌≡◌, IfOk};
ghost use Rattle.tw_replica.specs.Replica.{held_state};
ghost use Rattle.tw_commands.specs.Plan.{planned};
ghost use Rattle.tw_commands.specs.Looks.Information as spec;

use crate::commands::count::looking;
use crate::plan::Plan;
use crate::request::{selected, view_of};
use std::alloc::Global;
use tw_changes::{Refusal, Request};
use tw_replica::Replica;
use tw_report::information_text;
use tw_world::Memory;
use uuid::Uuid;

// What `information` on these tasks is to do. It needs one.
fn information_on(
    alloc: Global,
    rows: &Vec<Uuid>,
    request: &Request<'_>,
    replica: &Replica,
) -> Result<Result<Plan, Refusal>, Memory>
    ensures { IfOk result (λ plan. planned plan ≡ spec.information_on rows.now.items request.now (held_state replica.now)) }
{
    if rows.len() == 0 {
        return Ok(Err(Refusal::NoMatch));
    }
    let view = view_of(request, replica);
    let weights = request.settings.weights();
    let text = information_text(alloc, rows, &view, &weights)?;
    Ok(Ok(looking(alloc, text)))
}

/// What `information` is to do (task(1), "information").
pub(crate) fn informing(
    alloc: Global,
    request: &Request<'_>,
    replica: &Replica,
) -> Result<Result<Plan, Refusal>, Memory>
    ensures { IfOk result (λ plan. planned plan ≡ spec.informing request.now (held_state replica.now)) }
{
    let rows = selected(alloc, request, replica)?;
    information_on(alloc, &rows, request, replica)
}
