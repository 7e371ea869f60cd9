// `export`: the tasks as JSON.
ghost use Rattle.std.specs.Prelude.{◌≡◌, IfOk};
ghost use Rattle.tw_replica.specs.Replica.{held_state};
ghost use Rattle.tw_commands.specs.Plan.{plan_view};
ghost use Rattle.tw_commands.specs.Looks.Export as spec;

use crate::commands::count::looking;
use crate::plan::Plan;
use crate::request::selected;
use std::alloc::Global;
use tw_changes::Request;
use tw_export::export_text;
use tw_replica::Replica;
use tw_world::Memory;

/// What `export` is to do (task(1), "export"). Urgency is weighed as the settings say.
pub(crate) fn exporting(
    alloc: Global,
    request: &Request<'_>,
    replica: &Replica,
) -> Result<Plan, Memory>
    ensures { IfOk result (λ plan. plan_view plan ≡ spec.exporting request.now (held_state replica.now)) }
{
    let rows = selected(alloc, request, replica)?;
    let weights = request.settings.weights();
    let text = export_text(alloc, &rows, replica.tasks(), request.at, &weights)?;
    Ok(looking(alloc, text))
}
