// `count`: how many tasks are selected.
ghost use Rattle.std.specs.Prelude.{◌≡◌, IfOk};
ghost use Rattle.tw_replica.specs.Replica.{held_state};
ghost use Rattle.tw_commands.specs.Plan.{plan_view};
ghost use Rattle.tw_commands.specs.Looks as looks;
ghost use Rattle.tw_commands.specs.Looks.Count as spec;

use crate::plan::{Plan, Show, Work};
use crate::request::selected;
use crate::texts::count_text;
use std::alloc::Global;
use tw_changes::Request;
use tw_replica::Replica;
use tw_world::Memory;

/// What a command is to do that changes nothing, and prints a text.
pub(crate) fn looking(alloc: Global, text: Vec<u8>) -> Plan
    ensures { plan_view result ≡ looks.looking text.items }
{
    Plan {
        work: Work::Changes {
            renumber: false,
            changes: Vec::new(alloc),
            marks: Vec::new(alloc),
        },
        show: Show::Text(text),
    }
}

/// What `count` is to do (task(1), "count").
pub(crate) fn counting(
    alloc: Global,
    request: &Request<'_>,
    replica: &Replica,
) -> Result<Plan, Memory>
    ensures { IfOk result (λ plan. plan_view plan ≡ spec.counting request.now (held_state replica.now)) }
{
    let rows = selected(alloc, request, replica)?;
    let text = count_text(alloc, rows.len() as u64)?;
    Ok(looking(alloc, text))
}
