// Asking the hooks of a command.
ghost use Rattle.std.specs.Prelude.{◌≡◌, None, IfOk, IfErr};
ghost use Rattle.tw_text.specs.Columns.{cell_text};
ghost use Rattle.tw_spawn.specs.Spawner.{SpawnerKept};
ghost use Rattle.tw_replica.specs.Replica.{held_state};
ghost use Rattle.tw_commands.specs.Asks.{event_in};
ghost use Rattle.tw_cli.specs.Deciding.{IsShown, PlanAnswered, PlanRefused};

use crate::carry::CarryError;
use std::alloc::Global;
use tw_changes::Request;
use tw_commands::{Plan, event_in};
use tw_hooks::{HookError, run_all};
use tw_replica::Replica;
use tw_spawn::Spawner;
use tw_text::cell;
use tw_world::{Memory, Text};

// A name as a line shows it.
fn shown_name(alloc: Global, name: Text) -> Result<Text, Memory>
    ensures { IfOk result (λ shown. shown ≡ cell_text name) }
{
    let shown = cell(alloc, name.as_str())?;
    Text::from_str(alloc, shown.as_str())
}

// Why hooks refuse, with the name as a line shows it.
fn refused_by(alloc: Global, error: HookError) -> CarryError
    ensures { IsShown error result }
{
    match error {
        HookError::Refused { name, status } => match shown_name(alloc, name) {
            Ok(name) => CarryError::Hook(HookError::Refused { name, status }),
            Err(_) => CarryError::Memory,
        },
        HookError::Answer { name } => match shown_name(alloc, name) {
            Ok(name) => CarryError::Hook(HookError::Answer { name }),
            Err(_) => CarryError::Memory,
        },
        HookError::Fault => CarryError::Hook(HookError::Fault),
        HookError::Memory => CarryError::Memory,
    }
}

/// Runs the hooks of a request for the tasks that its plan makes or changes, and gives the plan with what they answer.
pub(crate) fn ask_hooks<P: Spawner>(
    alloc: Global,
    request: &Request<'_>,
    spawner: &mut P,
    plan: Plan,
    replica: &Replica,
) -> Result<Plan, CarryError>
    ensures answered { IfOk result (PlanAnswered P.model request.now spawner.old spawner.new (held_state replica.now).tasks plan) }
    ensures refused { IfErr result (PlanRefused P.model request.now spawner.old spawner.new (held_state replica.now).tasks plan) }
    ensures untouched { event_in request.now ≡ None → spawner.new ≡ spawner.old }
    ensures kept { SpawnerKept P.model spawner.old spawner.new }
{
    let Some(event) = event_in(request) else {
        return Ok(plan);
    };
    let asks = match plan.asks(alloc, request, replica) {
        Ok(asks) => asks,
        Err(_) => return Err(CarryError::Memory),
    };
    let answers = match run_all(alloc, spawner, event, asks.as_slice(), request.at) {
        Ok(answers) => answers,
        Err(error) => return Err(refused_by(alloc, error)),
    };
    match plan.answered(alloc, replica, &answers) {
        Ok(plan) => Ok(plan),
        Err(_) => Err(CarryError::Memory),
    }
}
