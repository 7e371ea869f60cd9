// Deciding what a command comes to.
ghost use Rattle.std.specs.Prelude.{◌≡◌, None, IfOk, IfErr, OnOk};
ghost use Rattle.tw_spawn.specs.Spawner.{SpawnerKept};
ghost use Rattle.tw_replica.specs.Replica.{held_state};
ghost use Rattle.tw_commands.specs.Commands.{ids_after};
ghost use Rattle.tw_commands.specs.Asks.{event_in};
ghost use Rattle.tw_cli.specs.Deciding.{DecidedBy, NotDecided, HasDrawn};

use crate::carry::CarryError;
use crate::hooks::ask_hooks;
use std::alloc::Global;
use tw_changes::Request;
use tw_commands::{Ready, conclude, plan_of};
use tw_replica::Replica;
use tw_spawn::Spawner;
use tw_world::IdWords;

/// Makes in memory what a request comes to in a replica, with what its hooks answer and with its text, or says why the command does nothing.
/// All the memory that it wants is taken here. What is refused is dropped with the replica.
pub(crate) fn decide<P: Spawner>(
    alloc: Global,
    request: &Request<'_>,
    ids: &mut IdWords,
    spawner: &mut P,
    replica: Replica,
) -> Result<Ready, CarryError>
    ensures ready { IfOk result (DecidedBy P.model request.now ids.old spawner.old spawner.new replica) }
    ensures refused { IfErr result (NotDecided P.model request.now ids.old spawner.old spawner.new replica) }

    // how many identifiers are drawn
    ensures ids { OnOk result (ids.new ≡ ids_after request.now ids.old (held_state replica)) }
    ensures want { IfErr result (HasDrawn request.now ids.old ids.new (held_state replica)) }

    ensures untouched { event_in request.now ≡ None → spawner.new ≡ spawner.old }
    ensures kept { SpawnerKept P.model spawner.old spawner.new }
{
    let plan = match plan_of(alloc, request, ids, &replica) {
        Ok(Ok(plan)) => plan,
        Ok(Err(refusal)) => return Err(CarryError::Refused(refusal)),
        Err(_) => return Err(CarryError::Memory),
    };
    let plan = match ask_hooks(alloc, request, spawner, plan, &replica) {
        Ok(plan) => plan,
        Err(error) => return Err(error),
    };
    match conclude(alloc, request, plan, replica) {
        Ok(Ok(ready)) => Ok(ready),
        Ok(Err(refusal)) => Err(CarryError::Refused(refusal)),
        Err(_) => Err(CarryError::Memory),
    }
}
