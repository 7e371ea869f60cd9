// `add` and `log`: a task of a drawn uuid, which both make in one way.
ghost use Rattle.std.specs.Prelude.{◌≡◌, IfOk};
ghost use Rattle.std.specs.FinMap as map;
ghost use Rattle.tw_replica.specs.Replica.{held_state};
ghost use Rattle.tw_changes.specs.Request.{after_draw};
ghost use Rattle.tw_commands.specs.Plan.{planned, show_view};
ghost use Rattle.tw_commands.specs.Request.{words_in};
ghost use Rattle.tw_commands.specs.Makes.{making};
ghost use Rattle.tw_commands.specs.Makes.Add as spec;

use crate::plan::{Plan, Show, Work};
use std::alloc::Global;
use tw_changes::{Refusal, Request, added, draw, logged};
use tw_model::{Change, TaskMap, Tasks};
use tw_replica::Replica;
use tw_words::Modification;
use tw_world::{IdWords, Memory};
use uuid::Uuid;

// What a command is to do that makes this task.
fn making(
    alloc: Global,
    show: Show,
    uuid: Uuid,
    task: TaskMap,
    tasks: &Tasks,
) -> Result<Result<Plan, Refusal>, Memory>
    ensures { IfOk result (λ plan. planned plan ≡ making (show_view show) uuid task (map.get tasks.now uuid)) }
{
    if tasks.get(uuid).is_some() {
        return Ok(Err(Refusal::IdTaken { uuid }));
    }
    let mut changes = Vec::new(alloc);
    changes.push(Change {
        uuid,
        task: Some(task),
    })?;
    Ok(Ok(Plan {
        work: Work::Changes {
            renumber: false,
            changes,
            marks: Vec::new(alloc),
        },
        show,
    }))
}

/// What `add` is to do (task(1), "add"). It draws the uuid of the task.
pub(crate) fn adding(
    alloc: Global,
    request: &Request<'_>,
    words: &Vec<Modification>,
    ids: &mut IdWords,
    replica: &Replica,
) -> Result<Result<Plan, Refusal>, Memory>
    requires { words.now.items ≡ words_in request.now (held_state replica.now) }
    ensures plan { IfOk result (λ plan. planned plan ≡ spec.adding request.now ids.old (held_state replica.now)) }
    ensures ids { ids.new ≡ after_draw ids.old }
{
    let uuid = draw(ids);
    let task = added(alloc, words, request.at)?;
    making(alloc, Show::Created { uuid }, uuid, task, replica.tasks())
}

/// What `log` is to do (task(1), "log"). It draws the uuid of the task.
pub(crate) fn logging(
    alloc: Global,
    request: &Request<'_>,
    words: &Vec<Modification>,
    ids: &mut IdWords,
    replica: &Replica,
) -> Result<Result<Plan, Refusal>, Memory>
    requires { words.now.items ≡ words_in request.now (held_state replica.now) }
    ensures plan { IfOk result (λ plan. planned plan ≡ spec.logging request.now ids.old (held_state replica.now)) }
    ensures ids { ids.new ≡ after_draw ids.old }
{
    let uuid = draw(ids);
    let task = logged(alloc, words, request.at)?;
    making(alloc, Show::Logged, uuid, task, replica.tasks())
}
