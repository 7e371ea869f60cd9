// `duplicate`: copies of the tasks that are selected.
ghost use Rattle.std.specs.Prelude.{◌≡◌, IfOk, OnOk, OnErr, map as list_map};
ghost use Rattle.std.specs.FinMap as map;
ghost use Rattle.tw_replica.specs.Replica.{held_state};
ghost use Rattle.tw_changes.specs.Makes.Duplicate.{copies_view, taken_or};
ghost use Rattle.tw_commands.specs.Plan.{planned};
ghost use Rattle.tw_commands.specs.Request.{words_in};
ghost use Rattle.tw_commands.specs.Commands.{DrewNoneOr};
ghost use Rattle.tw_commands.specs.Makes.Duplicate as spec;

use crate::plan::{Deed, Plan, Show, Work};
use crate::request::selected;
use std::alloc::Global;
use tw_changes::{Refusal, Request, copies};
use tw_model::{Change, Tasks};
use tw_replica::Replica;
use tw_words::Modification;
use tw_world::{IdWords, Memory};
use uuid::Uuid;

// Each copy is taken out, so that none is copied again.
fn changes_of(alloc: Global, made: Tasks) -> Result<Vec<Change>, Memory>
    ensures { IfOk result (λ changes. changes.items ≡ list_map spec.change_of (map.entries made)) }
{
    let mut changes = Vec::new(alloc);
    let mut left = made;
    while left.len() > 0 {
        let uuid = left.uuid_at(0);
        let task = left.remove(uuid);
        changes.push(Change { uuid, task })?;
    }
    Ok(changes)
}

// What a command is to do that makes these copies. It needs one.
fn duplicating(alloc: Global, made: Tasks) -> Result<Result<Plan, Refusal>, Memory>
    ensures { IfOk result (λ plan. planned plan ≡ spec.duplicating (map.entries made)) }
{
    if made.len() == 0 {
        return Ok(Err(Refusal::NoMatch));
    }
    let count = made.len();
    let changes = changes_of(alloc, made)?;
    Ok(Ok(Plan {
        work: Work::Changes {
            renumber: false,
            changes,
            marks: Vec::new(alloc),
        },
        show: Show::Counted {
            deed: Deed::Duplicated,
            count,
        },
    }))
}

// What a command is to do that made these copies, or drew this uuid.
fn duplicated(alloc: Global, made: Result<Tasks, Uuid>) -> Result<Result<Plan, Refusal>, Memory>
    ensures { IfOk result (λ plan. planned plan ≡ spec.duplicated (taken_or made)) }
{
    match made {
        Ok(made) => duplicating(alloc, made),
        Err(uuid) => Ok(Err(Refusal::IdTaken { uuid })),
    }
}

// Copies of the tasks that a request selects. Without memory no identifier is drawn.
fn copies_in(
    alloc: Global,
    request: &Request<'_>,
    words: &Vec<Modification>,
    ids: &mut IdWords,
    replica: &Replica,
) -> Result<Result<Tasks, Uuid>, Memory>
    requires { words.now.items ≡ words_in request.now (held_state replica.now) }
    ensures made { IfOk result (λ made. copies_view made ids.new ≡ spec.copies_in request.now ids.old (held_state replica.now)) }
    ensures want { OnErr result (ids.new ≡ ids.old) }
{
    let rows = selected(alloc, request, replica)?;
    let mut left = IdWords {
        start: ids.start,
        step: ids.step,
    };
    let made = copies(alloc, words, replica.tasks(), request.at, &mut left, &rows)?;
    *ids = left;
    Ok(made)
}

/// What `duplicate` is to do (task(1), "duplicate"). It draws a uuid for each task that is selected, until one is taken.
pub(crate) fn copying(
    alloc: Global,
    request: &Request<'_>,
    words: &Vec<Modification>,
    ids: &mut IdWords,
    replica: &Replica,
) -> Result<Result<Plan, Refusal>, Memory>
    requires { words.now.items ≡ words_in request.now (held_state replica.now) }
    ensures plan { IfOk result (λ plan. planned plan ≡ spec.copying request.now ids.old (held_state replica.now)) }
    ensures ids { OnOk result (ids.new ≡ (spec.copies_in request.now ids.old (held_state replica.now)).ids) }
    ensures want { OnErr result
        (DrewNoneOr (spec.copies_in request.now ids.old (held_state replica.now)).ids ids.old ids.new) }
{
    let made = copies_in(alloc, request, words, ids, replica)?;
    duplicated(alloc, made)
}
