// What each command that acts on selected tasks makes of them.
ghost use Rattle.std.specs.Prelude.{◌≡◌, ◌++◌, IfOk, OnOk};
ghost use Rattle.std.specs.FinMap as map;
ghost use Rattle.tw_changes.specs.Spaced.{rest_text};
ghost use Rattle.tw_changes.specs.Effects.{change_at, changes_by};
ghost use Rattle.tw_changes.specs.Editing as spec;

use crate::effects::annotate::annotate;
use crate::effects::append::{append, prepend};
use crate::effects::denotate::denotate;
use crate::effects::done::{delete, done};
use crate::effects::modify::modify;
use crate::effects::purge::purge;
use crate::effects::start::{start, stop};
use crate::effects::{Effect, push_change};
use crate::request::Request;
use std::alloc::Global;
use tw_model::{Change, TaskMap, Tasks};
use tw_words::{Command, Modification};
use tw_world::Memory;
use uuid::Uuid;

// What a command that acts on selected tasks makes of one. The text is the rest of the line.
fn effect_of(
    alloc: Global,
    request: &Request<'_>,
    words: &Vec<Modification>,
    text: &str,
    task: &TaskMap,
) -> Result<Effect, Memory>
    requires { text.now ≡ rest_text request.now.line }
    ensures { IfOk result (λ effect. effect ≡ spec.effect_by request.now words.now.items task.now) }
{
    let now = request.at;
    match request.command {
        Command::Modify => modify(alloc, words, task),
        Command::Append => append(alloc, text, task),
        Command::Prepend => prepend(alloc, text, task),
        Command::Annotate => annotate(alloc, now, text, task),
        Command::Denotate => denotate(alloc, text, task),
        Command::Done => done(alloc, now, task),
        Command::Delete => delete(alloc, now, task),
        Command::Purge => Ok(purge(now, task)),
        Command::Start => start(alloc, now, task),
        Command::Stop => stop(alloc, now, task),
        _ => Ok(Effect::Nothing),
    }
}

// Puts the change of the task of a uuid after others, where the command acts on it.
fn change_one(
    alloc: Global,
    changes: &mut Vec<Change>,
    request: &Request<'_>,
    words: &Vec<Modification>,
    text: &str,
    tasks: &Tasks,
    uuid: Uuid,
) -> Result<(), Memory>
    requires { text.now ≡ rest_text request.now.line }
    ensures { OnOk result (changes.new.items
        ≡ changes.old.items ++ change_at (spec.effect_by request.now words.now.items) request.now.at uuid (map.get tasks.now uuid)) }
{
    match tasks.get(uuid) {
        Some(task) => {
            let effect = effect_of(alloc, request, words, text, task)?;
            push_change(alloc, changes, request.at, uuid, task, effect)
        }
        None => Ok(()),
    }
}

/// The changes of these tasks, where the command of a request acts on them. The text is the rest of its line.
pub fn changes_by(
    alloc: Global,
    request: &Request<'_>,
    words: &Vec<Modification>,
    text: &str,
    tasks: &Tasks,
    rows: &Vec<Uuid>,
) -> Result<Vec<Change>, Memory>
    requires { text.now ≡ rest_text request.now.line }
    ensures { IfOk result (λ changes. changes.items
        ≡ changes_by (spec.effect_by request.now words.now.items) request.now.at tasks.now rows.now.items) }
{
    let mut changes = Vec::new(alloc);
    for uuid in rows {
        change_one(alloc, &mut changes, request, words, text, tasks, *uuid)?;
    }
    Ok(changes)
}
