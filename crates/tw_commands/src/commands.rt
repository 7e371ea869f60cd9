// What each command is to do.
ghost use Rattle.std.specs.Prelude.{◌≡◌, IfOk, OnOk, OnErr};
ghost use Rattle.tw_replica.specs.Replica.{held_state};
ghost use Rattle.tw_terms.specs.Scenes.{scene_of};
ghost use Rattle.tw_words.specs.Readings.{first_bad};
ghost use Rattle.tw_commands.specs.Plan.{planned};
ghost use Rattle.tw_commands.specs.Request.{scene_in, words_in};
ghost use Rattle.tw_commands.specs.Commands as spec;

mod add;
mod count;
mod duplicate;
mod editing;
mod export;
mod ids;
mod import;
mod information;
mod projects;
pub(crate) mod report;
mod undo;

use self::report::reporting;
use crate::plan::{Deed, Plan};
use crate::request::view_of;
use std::alloc::Global;
use tw_changes::{Refusal, Request};
use tw_replica::Replica;
use tw_report::Report;
use tw_terms::BadWord;
use tw_words::{Command, Modification, read_changes};
use tw_world::{IdWords, Memory};

// What a command is to do, whose words ask for these modifications.
fn plan_by(
    alloc: Global,
    request: &Request<'_>,
    words: &Vec<Modification>,
    ids: &mut IdWords,
    replica: &Replica,
) -> Result<Result<Plan, Refusal>, Memory>
    requires { words.now.items ≡ words_in request.now (held_state replica.now) }
    ensures plan { IfOk result (λ plan. planned plan
        ≡ spec.plan_by request.now.command request.now ids.old (held_state replica.now)) }
    ensures ids { OnOk result (ids.new ≡ spec.ids_by request.now.command request.now ids.old (held_state replica.now)) }
    ensures want { OnErr result
        (spec.DrewNoneOr (spec.ids_by request.now.command request.now ids.old (held_state replica.now)) ids.old ids.new) }
{
    let deed = match request.command {
        Command::Add => return add::adding(alloc, request, words, ids, replica),
        Command::Log => return add::logging(alloc, request, words, ids, replica),
        Command::Duplicate => return duplicate::copying(alloc, request, words, ids, replica),
        Command::Import => return import::importing(alloc, request, ids, replica),
        Command::Undo => return Ok(Ok(undo::undoing())),
        Command::Count => return Ok(Ok(count::counting(alloc, request, replica)?)),
        Command::Ids => return Ok(Ok(ids::numbering(alloc, request, replica)?)),
        Command::Uuids => return Ok(Ok(ids::naming(alloc, request, replica)?)),
        Command::Export => return Ok(Ok(export::exporting(alloc, request, replica)?)),
        Command::Information => return information::informing(alloc, request, replica),
        Command::Projects => return Ok(Ok(projects::projecting(alloc, request, replica)?)),
        Command::Tags => return Ok(Ok(projects::tagging(alloc, request, replica)?)),
        Command::List => return reporting(alloc, Report::List, request, replica),
        Command::Next => return reporting(alloc, Report::Next, request, replica),
        Command::All => return reporting(alloc, Report::All, request, replica),
        Command::Completed => return reporting(alloc, Report::Completed, request, replica),
        Command::Waiting => return reporting(alloc, Report::Waiting, request, replica),
        Command::Blocked => return reporting(alloc, Report::Blocked, request, replica),
        Command::Modify | Command::Append | Command::Prepend => Deed::Modified,
        Command::Annotate => Deed::Annotated,
        Command::Denotate => Deed::Denotated,
        Command::Done => Deed::Completed,
        Command::Delete => Deed::Deleted,
        Command::Purge => Deed::Purged,
        Command::Start => Deed::Started,
        Command::Stop => Deed::Stopped,
    };
    editing::editing(alloc, deed, request, words, replica)
}

/// What a request is to do with a replica, or why it does nothing.
pub fn plan_of(
    alloc: Global,
    request: &Request<'_>,
    ids: &mut IdWords,
    replica: &Replica,
) -> Result<Result<Plan, Refusal>, Memory>
    ensures plan { IfOk result (λ plan. planned plan ≡ spec.plan_of request.now ids.old (held_state replica.now)) }
    ensures ids { OnOk result (ids.new ≡ spec.ids_after request.now ids.old (held_state replica.now)) }
    ensures want { OnErr result (spec.MayHaveDrawn request.now ids.old ids.new (held_state replica.now)) }
{
    let words = match read_changes(alloc, &request.line, &view_of(request, replica))? {
        Ok(words) => words,
        Err(BadWord { word, kind }) => return Ok(Err(Refusal::BadWords { word, kind })),
    };
    plan_by(alloc, request, &words, ids, replica)
}
