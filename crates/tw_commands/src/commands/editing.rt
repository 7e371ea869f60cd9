// Commands that act on the tasks that a filter selects.
ghost use Rattle.std.specs.Prelude.{◌≡◌, IfOk};
ghost use Rattle.tw_replica.specs.Replica.{held_state};
ghost use Rattle.tw_commands.specs.Plan.{planned};
ghost use Rattle.tw_commands.specs.Request.{words_in};
ghost use Rattle.tw_commands.specs.Commands as spec;

use crate::plan::{Deed, Plan, Show, Work};
use crate::request::selected;
use std::alloc::Global;
use tw_changes::{Mark, Refusal, Request, changes_by, marks_of, rest_text};
use tw_model::Change;
use tw_replica::Replica;
use tw_words::Modification;
use tw_world::Memory;

// What a command is to do that made these changes of tasks, and leaves these marks. It needs one change.
fn acting(deed: Deed, changes: Vec<Change>, marks: Vec<Mark>) -> Result<Plan, Refusal>
    ensures { planned result ≡ spec.acting deed changes.items marks.items }
{
    if changes.len() == 0 {
        return Err(Refusal::NoMatch);
    }
    let count = changes.len() as u64;
    Ok(Plan {
        work: Work::Changes {
            renumber: false,
            changes,
            marks,
        },
        show: Show::Counted { deed, count },
    })
}

/// What a command that acts on selected tasks is to do.
pub(crate) fn editing(
    alloc: Global,
    deed: Deed,
    request: &Request<'_>,
    words: &Vec<Modification>,
    replica: &Replica,
) -> Result<Result<Plan, Refusal>, Memory>
    requires { words.now.items ≡ words_in request.now (held_state replica.now) }
    ensures { IfOk result (λ plan. planned plan ≡ spec.editing deed request.now (held_state replica.now)) }
{
    let rows = selected(alloc, request, replica)?;
    let text = rest_text(alloc, &request.line)?;
    let changes = changes_by(alloc, request, words, text.as_str(), replica.tasks(), &rows)?;
    let marks = marks_of(alloc, request.command, replica.tasks(), &changes)?;
    Ok(acting(deed, changes, marks))
}
