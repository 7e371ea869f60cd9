// `import`: the changes of the elements of its input.
ghost use Rattle.std.specs.Prelude.{◌≡◌, IfOk, OnOk, OnErr};
ghost use Rattle.tw_replica.specs.Replica.{held_state};
ghost use Rattle.tw_changes.specs.Makes.Import.{changes_view, imports_in};
ghost use Rattle.tw_commands.specs.Plan.{planned};
ghost use Rattle.tw_commands.specs.Makes.Import as spec;

use crate::plan::{Deed, Plan, Show, Work};
use std::alloc::Global;
use tw_changes::{Refusal, Request, imports_in};
use tw_model::Change;
use tw_replica::Replica;
use tw_world::{IdWords, Memory};

// What a command is to do that makes these changes, one for each element.
fn imported(alloc: Global, changes: Result<Vec<Change>, Refusal>) -> Result<Plan, Refusal>
    ensures { planned result ≡ spec.imported (changes_view changes) }
{
    let changes = match changes {
        Ok(changes) => changes,
        Err(refusal) => return Err(refusal),
    };
    let count = changes.len() as u64;
    Ok(Plan {
        work: Work::Changes {
            renumber: false,
            changes,
            marks: Vec::new(alloc),
        },
        show: Show::Counted {
            deed: Deed::Imported,
            count,
        },
    })
}

/// What `import` is to do (task(1), "import"). It draws a uuid for each element that has none, until one is taken.
pub(crate) fn importing(
    alloc: Global,
    request: &Request<'_>,
    ids: &mut IdWords,
    replica: &Replica,
) -> Result<Result<Plan, Refusal>, Memory>
    ensures plan { IfOk result (λ plan. planned plan ≡ spec.importing request.now ids.old (held_state replica.now)) }
    ensures ids { OnOk result (ids.new ≡ (imports_in request.now ids.old (held_state replica.now).tasks).ids) }
    ensures want { OnErr result (ids.new ≡ ids.old) }
{
    let changes = imports_in(alloc, request, ids, replica.tasks())?;
    Ok(imported(alloc, changes))
}
