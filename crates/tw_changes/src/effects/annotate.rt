// `annotate`: a text at the moment, or the next free second.
ghost use Rattle.std.specs.Prelude.{◌≡◌, ◌≤◌, ◌+◌, ◌<◌, ◌^◌, suc, IfOk, string_bytes};
ghost use Rattle.std.specs.FinMap as map;
ghost use Rattle.tw_changes.specs.Effects.Annotate as spec;

use crate::effects::{Effect, with_property};
use std::alloc::Global;
use tw_model::TaskMap;
use tw_world::{Memory, Moment};

/// The property of an annotation of this second.
pub(crate) fn annotation_at(alloc: Global, second: u128) -> Result<String, Memory>
    ensures { IfOk result (λ name. string_bytes name ≡ spec.annotation_at second) }
{
    Ok(format!(in alloc; "annotation_{}", second)?)
}

// The property of the first second from this moment on that has no annotation.
fn free_property(alloc: Global, now: Moment, task: &TaskMap) -> Result<String, Memory>
    ensures { IfOk result (λ name. string_bytes name ≡ spec.annotation_at (spec.free_second (map.len task.now) task.now now.seconds)) }
{
    let mut more = task.len();
    let mut second = now.seconds as u128;
    let mut name = annotation_at(alloc, second)?;
    while more > 0 && task.get(name.as_str()).is_some() {
        more -= 1;
        second += 1;
        name = annotation_at(alloc, second)?;
    }
    Ok(name)
}

/// What `annotate` makes of a task (task(1), "annotate").
pub(crate) fn annotate(
    alloc: Global,
    now: Moment,
    text: &str,
    task: &TaskMap,
) -> Result<Effect, Memory>
    ensures { IfOk result (λ effect. effect ≡ spec.annotate now text.now task.now) }
{
    let name = free_property(alloc, now, task)?;
    with_property(alloc, task, name.as_str(), text)
}
