// `modify`: the modifications.
ghost use Rattle.std.specs.Prelude.{◌≡◌, IfOk};
ghost use Rattle.tw_changes.specs.Effects.Modify as spec;

use crate::effects::Effect;
use std::alloc::Global;
use tw_model::TaskMap;
use tw_words::{Modification, apply};
use tw_world::Memory;

/// What `modify` makes of a task (task(1), "modify").
pub(crate) fn modify(
    alloc: Global,
    words: &Vec<Modification>,
    task: &TaskMap,
) -> Result<Effect, Memory>
    ensures { IfOk result (λ effect. effect ≡ spec.modify words.now.items task.now) }
{
    Ok(Effect::Becomes(apply(alloc, words, task)?))
}
