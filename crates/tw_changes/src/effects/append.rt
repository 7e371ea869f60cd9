// `append` and `prepend`: a text after or before the description.
ghost use Rattle.std.specs.Prelude.{◌≡◌, ◌++◌, ◌∷◌, IfOk, string_bytes};
ghost use Rattle.std.specs.Option.{option_copied};
ghost use Rattle.tw_changes.specs.Effects.Append as spec;

use crate::effects::{Effect, with_property};
use std::alloc::Global;
use tw_model::TaskMap;
use tw_world::Memory;

// Two texts with a space between them.
fn joined(alloc: Global, front: &str, back: &str) -> Result<String, Memory>
    ensures { IfOk result (λ text. string_bytes text ≡ front.now ++ 32 ∷ back.now) }
{
    let mut text = String::from_str(alloc, front)?;
    text.push(' ')?;
    text.push_str(back)?;
    Ok(text)
}

fn appended(alloc: Global, text: &str, description: Option<&str>) -> Result<String, Memory>
    ensures { IfOk result (λ whole. string_bytes whole ≡ spec.appended text.now (option_copied description.entry)) }
{
    match description {
        Some(description) => joined(alloc, description, text),
        None => Ok(String::from_str(alloc, text)?),
    }
}

fn prepended(alloc: Global, text: &str, description: Option<&str>) -> Result<String, Memory>
    ensures { IfOk result (λ whole. string_bytes whole ≡ spec.prepended text.now (option_copied description.entry)) }
{
    match description {
        Some(description) => joined(alloc, text, description),
        None => Ok(String::from_str(alloc, text)?),
    }
}

/// What `append` makes of a task (task(1), "append").
pub(crate) fn append(alloc: Global, text: &str, task: &TaskMap) -> Result<Effect, Memory>
    ensures { IfOk result (λ effect. effect ≡ spec.append text.now task.now) }
{
    let whole = appended(alloc, text, task.get("description"))?;
    with_property(alloc, task, "description", whole.as_str())
}

/// What `prepend` makes of a task (task(1), "prepend").
pub(crate) fn prepend(alloc: Global, text: &str, task: &TaskMap) -> Result<Effect, Memory>
    ensures { IfOk result (λ effect. effect ≡ spec.prepend text.now task.now) }
{
    let whole = prepended(alloc, text, task.get("description"))?;
    with_property(alloc, task, "description", whole.as_str())
}
