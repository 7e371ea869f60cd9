// `denotate`: the first annotation of a text is taken away.
ghost use Rattle.std.specs.Prelude.{◌≡◌, IfOk};
ghost use Rattle.tw_terms.specs.Occurs.{occurs};
ghost use Rattle.tw_changes.specs.Effects.Denotate as spec;

use crate::effects::annotate::annotation_at;
use crate::effects::{Effect, without_property};
use std::alloc::Global;
use tw_model::TaskMap;
use tw_urgency::annotated;
use tw_world::Memory;

fn is_part(text: &str, there: &str) -> bool
    ensures { result ≡ occurs text.now there.now }
{
    there.contains(text)
}

// Whether a text is the one that is looked for, or contains it.
fn is_match(whole: bool, text: &str, there: &str) -> bool
    ensures { result ≡ spec.is_match whole text.now there.now }
{
    if whole {
        there == text
    } else {
        is_part(text, there)
    }
}

// The second of a property that is an annotation with such a text.
fn second_of(whole: bool, text: &str, name: &str, there: &str) -> Option<u64>
    ensures { result ≡ spec.second_of whole text.now (name.now, there.now) }
{
    if is_match(whole, text, there) {
        annotated(name)
    } else {
        None
    }
}

fn earlier(first: Option<u64>, other: Option<u64>) -> Option<u64>
    ensures { result ≡ spec.earlier first other }
{
    match (first, other) {
        (Some(second), Some(other)) if other < second => Some(other),
        (Some(second), _) => Some(second),
        (None, other) => other,
    }
}

// The second of the first annotation with such a text.
fn first_second(whole: bool, text: &str, task: &TaskMap) -> Option<u64>
    ensures { result ≡ spec.first_second whole text.now task.now }
{
    let mut first = None;
    for n in 0..task.len() {
        first = earlier(first, second_of(whole, text, task.key(n), task.value(n)));
    }
    first
}

fn without_annotation(alloc: Global, task: &TaskMap, second: Option<u64>) -> Result<Effect, Memory>
    ensures { IfOk result (λ effect. effect ≡ spec.without_annotation task.now second) }
{
    let Some(second) = second else {
        return Ok(Effect::Nothing);
    };
    let name = annotation_at(alloc, second as u128)?;
    without_property(alloc, task, name.as_str())
}

/// What `denotate` makes of a task (task(1), "denotate"): the first annotation by its moment that is the text, or else the first
/// that contains it, is taken away. It acts on no other task.
pub(crate) fn denotate(alloc: Global, text: &str, task: &TaskMap) -> Result<Effect, Memory>
    ensures { IfOk result (λ effect. effect ≡ spec.denotate text.now task.now) }
{
    let second = match first_second(true, text, task) {
        Some(second) => Some(second),
        None => first_second(false, text, task),
    };
    without_annotation(alloc, task, second)
}
