// The dependencies of a task, as the values of `depends:` name them.
ghost use Rattle.std.specs.Prelude.{◌≡◌, ◌++◌, ◌∷◌, [], filter, is_some, string_bytes, IfOk, OnOk};
ghost use Rattle.uuid.specs.Text.{hyphenated_text, lower};
ghost use Rattle.tw_terms.specs.Cuts.{parts};
ghost use Rattle.tw_terms.specs.Scenes.{scene_of};
ghost use Rattle.tw_urgency.specs.Dependencies.{dependency_in};
ghost use Rattle.tw_words.specs.Readings.{dependency_on, if_task, task_named, task_in, named_out, dependency_out, part_task};
ghost use Rattle.tw_words.specs.Readings.{with_one, set_to, with_items};
ghost use Rattle.tw_words.specs.Changed.{without_dependencies, dependencies};
ghost use Rattle.tw_words.specs.Makes.{Makes};

use crate::changes::depends_part::{Named, item_in, takes_out};
use crate::changes::modification::{Modification, set_to};
use std::alloc::Global;
use tw_model::{TaskMap, uuid_of};
use tw_terms::{KindError, View, WordKind, cut_part};
use tw_urgency::dependency_in;
use tw_world::{Memory, Text};
use uuid::Uuid;

// The property of a dependency.
fn dependency_on(alloc: Global, uuid: Uuid) -> Result<String, Memory>
    ensures { IfOk result (λ text. string_bytes text ≡ dependency_on uuid) }
{
    let mut name = String::from_str(alloc, "dep_")?;
    name.push_str(uuid.hyphenated().encode_lower(&mut Uuid::encode_buffer()))?;
    Ok(name)
}

fn if_task(view: &View<'_>, uuid: Option<Uuid>) -> Option<Uuid>
    ensures { result ≡ if_task (scene_of view.entry.now).tasks uuid }
{
    let uuid = uuid?;
    match view.tasks.get(uuid) {
        Some(_) => Some(uuid),
        None => None,
    }
}

// The task that is named, if it is there.
fn task_named(view: &View<'_>, named: Named) -> Option<Uuid>
    ensures { result ≡ task_named (scene_of view.entry.now) named }
{
    match named {
        Named::Task(uuid) => if_task(view, Some(uuid)),
        Named::Number(n) => if_task(view, uuid_of(view.numbers, n)),
    }
}

// The task that a part of `depends:` names, if it is there.
fn task_in(view: &View<'_>, named: Option<Named>) -> Option<Uuid>
    ensures { result ≡ task_in (scene_of view.entry.now) named }
{
    match named {
        Some(named) => task_named(view, named),
        None => None,
    }
}

// The dependency that is taken out: by a uuid also on a task that is gone.
fn named_out(view: &View<'_>, named: Named) -> Option<Uuid>
    ensures { result ≡ named_out (scene_of view.entry.now) named }
{
    match named {
        Named::Task(uuid) => Some(uuid),
        Named::Number(_) => task_named(view, named),
    }
}

fn dependency_out(view: &View<'_>, named: Option<Named>) -> Option<Uuid>
    ensures { result ≡ dependency_out (scene_of view.entry.now) named }
{
    match named {
        Some(named) => named_out(view, named),
        None => None,
    }
}

/// The task that a part of `depends:` is about.
pub(crate) fn part_task(view: &View<'_>, part: &str) -> Option<Uuid>
    ensures { result ≡ part_task (scene_of view.entry.now) part.now }
{
    let named = item_in(part);
    if takes_out(part) {
        dependency_out(view, named)
    } else {
        task_in(view, named)
    }
}

fn push_item(
    alloc: Global,
    changes: &mut Vec<Modification>,
    wanted: bool,
    uuid: Uuid,
) -> Result<(), Memory>
    ensures { OnOk result (changes.new.items ≡ with_one changes.old.items (set_to wanted (dependency_on uuid))) }
{
    let name = dependency_on(alloc, uuid)?;
    set_to(alloc, changes, wanted, name.as_str())
}

/// Asks for the dependencies that a value names, or for none on them.
pub(crate) fn push_items(
    alloc: Global,
    changes: &mut Vec<Modification>,
    view: &View<'_>,
    value: &str,
) -> Result<(), KindError>
    ensures { Makes result (with_items (scene_of view.entry.now) changes.old.items (parts 44 value.now)) changes.new.items }
{
    let mut left = Some(value);
    while let Some(text) = left {
        let (part, rest) = cut_part(text);
        let Some(uuid) = part_task(view, part) else {
            return Err(KindError::Bad(WordKind::Id));
        };
        push_item(alloc, changes, !takes_out(part), uuid)?;
        left = rest;
    }
    Ok(())
}

// Adds a property, if it is a dependency.
fn push_dependency(alloc: Global, names: &mut Vec<Text>, name: &str) -> Result<(), Memory>
    ensures { OnOk result (names.new.items ≡ names.old.items ++ filter (λ x. is_some (dependency_in x)) (name.now ∷ [])) }
{
    if dependency_in(name).is_some() {
        names.push(Text::from_str(alloc, name)?)?;
    }
    Ok(())
}

// The properties that are dependencies.
fn dependencies(alloc: Global, task: &TaskMap) -> Result<Vec<Text>, Memory>
    ensures { IfOk result (λ names. names.items ≡ dependencies task.now) }
{
    let mut names = Vec::new(alloc);
    for n in 0..task.len() {
        push_dependency(alloc, &mut names, task.key(n))?;
    }
    Ok(names)
}

/// Takes all dependencies out.
pub(crate) fn clear_dependencies(alloc: Global, task: &mut TaskMap) -> Result<(), Memory>
    ensures { OnOk result (task.new ≡ without_dependencies task.old) }
{
    let names = dependencies(alloc, task)?;
    for name in &names {
        task.set(alloc, name.as_str(), None)?;
    }
    Ok(())
}
