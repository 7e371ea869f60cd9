// `import`: each element of the input acts on what those before it leave.
ghost use Rattle.std.specs.Prelude.{◌≡◌, ◌||◌, ◌∷◌, ◌++◌, [], List, ℕ, None, Some, Result, IfOk, OnOk, OnErr};
ghost use Rattle.std.specs.BTreeSet as set;
ghost use Rattle.tw_model.specs.Maps.{bytes_cmp};
ghost use Rattle.tw_model.specs.declared.changes.Change.{Change as AnyChange};
ghost use Rattle.tw_import.specs.declared.import.Imported.{Imported as Element};
ghost use Rattle.tw_changes.specs.Makes.Import as spec;

use crate::refusal::Refusal;
use crate::request::{Request, draw};
use std::alloc::Global;
use std::collections::BTreeSet;
use tw_import::{ImportError, Imported, read_import};
use tw_model::{Change, TaskMap, Tasks};
use tw_world::{IdWords, Memory, Text};
use uuid::Uuid;

// Puts the change of the task of a uuid after others, and the uuid beside theirs.
fn push_change(
    changes: &mut Vec<Change>,
    uuids: &mut BTreeSet<Uuid>,
    uuid: Uuid,
    task: TaskMap,
) -> Result<(), Memory>
    requires { (u : List ℕ) → set.contains bytes_cmp uuids.old u ≡ spec.is_changed changes.old.items u }
    ensures changes { OnOk result (changes.new.items ≡ changes.old.items ++ spec.change_to uuid task ∷ []) }
    ensures uuids { OnOk result ((u : List ℕ) → set.contains bytes_cmp uuids.new u ≡ spec.is_changed changes.new.items u) }
{
    uuids.insert(uuid)?;
    changes.push(Change {
        uuid,
        task: Some(task),
    })?;
    Ok(())
}

// Whether a uuid has a task already, or is one of these.
fn is_taken(tasks: &Tasks, uuids: &BTreeSet<Uuid>, uuid: Uuid) -> bool
    ensures { (changes : List AnyChange) → ((u : List ℕ) → set.contains bytes_cmp uuids.now u ≡ spec.is_changed changes u)
        → result ≡ spec.is_taken tasks.now changes uuid }
{
    tasks.get(uuid).is_some() || uuids.contains(&uuid)
}

// Puts the change of an element after others. Answers the uuid that was drawn if that is taken.
fn import_one(
    tasks: &Tasks,
    ids: &mut IdWords,
    changes: &mut Vec<Change>,
    uuids: &mut BTreeSet<Uuid>,
    element: Imported,
) -> Result<Option<Uuid>, Memory>
    requires { (u : List ℕ) → set.contains bytes_cmp uuids.old u ≡ spec.is_changed changes.old.items u }
    ensures goes_on { IfOk result (λ taken. taken ≡ None → (es : List Element)
        → spec.imports ids.old tasks.now changes.old.items (element ∷ es) ≡ spec.imports ids.new tasks.now changes.new.items es) }
    ensures stops { IfOk result (λ taken. (d : List ℕ) → taken ≡ Some d → (es : List Element)
        → spec.imports ids.old tasks.now changes.old.items (element ∷ es) ≡ spec.stopped d ids.new) }
    ensures uuids { IfOk result (λ taken. taken ≡ None
        → (u : List ℕ) → set.contains bytes_cmp uuids.new u ≡ spec.is_changed changes.new.items u) }
{
    let Imported { uuid, map } = element;
    match uuid {
        Some(uuid) => {
            push_change(changes, uuids, uuid, map)?;
            Ok(None)
        }
        None => {
            let uuid = draw(ids);
            if is_taken(tasks, uuids, uuid) {
                return Ok(Some(uuid));
            }
            push_change(changes, uuids, uuid, map)?;
            Ok(None)
        }
    }
}

// The changes of elements, or that a uuid which was drawn for one is taken.
fn imports(
    alloc: Global,
    tasks: &Tasks,
    ids: &mut IdWords,
    elements: Vec<Imported>,
) -> Result<Result<Vec<Change>, Refusal>, Memory>
    ensures { IfOk result (λ changes. spec.imports_view changes ids.new ≡ spec.imports ids.old tasks.now [] elements.items) }
{
    let mut changes = Vec::new(alloc);
    let mut uuids = BTreeSet::new(alloc);
    for element in elements {
        if let Some(uuid) = import_one(tasks, ids, &mut changes, &mut uuids, element)? {
            return Ok(Err(Refusal::IdTaken { uuid }));
        }
    }
    Ok(Ok(changes))
}

// An input that is no JSON array.
fn no_array(alloc: Global) -> Result<Refusal, Memory>
    ensures { IfOk result (λ refusal. refusal ≡ Refusal.BadInput 0 []) }
{
    let name = Text::from_str(alloc, "")?;
    Ok(Refusal::BadInput { index: 0, name })
}

/// The changes of the elements of a request's input, in these tasks. Without memory no identifier is drawn.
pub fn imports_in(
    alloc: Global,
    request: &Request<'_>,
    ids: &mut IdWords,
    tasks: &Tasks,
) -> Result<Result<Vec<Change>, Refusal>, Memory>
    ensures changes { IfOk result (λ changes. spec.imports_view changes ids.new
        ≡ spec.imports_in request.now ids.old tasks.now) }
    ensures want { OnErr result (ids.new ≡ ids.old) }
{
    let elements = match read_import(alloc, request.input.as_slice(), request.at) {
        Ok(elements) => elements,
        Err(ImportError::Task { index, name }) => {
            return Ok(Err(Refusal::BadInput { index, name }));
        }
        Err(ImportError::NotJson) => return Ok(Err(no_array(alloc)?)),
        Err(ImportError::Memory) => return Err(Memory),
    };
    let mut left = IdWords {
        start: ids.start,
        step: ids.step,
    };
    let changes = imports(alloc, tasks, &mut left, elements)?;
    *ids = left;
    Ok(changes)
}
