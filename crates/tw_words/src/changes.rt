// What modification words make of a task: task(1), under "MODIFICATIONS".
ghost use Rattle.std.specs.Prelude.{◌≡◌, IfOk};
ghost use Rattle.tw_terms.specs.Scenes.{scene_of};
ghost use Rattle.tw_words.specs.Changed.{applied, changed};
ghost use Rattle.tw_settings.specs.Gives.{Gives};

pub(crate) mod dependencies;
pub(crate) mod depends_part;
pub(crate) mod draft;
pub(crate) mod field;
pub(crate) mod modification;
pub(crate) mod reading;

use crate::changes::draft::Draft;
use crate::changes::modification::Modification;
use crate::changes::reading::read_changes;
use crate::line::Line;
use std::alloc::Global;
use tw_model::TaskMap;
use tw_settings::WordError;
use tw_terms::View;
use tw_world::Memory;

/// What modifications make of a task. They are made in their order, so that a later one wins. Moments are stored in decimal seconds,
/// a tag as `tag_` and its name and a dependency as `dep_` and its uuid, both with an empty value.
pub fn apply(alloc: Global, changes: &Vec<Modification>, map: &TaskMap) -> Result<TaskMap, Memory>
    ensures { IfOk result (λ task. task ≡ applied changes.now.items map.now) }
{
    let mut draft = Draft::new(map.copy(alloc)?);
    for change in changes {
        draft.modify(alloc, change)?;
    }
    draft.made(alloc)
}

/// What the modification words of a line make of a task, or the first word that is wrong: `read_changes`, and then `apply`.
///
/// It is meant for the commands whose rest is `Rest::Modifications`. Of the others each word counts as a modification.
pub fn changed(
    alloc: Global,
    line: &Line,
    map: &TaskMap,
    view: &View<'_>,
) -> Result<TaskMap, WordError>
    ensures { Gives (λ task. task) result (changed (scene_of view.entry.now) line.now map.now) }
{
    match read_changes(alloc, line, view)? {
        Ok(changes) => Ok(apply(alloc, &changes, map)?),
        Err(bad) => Err(WordError::Bad(bad)),
    }
}
