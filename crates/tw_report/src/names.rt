// The names that tasks have, and how often they occur.
ghost use Rattle.std.specs.Prelude.{◌≡◌, IfOk, OnOk};
ghost use Rattle.std.specs.Option.{option_copied};
ghost use Rattle.tw_terms.specs.Chosen.{chosen};
ghost use Rattle.tw_report.specs.Texts.{tag_in, count_name, count_project, count_tags, count_of, count_all, projects_text, tags_text};

use crate::count::Counts;
use std::alloc::Global;
use tw_model::TaskMap;
use tw_terms::{View, chosen_of};
use tw_world::Memory;
use uuid::Uuid;

/// The names of tasks that are counted.
#[derive(Clone, Copy)]
pub(crate) enum NameKind {
    Project,
    Tag,
}

/// A line for each project of the rows' tasks, in byte order: its name, and how many of them have it (task(1), under "projects").
/// Names are printed as they are stored.
pub fn projects_text(alloc: Global, rows: &Vec<Uuid>, view: &View<'_>) -> Result<Vec<u8>, Memory>
    ensures { IfOk result (λ text. text.items ≡ projects_text rows.now.items view.entry.now.tasks.now) }
{
    let mut counts = Counts::new(alloc);
    count_rows(alloc, &mut counts, NameKind::Project, rows, view)?;
    counts.lines(alloc)
}

/// A line for each tag of the rows' tasks, in byte order: its name, and how many of them have it (task(1), under "tags").
/// A tag is a property whose name begins with `tag_`, whatever its value. Names are printed as they are stored.
pub fn tags_text(alloc: Global, rows: &Vec<Uuid>, view: &View<'_>) -> Result<Vec<u8>, Memory>
    ensures { IfOk result (λ text. text.items ≡ tags_text rows.now.items view.entry.now.tasks.now) }
{
    let mut counts = Counts::new(alloc);
    count_rows(alloc, &mut counts, NameKind::Tag, rows, view)?;
    counts.lines(alloc)
}

// Counts the names that the tasks of rows have.
fn count_rows(
    alloc: Global,
    counts: &mut Counts,
    kind: NameKind,
    rows: &Vec<Uuid>,
    view: &View<'_>,
) -> Result<(), Memory>
    ensures { OnOk result (counts.new ≡ count_all (count_of kind) counts.old (chosen rows.now.items view.entry.now.tasks.now)) }
{
    let chosen = chosen_of(alloc, rows)?;
    for (uuid, task) in view.tasks.iter() {
        if chosen.contains(uuid) {
            count_task(alloc, counts, kind, task)?;
        }
    }
    Ok(())
}

fn count_task(
    alloc: Global,
    counts: &mut Counts,
    kind: NameKind,
    task: &TaskMap,
) -> Result<(), Memory>
    ensures { OnOk result (counts.new ≡ count_of kind counts.old task.now) }
{
    match kind {
        NameKind::Project => count_project(alloc, counts, task),
        NameKind::Tag => count_tags(alloc, counts, task),
    }
}

fn count_project(alloc: Global, counts: &mut Counts, task: &TaskMap) -> Result<(), Memory>
    ensures { OnOk result (counts.new ≡ count_project counts.old task.now) }
{
    count_any(alloc, counts, task.get("project"))
}

fn count_tags(alloc: Global, counts: &mut Counts, task: &TaskMap) -> Result<(), Memory>
    ensures { OnOk result (counts.new ≡ count_tags counts.old task.now) }
{
    for n in 0..task.len() {
        count_any(alloc, counts, tag_in(task.key(n)))?;
    }
    Ok(())
}

fn tag_in(property: &str) -> Option<&str>
    ensures { option_copied result ≡ tag_in property.now }
{
    property.strip_prefix("tag_")
}

fn count_any(alloc: Global, counts: &mut Counts, name: Option<&str>) -> Result<(), Memory>
    ensures { OnOk result (counts.new ≡ count_name counts.old (option_copied name.entry)) }
{
    match name {
        Some(name) => counts.add(alloc, name),
        None => Ok(()),
    }
}
