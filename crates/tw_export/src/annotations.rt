// The annotations of a task.
ghost use Rattle.std.specs.Prelude.{◌≡◌, ◌<◌, ◌++◌, [], OnOk, IfOk, IfSome, flat_map};
ghost use Rattle.std.specs.FinMap as map;
ghost use Rattle.tw_export.specs.Export.{annotation_tokens, annotations_tokens, with_annotation, with_annotations};
ghost use Rattle.tw_export.specs.Owns.{IsAnnotationRank, AreAnnotationRanks};

use crate::property::put_moment;
use json::Writer;
use std::alloc::Global;
use std::collections::BTreeSet;
use tw_model::TaskMap;
use tw_urgency::annotated;
use tw_world::{MOMENT_LIMIT, Memory};

/// Writes the annotations as a list in order of their seconds, if there are any.
pub(crate) fn put_annotations(
    writer: &mut Writer,
    alloc: Global,
    task: &TaskMap,
) -> Result<(), Memory>
    ensures written { OnOk result (writer.new.tokens ≡ writer.old.tokens ++ annotations_tokens task.now (with_annotations [] 0 (map.keys task.now))) }
    ensures before { writer.new.before ≡ writer.old.before }
{
    let ranks = annotations_of(alloc, task)?;
    if ranks.is_empty() {
        return Ok(());
    }
    writer.key("annotations")?;
    writer.begin_array()?;
    put_each_annotation(writer, task, &ranks)?;
    writer.end_array()?;
    Ok(())
}

// The annotations in order of their seconds, by the numbers of their properties.
fn annotations_of(alloc: Global, task: &TaskMap) -> Result<BTreeSet<(u64, u64)>, Memory>
    ensures value { IfOk result (λ ranks. ranks.keys ≡ with_annotations [] 0 (map.keys task.now)) }
    ensures right { IfOk result (λ ranks. AreAnnotationRanks task.now ranks.keys) }
{
    let mut ranks = BTreeSet::new(alloc);
    for n in 0..task.len() {
        add_annotation(&mut ranks, task, n, annotated(task.key(n)))?;
    }
    Ok(ranks)
}

fn add_annotation(
    ranks: &mut BTreeSet<(u64, u64)>,
    task: &TaskMap,
    n: u64,
    at: Option<u64>,
) -> Result<(), Memory>
    requires right { AreAnnotationRanks task.now ranks.old.keys }
    requires at { IfSome at (λ at. at < MOMENT_LIMIT) }
    requires n { n < map.len task.now }
    ensures value { OnOk result (ranks.new.keys ≡ with_annotation ranks.old.keys n at) }
    ensures right { OnOk result (AreAnnotationRanks task.now ranks.new.keys) }
{
    if let Some(at) = at {
        let _ = ranks.insert((at, n))?;
    }
    Ok(())
}

fn put_each_annotation(
    writer: &mut Writer,
    task: &TaskMap,
    ranks: &BTreeSet<(u64, u64)>,
) -> Result<(), Memory>
    requires { AreAnnotationRanks task.now ranks.now.keys }
    ensures written { OnOk result (writer.new.tokens ≡ writer.old.tokens ++ flat_map (annotation_tokens task.now) ranks.now.keys) }
    ensures before { writer.new.before ≡ writer.old.before }
{
    for rank in ranks {
        put_annotation(writer, task, *rank)?;
    }
    Ok(())
}

fn put_annotation(writer: &mut Writer, task: &TaskMap, rank: (u64, u64)) -> Result<(), Memory>
    requires { IsAnnotationRank task.now rank }
    ensures written { OnOk result (writer.new.tokens ≡ writer.old.tokens ++ annotation_tokens task.now rank) }
    ensures before { writer.new.before ≡ writer.old.before }
{
    writer.begin_object()?;
    writer.key("description")?;
    writer.string(task.value(rank.1))?;
    writer.key("entry")?;
    put_moment(writer, rank.0)?;
    writer.end_object()?;
    Ok(())
}
