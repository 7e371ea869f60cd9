// The members of the export's own.
ghost use Rattle.std.specs.Prelude.{◌≡◌, ◌<◌, ◌++◌, ◌∷◌, [], OnOk, flat_map, is_some, codes};
ghost use Rattle.std.specs.Option.{option_copied};
ghost use Rattle.std.specs.List.{list_any};
ghost use Rattle.std.specs.FinMap as map;
ghost use Rattle.json.specs.Token.{string, key, number};
ghost use Rattle.tw_text.specs.Decimal.{decimal3};
ghost use Rattle.uuid.specs.Text.{hyphenated_text, lower};
ghost use Rattle.tw_export.specs.Export.{tag_of, dependency_of, text_tokens, texts_tokens, urgency_tokens};
ghost use Rattle.tw_export.specs.Owns.{own_at};

use crate::annotations::put_annotations;
use crate::members::Subject;
use crate::property::{dependency_of, tag_of};
use json::Writer;
use std::alloc::Global;
use std::str;
use tw_model::TaskMap;
use tw_text::put_decimal3;
use tw_world::Memory;
use uuid::Uuid;

/// The name of a member of the export's own.
#[tactic(auto, unfolding(crate::specs::Export::own_members))]
pub(crate) fn own_name(subject: &Subject<'_>, n: u64) -> &'static str
    requires { n < 5 }
    ensures { result.now ≡ (own_at subject.now n).0 }
{
    match n {
        0 => "annotations",
        1 => "depends",
        2 => "tags",
        3 => "urgency",
        _ => "uuid",
    }
}

/// Writes a member of the export's own, if it is not left out.
#[tactic(auto, unfolding(crate::specs::Export::own_members))]
pub(crate) fn put_own(
    writer: &mut Writer,
    alloc: Global,
    subject: &Subject<'_>,
    n: u64,
) -> Result<(), Memory>
    requires { n < 5 }
    ensures written { OnOk result (writer.new.tokens ≡ writer.old.tokens ++ (own_at subject.now n).1) }
    ensures before { writer.new.before ≡ writer.old.before }
{
    match n {
        0 => put_annotations(writer, alloc, subject.task),
        1 => put_depends(writer, subject.task),
        2 => put_tags(writer, subject.task),
        3 => put_urgency(writer, subject.urgency),
        _ => put_uuid(writer, subject.uuid),
    }
}

fn put_uuid(writer: &mut Writer, uuid: Uuid) -> Result<(), Memory>
    ensures written { OnOk result (writer.new.tokens ≡ writer.old.tokens ++ key (codes "uuid") ∷ string (hyphenated_text lower uuid) ∷ []) }
    ensures before { writer.new.before ≡ writer.old.before }
{
    writer.key("uuid")?;
    writer.string(uuid.hyphenated().encode_lower(&mut Uuid::encode_buffer()))?;
    Ok(())
}

fn put_thousandths(writer: &mut Writer, thousandths: i64) -> Result<(), Memory>
    ensures written { OnOk result (writer.new.tokens ≡ writer.old.tokens ++ number (decimal3 thousandths) ∷ []) }
    ensures before { writer.new.before ≡ writer.old.before }
{
    let text = put_decimal3(thousandths);
    writer.number(str::from_utf8(&text.bytes[..text.len as usize]).unwrap())?;
    Ok(())
}

fn put_urgency(writer: &mut Writer, urgency: Option<i64>) -> Result<(), Memory>
    ensures written { OnOk result (writer.new.tokens ≡ writer.old.tokens ++ urgency_tokens urgency) }
    ensures before { writer.new.before ≡ writer.old.before }
{
    let Some(urgency) = urgency else {
        return Ok(());
    };
    writer.key("urgency")?;
    put_thousandths(writer, urgency)
}

fn put_text(writer: &mut Writer, text: Option<&str>) -> Result<(), Memory>
    ensures written { OnOk result (writer.new.tokens ≡ writer.old.tokens ++ text_tokens (option_copied text.entry)) }
    ensures before { writer.new.before ≡ writer.old.before }
{
    if let Some(text) = text {
        writer.string(text)?;
    }
    Ok(())
}

fn has_tag(task: &TaskMap) -> bool
    ensures { result ≡ list_any (λ e. is_some (tag_of e)) (map.entries task.now) }
{
    for n in 0..task.len() {
        if tag_of(task.key(n), task.value(n)).is_some() {
            return true;
        }
    }
    false
}

fn put_each_tag(writer: &mut Writer, task: &TaskMap) -> Result<(), Memory>
    ensures written { OnOk result (writer.new.tokens ≡ writer.old.tokens ++ flat_map (λ e. text_tokens (tag_of e)) (map.entries task.now)) }
    ensures before { writer.new.before ≡ writer.old.before }
{
    for n in 0..task.len() {
        put_text(writer, tag_of(task.key(n), task.value(n)))?;
    }
    Ok(())
}

fn put_tags(writer: &mut Writer, task: &TaskMap) -> Result<(), Memory>
    ensures written { OnOk result (writer.new.tokens ≡ writer.old.tokens ++ texts_tokens (codes "tags") tag_of (map.entries task.now)) }
    ensures before { writer.new.before ≡ writer.old.before }
{
    if !has_tag(task) {
        return Ok(());
    }
    writer.key("tags")?;
    writer.begin_array()?;
    put_each_tag(writer, task)?;
    writer.end_array()?;
    Ok(())
}

fn has_dependency(task: &TaskMap) -> bool
    ensures { result ≡ list_any (λ e. is_some (dependency_of e)) (map.entries task.now) }
{
    for n in 0..task.len() {
        if dependency_of(task.key(n), task.value(n)).is_some() {
            return true;
        }
    }
    false
}

fn put_dependency(writer: &mut Writer, name: &str, value: &str) -> Result<(), Memory>
    ensures written { OnOk result (writer.new.tokens ≡ writer.old.tokens ++ text_tokens (dependency_of (name.now, value.now))) }
    ensures before { writer.new.before ≡ writer.old.before }
{
    if let Some(uuid) = dependency_of(name, value) {
        writer.string(uuid.hyphenated().encode_lower(&mut Uuid::encode_buffer()))?;
    }
    Ok(())
}

fn put_each_dependency(writer: &mut Writer, task: &TaskMap) -> Result<(), Memory>
    ensures written { OnOk result (writer.new.tokens ≡ writer.old.tokens ++ flat_map (λ e. text_tokens (dependency_of e)) (map.entries task.now)) }
    ensures before { writer.new.before ≡ writer.old.before }
{
    for n in 0..task.len() {
        put_dependency(writer, task.key(n), task.value(n))?;
    }
    Ok(())
}

fn put_depends(writer: &mut Writer, task: &TaskMap) -> Result<(), Memory>
    ensures written { OnOk result (writer.new.tokens ≡ writer.old.tokens ++ texts_tokens (codes "depends") dependency_of (map.entries task.now)) }
    ensures before { writer.new.before ≡ writer.old.before }
{
    if !has_dependency(task) {
        return Ok(());
    }
    writer.key("depends")?;
    writer.begin_array()?;
    put_each_dependency(writer, task)?;
    writer.end_array()?;
    Ok(())
}
