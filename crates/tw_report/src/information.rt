// All that is known of tasks.
ghost use Rattle.std.specs.Prelude.{◌≡◌, ◌++◌, IfOk, OnOk};
ghost use Rattle.std.specs.FinMap as map;
ghost use Rattle.tw_urgency.specs.Urgency.{AreWeights};
ghost use Rattle.tw_report.specs.Sight.{IsLook, sight_in, sight_of};
ghost use Rattle.tw_report.specs.Texts.{property_line, property_lines, plain_line, id_line, uuid_line, urgency_line, head_text, blank_line};
ghost use Rattle.tw_report.specs.Texts.{task_information, information_text};

use crate::field::{number_text, urgency_text};
use crate::look::{Look, id_in, look_at, urgency_in};
use std::alloc::Global;
use tw_model::TaskMap;
use tw_terms::{View, chosen_of};
use tw_text::cell;
use tw_urgency::Coefficients;
use tw_world::Memory;
use uuid::Uuid;

/// All that is known of the rows' tasks, in byte order of the uuid, with a blank line between two (task(1), under "information").
/// `id` is empty for a task without a number. Each stored property is one line, without control characters.
pub fn information_text(
    alloc: Global,
    rows: &Vec<Uuid>,
    view: &View<'_>,
    weights: &Coefficients,
) -> Result<Vec<u8>, Memory>
    requires { AreWeights weights.now }
    ensures { IfOk result (λ text. text.items ≡ information_text rows.now.items (sight_of view.entry.now weights.now)) }
{
    let look = look_at(alloc, view, weights, rows.len(), true)?;
    let mut text = Vec::new(alloc);
    push_tasks(alloc, &mut text, rows, &look)?;
    Ok(text)
}

// What is known of the rows' tasks, after a text.
fn push_tasks(
    alloc: Global,
    text: &mut Vec<u8>,
    rows: &Vec<Uuid>,
    look: &Look<'_>,
) -> Result<(), Memory>
    requires { IsLook look.now }
    ensures { OnOk result (text.new.items ≡ text.old.items ++ information_text rows.now.items (sight_in look.now)) }
{
    let chosen = chosen_of(alloc, rows)?;
    let mut is_first = true;
    for (uuid, task) in look.view.tasks.iter() {
        if chosen.contains(uuid) {
            push_task(alloc, text, is_first, look, *uuid, task)?;
            is_first = false;
        }
    }
    Ok(())
}

fn push_str(text: &mut Vec<u8>, more: &str) -> Result<(), Memory>
    ensures { OnOk result (text.new.items ≡ text.old.items ++ more.now) }
{
    text.extend_from_slice(more.as_bytes())?;
    Ok(())
}

fn push_line(alloc: Global, text: &mut Vec<u8>, name: &str, value: &str) -> Result<(), Memory>
    ensures { OnOk result (text.new.items ≡ text.old.items ++ property_line (name.now, value.now)) }
{
    let line = format!(in alloc; "{name}: {value}")?;
    push_str(text, cell(alloc, line.as_str())?.as_str())?;
    push_str(text, "\n")
}

fn push_lines(alloc: Global, text: &mut Vec<u8>, task: &TaskMap) -> Result<(), Memory>
    ensures { OnOk result (text.new.items ≡ text.old.items ++ property_lines (map.entries task.now)) }
{
    for n in 0..task.len() {
        push_line(alloc, text, task.key(n), task.value(n))?;
    }
    Ok(())
}

#[tactic(auto, unfolding(crate::specs::Texts::plain_line))]
fn push_plain(alloc: Global, text: &mut Vec<u8>, name: &str, value: &str) -> Result<(), Memory>
    ensures { OnOk result (text.new.items ≡ text.old.items ++ plain_line name.now value.now) }
{
    let line = format!(in alloc; "{name}: {value}\n")?;
    push_str(text, line.as_str())
}

#[tactic(auto, unfolding(crate::specs::Texts::uuid_line))]
fn push_uuid(alloc: Global, text: &mut Vec<u8>, uuid: Uuid) -> Result<(), Memory>
    ensures { OnOk result (text.new.items ≡ text.old.items ++ uuid_line uuid) }
{
    push_plain(
        alloc,
        text,
        "uuid",
        uuid.hyphenated().encode_lower(&mut Uuid::encode_buffer()),
    )
}

#[tactic(auto, unfolding(crate::specs::Texts::id_line))]
fn push_id(alloc: Global, text: &mut Vec<u8>, look: &Look<'_>, uuid: Uuid) -> Result<(), Memory>
    requires { IsLook look.now }
    ensures { OnOk result (text.new.items ≡ text.old.items ++ id_line (sight_in look.now) uuid) }
{
    push_plain(
        alloc,
        text,
        "id",
        number_text(alloc, id_in(look, uuid))?.as_str(),
    )
}

#[tactic(auto, unfolding(crate::specs::Texts::urgency_line))]
fn push_urgency(
    alloc: Global,
    text: &mut Vec<u8>,
    look: &Look<'_>,
    uuid: Uuid,
) -> Result<(), Memory>
    requires { IsLook look.now }
    ensures { OnOk result (text.new.items ≡ text.old.items ++ urgency_line (sight_in look.now) uuid) }
{
    push_plain(
        alloc,
        text,
        "urgency",
        urgency_text(alloc, urgency_in(look, uuid))?.as_str(),
    )
}

// What is found of a task.
#[tactic(auto, unfolding(crate::specs::Texts::head_text))]
fn push_head(alloc: Global, text: &mut Vec<u8>, look: &Look<'_>, uuid: Uuid) -> Result<(), Memory>
    requires { IsLook look.now }
    ensures { OnOk result (text.new.items ≡ text.old.items ++ head_text (sight_in look.now) uuid) }
{
    push_id(alloc, text, look, uuid)?;
    push_uuid(alloc, text, uuid)?;
    push_urgency(alloc, text, look, uuid)
}

fn push_blank_line(text: &mut Vec<u8>, is_first: bool) -> Result<(), Memory>
    ensures { OnOk result (text.new.items ≡ text.old.items ++ blank_line is_first) }
{
    if is_first {
        Ok(())
    } else {
        push_str(text, "\n")
    }
}

// A task's text, after a blank line if it is not the first.
fn push_task(
    alloc: Global,
    text: &mut Vec<u8>,
    is_first: bool,
    look: &Look<'_>,
    uuid: Uuid,
    task: &TaskMap,
) -> Result<(), Memory>
    requires { IsLook look.now }
    ensures { OnOk result (text.new.items ≡ text.old.items ++ (blank_line is_first ++ task_information (sight_in look.now) (uuid, task.now))) }
{
    push_blank_line(text, is_first)?;
    push_head(alloc, text, look, uuid)?;
    push_lines(alloc, text, task)
}
