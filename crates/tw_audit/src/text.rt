// What an audit prints.
ghost use Rattle.std.specs.Prelude.{◌≡◌, ◌++◌, string_bytes, OnOk, IfOk};
ghost use Rattle.uuid.specs.Text.{hyphenated_text, lower};
ghost use Rattle.tw_audit.specs.Text.{ending, counted, value_text, what_text, same_text, difference_text, audit_text};

use crate::auditing::Audited;
use crate::differences::{Difference, What};
use std::alloc::Global;
use tw_text::cell;
use tw_world::{Memory, Text};
use uuid::Uuid;

// The end of a word for so many.
fn ending(count: u64) -> &'static str
    ensures { result.now ≡ ending count }
{
    if count == 1 { "" } else { "s" }
}

// So many of what a word names.
fn put_count(
    alloc: Global,
    out: &mut String,
    count: u64,
    word: &str,
    after: &str,
) -> Result<(), Memory>
    ensures { OnOk result (string_bytes out.new ≡ string_bytes out.old ++ (counted count word.now ++ after.now)) }
{
    let number = format!(in alloc; "{}", count)?;
    out.push_str(number.as_str())?;
    out.push_str(word)?;
    out.push_str(ending(count))?;
    out.push_str(after)?;
    Ok(())
}

fn put_uuid(out: &mut String, uuid: Uuid, after: &str) -> Result<(), Memory>
    ensures { OnOk result (string_bytes out.new ≡ string_bytes out.old ++ (hyphenated_text lower uuid ++ after.now)) }
{
    let mut buffer = Uuid::encode_buffer();
    out.push_str(uuid.hyphenated().encode_lower(&mut buffer))?;
    out.push_str(after)?;
    Ok(())
}

// A value on one line.
fn put_value(
    alloc: Global,
    out: &mut String,
    value: &Option<Text>,
    after: &str,
) -> Result<(), Memory>
    ensures { OnOk result (string_bytes out.new ≡ string_bytes out.old ++ (value_text value.now ++ after.now)) }
{
    match value {
        Some(value) => out.push_str(cell(alloc, value.as_str())?.as_str())?,
        None => out.push_str("not set")?,
    }
    out.push_str(after)?;
    Ok(())
}

fn put_what(alloc: Global, out: &mut String, what: &What) -> Result<(), Memory>
    ensures { OnOk result (string_bytes out.new ≡ string_bytes out.old ++ what_text what.now) }
{
    match what {
        What::OnlyHere => out.push_str("it is only here\n")?,
        What::OnlyThere => out.push_str("it is only there\n")?,
        What::Value {
            property,
            here,
            there,
        } => {
            out.push_str(cell(alloc, property.as_str())?.as_str())?;
            out.push_str(" is ")?;
            put_value(alloc, out, here, " here, ")?;
            put_value(alloc, out, there, " there\n")?;
        }
    }
    Ok(())
}

fn put_same(alloc: Global, out: &mut String, found: &Audited) -> Result<(), Memory>
    ensures { OnOk result (string_bytes out.new ≡ string_bytes out.old ++ same_text found.now.tasks found.now.versions found.now.base) }
{
    out.push_str("same: ")?;
    put_count(alloc, out, found.tasks, " task", ", ")?;
    put_count(alloc, out, found.versions, " version", " to ")?;
    put_uuid(out, found.base, "\n")
}

fn put_difference(alloc: Global, out: &mut String, found: &Difference) -> Result<(), Memory>
    ensures { OnOk result (string_bytes out.new ≡ string_bytes out.old ++ difference_text found.now) }
{
    out.push_str("differs: ")?;
    put_count(alloc, out, found.tasks, " task", ", first ")?;
    put_uuid(out, found.uuid, ": ")?;
    put_what(alloc, out, &found.what)
}

/// What is printed of an audit, on one line. Each control character of a property or a value is a space.
pub fn audit_text(alloc: Global, found: &Audited) -> Result<String, Memory>
    ensures { IfOk result (λ text. string_bytes text ≡ audit_text found.now) }
{
    let mut text = String::new(alloc);
    match &found.difference {
        None => put_same(alloc, &mut text, found)?,
        Some(difference) => put_difference(alloc, &mut text, difference)?,
    }
    Ok(text)
}
