// A property's member.
ghost use Rattle.std.specs.Prelude.{◌≡◌, ◌<◌, ◌++◌, ◌∷◌, [], Some, option_map, map, OnOk};
ghost use Rattle.std.specs.Fmt.{decimal};
ghost use Rattle.std.specs.Option.{option_copied};
ghost use Rattle.json.specs.Token.{string};
ghost use Rattle.uuid.specs.Text.{hyphenated_text, lower};
ghost use Rattle.tw_model.specs.Maps.{same_bytes};
ghost use Rattle.tw_text.specs.Natural.{natural};
ghost use Rattle.tw_time.specs.Basic.{basic};
ghost use Rattle.tw_urgency.specs.Stored.{in_years};
ghost use Rattle.tw_urgency.specs.Status.{status_of};
ghost use Rattle.tw_export.specs.Export.{is_among, moment_names, own_names, moment_or, status_word, number_or, value_token};
ghost use Rattle.tw_export.specs.Export.{is_listed, is_left_out, tag_of, dependency_of, property_tokens};

use json::Writer;
use std::str;
use tw_model::TaskMap;
use tw_text::read_u64;
use tw_time::print_basic;
use tw_urgency::{Status, dependency_in, is_annotation, status_of};
use tw_world::{MOMENT_LIMIT, Memory};
use uuid::Uuid;

/// Writes a property's member, if it has one of its own.
pub(crate) fn put_property(
    writer: &mut Writer,
    task: &TaskMap,
    second: u64,
    name: &str,
    value: &str,
) -> Result<(), Memory>
    ensures written { OnOk result (writer.new.tokens ≡ writer.old.tokens ++ property_tokens task.now second (name.now, value.now)) }
    ensures before { writer.new.before ≡ writer.old.before }
{
    if is_left_out(name, value) {
        return Ok(());
    }
    writer.key(name)?;
    put_value(writer, task, second, name, value)
}

#[tactic(auto, unfolding(crate::specs::Export::is_left_out))]
fn is_left_out(name: &str, value: &str) -> bool
    ensures { result ≡ is_left_out (name.now, value.now) }
{
    is_own_name(name) || is_listed(name, value) || is_annotation(name)
}

fn is_listed(name: &str, value: &str) -> bool
    ensures { result ≡ is_listed (name.now, value.now) }
{
    tag_of(name, value).is_some() || dependency_of(name, value).is_some()
}

/// The tag that a property is, if it is one.
#[tactic(auto, unfolding(crate::specs::Export::tag_of))]
pub(crate) fn tag_of<'a>(name: &'a str, value: &str) -> Option<&'a str>
    ensures { option_copied result ≡ tag_of (name.now, value.now) }
{
    if value.is_empty() {
        name.strip_prefix("tag_")
    } else {
        None
    }
}

/// The dependency that a property is, if it is one.
#[tactic(auto, unfolding(crate::specs::Export::dependency_of))]
pub(crate) fn dependency_of(name: &str, value: &str) -> Option<Uuid>
    ensures { option_map (hyphenated_text lower) result ≡ dependency_of (name.now, value.now) }
{
    if value.is_empty() {
        dependency_in(name)
    } else {
        None
    }
}

// The names that the export keeps for itself.
const OWN_NAMES: [&str; 6] = ["annotations", "depends", "id", "tags", "urgency", "uuid"];

// The properties whose values are moments.
const MOMENT_NAMES: [&str; 8] = [
    "due",
    "end",
    "entry",
    "modified",
    "scheduled",
    "start",
    "until",
    "wait",
];

// Whether a name is one of these.
fn is_among(names: &[&str], name: &str) -> bool
    ensures { result ≡ is_among (map (λ n. n.now) names.now) name.now }
{
    for other in names {
        if name == *other {
            return true;
        }
    }
    false
}

// Whether the export keeps a name for itself.
fn is_own_name(name: &str) -> bool
    ensures { result ≡ is_among own_names name.now }
{
    is_among(&OWN_NAMES, name)
}

// Whether the values of a property are moments.
fn is_moment_name(name: &str) -> bool
    ensures { result ≡ is_among moment_names name.now }
{
    is_among(&MOMENT_NAMES, name)
}

#[tactic(auto, unfolding(crate::specs::Export::value_token))]
fn put_value(
    writer: &mut Writer,
    task: &TaskMap,
    second: u64,
    name: &str,
    value: &str,
) -> Result<(), Memory>
    ensures written { OnOk result (writer.new.tokens ≡ writer.old.tokens ++ value_token task.now second name.now value.now ∷ []) }
    ensures before { writer.new.before ≡ writer.old.before }
{
    if is_moment_name(name) {
        return put_moment_or(writer, value);
    }
    match name {
        "status" => put_status(writer, value, status_of(task, second)),
        "imask" => put_number_or(writer, value),
        _ => {
            writer.string(value)?;
            Ok(())
        }
    }
}

// Writes a moment that reads in its basic text, and any other value as it is.
fn put_moment_or(writer: &mut Writer, value: &str) -> Result<(), Memory>
    ensures written { OnOk result (writer.new.tokens ≡ writer.old.tokens ++ string (moment_or value.now (in_years (natural value.now))) ∷ []) }
    ensures before { writer.new.before ≡ writer.old.before }
{
    if let Some(at) = read_u64(value) {
        if at < MOMENT_LIMIT {
            return put_moment(writer, at);
        }
    }
    writer.string(value)?;
    Ok(())
}

/// Writes a moment in its basic text.
pub(crate) fn put_moment(writer: &mut Writer, at: u64) -> Result<(), Memory>
    requires { at < MOMENT_LIMIT }
    ensures written { OnOk result (writer.new.tokens ≡ writer.old.tokens ++ string (basic at) ∷ []) }
    ensures before { writer.new.before ≡ writer.old.before }
{
    let text = print_basic(at);
    writer.string(str::from_utf8(&text).unwrap())?;
    Ok(())
}

fn put_status(writer: &mut Writer, word: &str, status: Status) -> Result<(), Memory>
    ensures written { OnOk result (writer.new.tokens ≡ writer.old.tokens ++ string (status_word word.now status) ∷ []) }
    ensures before { writer.new.before ≡ writer.old.before }
{
    writer.string(match status {
        Status::Waiting => "waiting",
        _ => word,
    })?;
    Ok(())
}

// Writes a number of at most nine digits as one, and any other value as a text.
fn put_number_or(writer: &mut Writer, value: &str) -> Result<(), Memory>
    ensures written { OnOk result (writer.new.tokens ≡ writer.old.tokens ++ number_or value.now ∷ []) }
    ensures before { writer.new.before ≡ writer.old.before }
{
    if let Some(n) = read_u64(value) {
        if n < 1_000_000_000 && is_decimal_of(value, n) {
            writer.number(value)?;
            return Ok(());
        }
    }
    writer.string(value)?;
    Ok(())
}

// Whether a text is what a number is written as: without a leading zero.
fn is_decimal_of(text: &str, n: u64) -> bool
    ensures { result ≡ same_bytes (decimal n) text.now }
{
    let mut buffer = itoa::Buffer::new();
    buffer.format(n) == text
}
