// `export`: the intervals as JSON.
ghost use Rattle.std.specs.Fmt.{decimal};
ghost use Rattle.std.specs.Prelude.{[], ◌∷◌, codes, map, ◌++◌, cond, ◌≡◌, ◌<◌, IfSome, IfOk, OnOk};
ghost use Rattle.json.specs.Token.{key, string, number};
ghost use Rattle.tw_time.specs.Basic.{basic};
ghost use Rattle.tw_time.specs.Civil.{limit};
ghost use Rattle.timew_interval.specs.Interval.{AreRows, IsRow};
ghost use Rattle.timew_cmd.specs.Commands.Export.{annotation_tokens, end_tokens, tags_tokens, row_tokens, row_text, lines, export};
ghost use Rattle.timew_cmd.specs.Ranges.{rows_within};

use crate::range::is_within;
use json::Writer;
use std::alloc::Global;
use std::str;
use timew_interval::{Interval, Intervals, Texts};
use tw_time::print_basic;
use tw_world::Memory;

/// The intervals that share a second with a range, whole, as JSON, as timew-export(1) has it: a list of one object a line, in the
/// order of their starts. The range is from a second up to another, and an open interval is measured to now. Moments are in the
/// basic format and in UTC.
pub fn export_text(
    alloc: Global,
    rows: &Intervals,
    from: u64,
    to: u64,
    now: u64,
) -> Result<Vec<u8>, Memory>
    ensures { IfOk result (λ text. text.items ≡ export rows.now from to now) }
{
    let mut text = Vec::new(alloc);
    text.extend_from_slice(b"[\n")?;
    put_rows(alloc, &mut text, rows.as_slice(), from, to, now)?;
    text.extend_from_slice(b"]\n")?;
    Ok(text)
}

// Puts the objects of the intervals in a range after a text, each on a line of its own.
fn put_rows(
    alloc: Global,
    text: &mut Vec<u8>,
    rows: &[Interval],
    from: u64,
    to: u64,
    now: u64,
) -> Result<(), Memory>
    requires { AreRows rows.now }
    ensures { OnOk result (text.new.items ≡ text.old.items ++ lines (map row_text (rows_within from to now rows.now))) }
{
    let mut object = Vec::new(alloc);
    let mut is_first = true;
    for (k, row) in rows.iter().enumerate() {
        if is_within(from, to, now, row) {
            object = object_of(object, (rows.len() - k) as u64, row)?;
            put_object(text, is_first, &object)?;
            is_first = false;
        }
    }
    if !is_first {
        text.push(b'\n')?;
    }
    Ok(())
}

// Puts an object after a text, parted from the one before.
fn put_object(text: &mut Vec<u8>, is_first: bool, object: &[u8]) -> Result<(), Memory>
    ensures { OnOk result (text.new.items ≡ text.old.items ++ (cond is_first [] (codes ",\n") ++ object.now)) }
{
    if !is_first {
        text.extend_from_slice(b",\n")?;
    }
    text.extend_from_slice(object)?;
    Ok(())
}

// An interval's object, in the memory of the one before: a writer makes room in advance, the more the longer its text is.
#[tactic(auto, unfolding(crate::specs::Commands::Export::row_text))]
fn object_of(before: Vec<u8>, id: u64, row: &Interval) -> Result<Vec<u8>, Memory>
    requires { IsRow row.now }
    ensures { IfOk result (λ object. object.items ≡ row_text (id, row.now)) }
{
    let mut room = before;
    room.clear();
    let mut writer = Writer::new(room);
    match put_row(&mut writer, id, row) {
        Ok(()) => Ok(writer.into_inner()),
        Err(error) => Err(error),
    }
}

fn put_row(writer: &mut Writer, id: u64, row: &Interval) -> Result<(), Memory>
    requires { IsRow row.now }
    ensures written { OnOk result (writer.new.tokens ≡ writer.old.tokens ++ row_tokens (id, row.now)) }
    ensures before { writer.new.before ≡ writer.old.before }
{
    writer.begin_object()?;
    put_annotation(writer, row.annotation.as_str())?;
    put_end(writer, row.end)?;
    put_number(writer, id)?;
    put_start(writer, row.start)?;
    put_tags(writer, &row.tags)?;
    writer.end_object()?;
    Ok(())
}

fn put_number(writer: &mut Writer, id: u64) -> Result<(), Memory>
    ensures written { OnOk result (writer.new.tokens ≡ writer.old.tokens ++ key (codes "id") ∷ number (decimal id) ∷ []) }
    ensures before { writer.new.before ≡ writer.old.before }
{
    writer.key("id")?;
    writer.u64(id)?;
    Ok(())
}

fn put_start(writer: &mut Writer, at: u64) -> Result<(), Memory>
    requires { at < limit }
    ensures written { OnOk result (writer.new.tokens ≡ writer.old.tokens ++ key (codes "start") ∷ string (basic at) ∷ []) }
    ensures before { writer.new.before ≡ writer.old.before }
{
    writer.key("start")?;
    put_moment(writer, at)
}

fn put_annotation(writer: &mut Writer, text: &str) -> Result<(), Memory>
    ensures written { OnOk result (writer.new.tokens ≡ writer.old.tokens ++ annotation_tokens text.now) }
    ensures before { writer.new.before ≡ writer.old.before }
{
    if !text.is_empty() {
        writer.key("annotation")?;
        writer.string(text)?;
    }
    Ok(())
}

fn put_moment(writer: &mut Writer, at: u64) -> Result<(), Memory>
    requires { at < limit }
    ensures written { OnOk result (writer.new.tokens ≡ writer.old.tokens ++ string (basic at) ∷ []) }
    ensures before { writer.new.before ≡ writer.old.before }
{
    let text = print_basic(at);
    writer.string(str::from_utf8(&text).unwrap())?;
    Ok(())
}

fn put_end(writer: &mut Writer, end: Option<u64>) -> Result<(), Memory>
    requires { IfSome end (λ at. at < limit) }
    ensures written { OnOk result (writer.new.tokens ≡ writer.old.tokens ++ end_tokens end) }
    ensures before { writer.new.before ≡ writer.old.before }
{
    if let Some(at) = end {
        writer.key("end")?;
        put_moment(writer, at)?;
    }
    Ok(())
}

fn put_each_tag(writer: &mut Writer, tags: &Texts) -> Result<(), Memory>
    ensures written { OnOk result (writer.new.tokens ≡ writer.old.tokens ++ map string tags.now) }
    ensures before { writer.new.before ≡ writer.old.before }
{
    for n in 0..tags.len() {
        writer.string(tags.at(n))?;
    }
    Ok(())
}

fn put_tags(writer: &mut Writer, tags: &Texts) -> Result<(), Memory>
    ensures written { OnOk result (writer.new.tokens ≡ writer.old.tokens ++ tags_tokens tags.now) }
    ensures before { writer.new.before ≡ writer.old.before }
{
    if tags.len() == 0 {
        return Ok(());
    }
    writer.key("tags")?;
    writer.begin_array()?;
    put_each_tag(writer, tags)?;
    writer.end_array()?;
    Ok(())
}
