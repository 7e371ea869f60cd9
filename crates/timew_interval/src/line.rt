// Writing lines.
ghost use Rattle.std.specs.Prelude.{◌≡◌, ◌<◌, ◌++◌, true, OnOk, IfSome};
ghost use Rattle.std.specs.List.{list_any, AllByRecursion};
ghost use Rattle.std.specs.Str.{is_utf8};
ghost use Rattle.tw_world.specs.declared.moment.TheConstants.{MOMENT_LIMIT};
ghost use Rattle.tw_time.specs.Basic.{basic};
ghost use Rattle.timew_interval.specs.Interval.{IsRow};
ghost use Rattle.timew_interval.specs.ReadBack.{IsPrinted, IsWritable};
ghost use Rattle.timew_interval.specs.Line.{is_special, is_escaped, escaped, quoted, tag_text, tags_text, note_text, tail_text};
ghost use Rattle.timew_interval.specs.Line.{end_text, line_text};

use crate::characters::{is_escaped, is_special};
use crate::interval::Interval;
use crate::interval::texts::Texts;
use tw_time::print_basic;
use tw_world::Memory;

fn put(out: &mut Vec<u8>, bytes: &[u8]) -> Result<(), Memory>
    ensures { OnOk result (out.new.items ≡ out.old.items ++ bytes.now) }
{
    out.extend_from_slice(bytes)?;
    Ok(())
}

fn put_escaped(out: &mut Vec<u8>, text: &[u8]) -> Result<(), Memory>
    ensures { OnOk result (out.new.items ≡ out.old.items ++ escaped text.now) }
{
    for byte in text {
        if is_escaped(*byte) {
            out.push(b'\\')?;
        }
        out.push(*byte)?;
    }
    Ok(())
}

fn put_quoted(out: &mut Vec<u8>, text: &[u8]) -> Result<(), Memory>
    ensures { OnOk result (out.new.items ≡ out.old.items ++ quoted text.now) }
{
    out.push(b'"')?;
    put_escaped(out, text)?;
    out.push(b'"')?;
    Ok(())
}

fn has_special(text: &[u8]) -> bool
    ensures { result ≡ list_any is_special text.now }
{
    text.iter().any(|byte| is_special(*byte))
}

fn put_tag(out: &mut Vec<u8>, tag: &[u8]) -> Result<(), Memory>
    ensures { OnOk result (out.new.items ≡ out.old.items ++ tag_text tag.now) }
{
    if has_special(tag) {
        put_quoted(out, tag)
    } else {
        put(out, tag)
    }
}

fn put_tags(out: &mut Vec<u8>, tags: &Texts) -> Result<(), Memory>
    ensures text { OnOk result (out.new.items ≡ out.old.items ++ tags_text tags.now) }
    ensures utf8 { OnOk result (AllByRecursion (λ tag. is_utf8 tag ≡ true) tags.now) }
{
    let len = tags.len();
    for n in 0..len {
        put_tag(out, tags.at(n).as_bytes())?;
        if n + 1 < len {
            out.push(b' ')?;
        }
    }
    Ok(())
}

fn put_note(out: &mut Vec<u8>, note: &[u8]) -> Result<(), Memory>
    ensures { OnOk result (out.new.items ≡ out.old.items ++ note_text note.now) }
{
    if note.len() == 0 {
        return Ok(());
    }
    put(out, b" # ")?;
    put_quoted(out, note)
}

/// Writes what a line has after its moments.
pub fn put_tail(out: &mut Vec<u8>, tags: &Texts, note: &[u8]) -> Result<(), Memory>
    ensures text { OnOk result (out.new.items ≡ out.old.items ++ tail_text tags.now note.now) }
    ensures utf8 { OnOk result (AllByRecursion (λ tag. is_utf8 tag ≡ true) tags.now) }
{
    if tags.len() > 0 {
        put(out, b" # ")?;
        put_tags(out, tags)?;
        return put_note(out, note);
    }
    if note.len() > 0 {
        put(out, b" #")?;
    }
    put_note(out, note)
}

// Writes a moment, which is read back from what is written.
fn put_moment(out: &mut Vec<u8>, at: u64) -> Result<(), Memory>
    requires { at < MOMENT_LIMIT }
    ensures text { OnOk result (out.new.items ≡ out.old.items ++ basic at) }
    ensures printed { OnOk result (IsPrinted at) }
{
    let text = print_basic(at);
    put(out, &text)
}

fn put_end(out: &mut Vec<u8>, end: Option<u64>) -> Result<(), Memory>
    requires { IfSome end (λ at. at < MOMENT_LIMIT) }
    ensures text { OnOk result (out.new.items ≡ out.old.items ++ end_text end) }
    ensures printed { OnOk result (IfSome end IsPrinted) }
{
    if let Some(end) = end {
        put(out, b" - ")?;
        put_moment(out, end)?;
    }
    Ok(())
}

/// Writes the line of an interval, without a newline. Such a line is read back as the interval.
pub fn put_line(out: &mut Vec<u8>, row: &Interval) -> Result<(), Memory>
    requires start { row.now.start < MOMENT_LIMIT }
    requires end { IfSome row.now.end (λ at. at < MOMENT_LIMIT) }
    ensures text { OnOk result (out.new.items ≡ out.old.items ++ line_text row.now) }
    ensures writable { IsRow row.now → OnOk result (IsWritable row.now) }
{
    put(out, b"inc ")?;
    put_moment(out, row.start)?;
    put_end(out, row.end)?;
    put_tail(out, &row.tags, row.annotation.as_str().as_bytes())?;
    Ok(())
}
