// What becomes of the month files that are to hold intervals.
ghost use Rattle.std.specs.Prelude.{◌≡◌, ◌++◌, [], cond, true, Ok, OnOk, IfOk, IfSome};
ghost use Rattle.std.specs.List.{AllByRecursion};
ghost use Rattle.tw_world.specs.Folder.{Files, same_bytes};
ghost use Rattle.timew_month.specs.Body.{AreMonths};
ghost use Rattle.timew_interval.specs.Edit.{edited, IsEditOf};
ghost use Rattle.timew_month.specs.Gathered.{files_of};
ghost use Rattle.timew_month.specs.NamedFiles.{bytes_in, text_in, names_in, with_names, one_change, AreChangesTo};
ghost use Rattle.timew_month.specs.Changes.{changes_to, changed_files};
ghost use Rattle.timew_month.specs.Rows.{rows_of};
ghost use Rattle.timew_month.specs.MonthTexts.{text_of, texts_of};
ghost use Rattle.timew_interval.specs.ReadBack.{IsWritable};
ghost use Rattle.timew_month.specs.Records.{changes_of};

use crate::months::{MonthFile, Months, NewFile, bytes_in, names_of};
use crate::read::tail::after;
use crate::write::month_texts::{MonthText, texts_of};
use std::alloc::Global;
use timew_interval::{Edit, add_tag};
use tw_world::{Memory, Text};

// The names of the files that are there or get an interval, in byte order.
fn all_names(
    alloc: Global,
    files: &Vec<MonthFile>,
    texts: &Vec<MonthText>,
) -> Result<Vec<Text>, Memory>
    ensures { IfOk result (λ names. names.items ≡ with_names (texts_of texts.now.items) (names_in (files_of files.now.items))) }
{
    let mut names = names_of(alloc, files)?;
    for text in texts {
        add_tag(alloc, &mut names, text.name.as_str())?;
    }
    Ok(names)
}

// Puts a text after others, if it is one for this name.
fn put_text(out: &mut Vec<u8>, text: &MonthText, name: &Text) -> Result<(), Memory>
    ensures { OnOk result (out.new.items ≡ out.old.items ++ cond (same_bytes (text_of text.now).0 name.now) (text_of text.now).1 []) }
{
    if text.name.as_str() == name.as_str() {
        out.extend_from_slice(text.known)?;
        out.extend_from_slice(&text.new)?;
    }
    Ok(())
}

// The text for a name.
fn text_in(alloc: Global, texts: &Vec<MonthText>, name: &Text) -> Result<Vec<u8>, Memory>
    ensures { IfOk result (λ bytes. bytes.items ≡ text_in (texts_of texts.now.items) name.now) }
{
    let mut bytes = Vec::new(alloc);
    for text in texts {
        put_text(&mut bytes, text, name)?;
    }
    Ok(bytes)
}

// What the bytes have after a text, if they begin with it.
fn behind<'a>(text: &MonthText, bytes: &'a [u8]) -> Option<&'a [u8]>
    ensures { IfSome result (λ rest. bytes.now ≡ (text_of text.now).1 ++ rest.now) }
{
    let rest = after(text.known, bytes)?;
    after(&text.new, rest)
}

// Whether the bytes are known to be the text for a name.
fn is_text(bytes: &[u8], texts: &Vec<MonthText>, name: &Text) -> bool
    ensures { result ≡ true → bytes.now ≡ text_in (texts_of texts.now.items) name.now }
{
    let mut rest = bytes;
    for text in texts {
        if text.name.as_str() == name.as_str() {
            match behind(text, rest) {
                Some(others) => rest = others,
                None => return false,
            }
        }
    }
    rest.len() == 0
}

// What becomes of one file, if its text differs.
fn add_change(
    alloc: Global,
    files: &Vec<MonthFile>,
    texts: &Vec<MonthText>,
    name: &Text,
    out: &mut Vec<NewFile>,
) -> Result<(), Memory>
    ensures { OnOk result (changes_of out.new.items ≡ changes_of out.old.items ++ one_change (files_of files.now.items) (texts_of texts.now.items) name.now) }
{
    let old = bytes_in(files, name);
    if is_text(old, texts, name) {
        return Ok(());
    }
    let new = text_in(alloc, texts, name)?;
    if old != new.as_slice() {
        let name = name.copy(alloc)?;
        let old = old.to_vec(alloc)?;
        out.push(NewFile { name, old, new })?;
    }
    Ok(())
}

/// What an edit makes of each month file whose text differs, in byte order of the names.
pub fn changes_to(alloc: Global, months: &Months, edit: &Edit) -> Result<Vec<NewFile>, Memory>
    requires { IsEditOf months.now.rows edit.now }
    ensures changes { IfOk result (λ changes. AreChangesTo months.now.files.items (edited edit.now months.now.rows) (changes_of changes.items)) }
    ensures named { IfOk result (λ changes. AreMonths (changes_of changes.items)) }
    ensures writable { OnOk result (AllByRecursion IsWritable (edited edit.now months.now.rows)) }
    ensures hold { OnOk result ((files : Files) → rows_of (changed_files files (edited edit.now months.now.rows)) ≡ Ok (edited edit.now months.now.rows)) }
{
    let texts = match texts_of(alloc, months, edit) {
        Ok(texts) => texts,
        Err(Memory) => return Err(Memory),
    };
    let names = all_names(alloc, &months.files, &texts)?;
    let mut changes = Vec::new(alloc);
    for name in &names {
        add_change(alloc, &months.files, &texts, name, &mut changes)?;
    }
    Ok(changes)
}
