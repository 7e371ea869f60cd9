// The texts of the months of intervals.
ghost use Rattle.std.specs.Prelude.{◌≡◌, ◌<◌, ◌≤◌, ◌-◌, ◌++◌, ◌∷◌, [], true, length, take, OnOk, IfOk};
ghost use Rattle.timew_interval.specs.MonthName.{is_month_name};
ghost use Rattle.timew_interval.specs.Edit.{edited, IsEditOf};
ghost use Rattle.timew_interval.specs.Interval.{IsRow, AreRows};
ghost use Rattle.timew_month.specs.Known.{part, IsMonthOf};
ghost use Rattle.timew_interval.specs.Line.{line_text};
ghost use Rattle.timew_interval.specs.MonthName.{month_name};
ghost use Rattle.timew_month.specs.MonthTexts.{text_of, texts_of, AddTexts};
ghost use Rattle.timew_interval.specs.ReadBack.{IsWritable};

use crate::months::Months;
use crate::write::known::known_month;
use std::alloc::Global;
use timew_interval::{Edit, Interval, is_in_month, month_name, name_text, put_line};
use tw_world::{Memory, Text};

/// The text of the month of some intervals: bytes that a file is known to have, and new ones after them.
#[derive(Drop)]
pub(crate) struct MonthText<'a> {
    pub name: Text,
    pub known: &'a [u8],
    pub new: Vec<u8>,
}

// Writes the line of an interval with its newline.
fn put_row(out: &mut Vec<u8>, row: &Interval) -> Result<(), Memory>
    requires { IsRow row.now }
    ensures text { OnOk result (out.new.items ≡ out.old.items ++ (line_text row.now ++ 10 ∷ [])) }
    ensures writable { OnOk result (IsWritable row.now) }
{
    put_line(out, row)?;
    out.push(b'\n')?;
    Ok(())
}

// The first so many intervals, which start in one month, as the text of that month.
fn first_month<'a>(alloc: Global, rows: &[Interval]) -> Result<(MonthText<'a>, usize), Memory>
    requires some { 0 < length rows.now }
    requires are { AreRows rows.now }
    ensures some { IfOk result (λ x. 0 < x.1) }
    ensures inside { IfOk result (λ x. x.1 ≤ length rows.now) }
    ensures month { IfOk result (λ x. IsMonthOf x.0.name (text_of x.0).1 (take x.1 rows.now)) }
    ensures good { IfOk result (λ x. is_month_name x.0.name ≡ true) }
{
    let name = month_name(rows[0].start);
    let mut new = Vec::new(alloc);
    put_row(&mut new, &rows[0])?;
    let mut count = 1;
    while count < rows.len() && is_in_month(&name, &rows[count]) {
        put_row(&mut new, &rows[count])?;
        count += 1;
    }
    let name = name_text(alloc, &name)?;
    let known = &[];
    Ok((MonthText { name, known, new }, count))
}

// The same of intervals that the months have from a number on. If a file is known to be the text, it is taken as it is.
fn next_month<'a>(
    alloc: Global,
    months: &'a Months,
    first: usize,
    rows: &[Interval],
) -> Result<(MonthText<'a>, usize), Memory>
    requires some { 0 < length rows.now }
    requires are { AreRows rows.now }
    requires part { rows.now ≡ part first (length rows.now) months.now.rows }
    ensures some { IfOk result (λ x. 0 < x.1) }
    ensures inside { IfOk result (λ x. x.1 ≤ length rows.now) }
    ensures month { IfOk result (λ x. IsMonthOf x.0.name (text_of x.0).1 (take x.1 rows.now)) }
    ensures good { IfOk result (λ x. is_month_name x.0.name ≡ true) }
{
    match known_month(alloc, months, first, rows) {
        Ok(Some(month)) => Ok(month),
        Ok(None) => first_month(alloc, rows),
        Err(Memory) => Err(Memory),
    }
}

// Puts the texts of the months of intervals after others.
fn put_texts<'a>(
    alloc: Global,
    rows: &[Interval],
    texts: &mut Vec<MonthText<'a>>,
) -> Result<(), Memory>
    requires { AreRows rows.now }
    ensures { OnOk result (AddTexts (texts_of texts.old.items) (texts_of texts.new.items) rows.now) }
{
    let mut rest = rows;
    while rest.len() > 0 {
        let (month, count) = match first_month(alloc, rest) {
            Ok(first) => first,
            Err(Memory) => return Err(Memory),
        };
        texts.push(month)?;
        let (_, others) = rest.split_at(count);
        rest = others;
    }
    Ok(())
}

// The same of intervals that the months have up to a number.
fn put_known<'a>(
    alloc: Global,
    months: &'a Months,
    end: usize,
    rows: &[Interval],
    texts: &mut Vec<MonthText<'a>>,
) -> Result<(), Memory>
    requires are { AreRows rows.now }
    requires inside { length rows.now ≤ end }
    requires part { rows.now ≡ part (end - length rows.now) (length rows.now) months.now.rows }
    ensures { OnOk result (AddTexts (texts_of texts.old.items) (texts_of texts.new.items) rows.now) }
{
    let mut rest = rows;
    while rest.len() > 0 {
        let (month, count) = match next_month(alloc, months, end - rest.len(), rest) {
            Ok(next) => next,
            Err(Memory) => return Err(Memory),
        };
        texts.push(month)?;
        let (_, others) = rest.split_at(count);
        rest = others;
    }
    Ok(())
}

/// The text of each month in which intervals start after an edit. What is known of month files is not written again.
pub(crate) fn texts_of<'a>(
    alloc: Global,
    months: &'a Months,
    edit: &Edit,
) -> Result<Vec<MonthText<'a>>, Memory>
    requires { IsEditOf months.now.rows edit.now }
    ensures { IfOk result (λ texts. AddTexts [] (texts_of texts.items) (edited edit.now months.now.rows)) }
{
    let rows = months.rows.as_slice();
    let (front, rest) = rows.split_at(edit.at);
    let (_, back) = rest.split_at(edit.count);
    let mut texts = Vec::new(alloc);
    put_known(alloc, months, edit.at, front, &mut texts)?;
    put_texts(alloc, &edit.rows, &mut texts)?;
    put_known(alloc, months, rows.len(), back, &mut texts)?;
    Ok(texts)
}
