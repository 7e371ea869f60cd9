// Month files that are known to be the text of intervals, so that their lines need not be written again to see what changes.
ghost use Rattle.std.specs.Prelude.{◌≡◌, ◌<◌, ◌≤◌, length, take, true, IfOk, IfSome};
ghost use Rattle.std.specs.List.{AllByRecursion};
ghost use Rattle.timew_interval.specs.MonthName.{is_month_name};
ghost use Rattle.timew_interval.specs.Interval.{AreRows};
ghost use Rattle.timew_month.specs.Known.{part, IsKnown, IsMonthOf, IsOfMonth, first_name};
ghost use Rattle.timew_month.specs.MonthTexts.{text_of};
ghost use Rattle.timew_interval.specs.ReadBack.{IsWritable};

use crate::months::{KnownText, Months};
use crate::write::month_texts::MonthText;
use std::alloc::Global;
use timew_interval::{Interval, is_in_month, month_name, name_text};
use tw_world::Memory;

// The text that is known of the first so many of these intervals, which the months have from a number on.
fn text_ahead(months: &Months, first: usize, rows: &[Interval]) -> Option<KnownText>
    requires { rows.now ≡ part first (length rows.now) months.now.rows }
    ensures known { IfSome result (IsKnown months.now.files.items months.now.rows) }
    ensures count { IfSome result (λ text. (0 < text.count) × (text.count ≤ length rows.now)) }
    ensures same { IfSome result (λ text. take text.count rows.now ≡ part text.first text.count months.now.rows) }
{
    for text in &months.known {
        if text.first == first && 0 < text.count && text.count <= rows.len() {
            return Some(*text);
        }
    }
    None
}

// Whether the first so many intervals start in one month: the last one starts in that of the first one.
fn is_one_month(rows: &[Interval], count: usize) -> bool
    requires some { 0 < count }
    requires inside { count ≤ length rows.now }
    requires are { AreRows rows.now }
    requires writable { AllByRecursion IsWritable (take count rows.now) }
    ensures { result ≡ true → AllByRecursion (IsOfMonth (first_name rows.now)) (take count rows.now) }
{
    let name = month_name(rows[0].start);
    is_in_month(&name, &rows[count - 1])
}

/// The text of the first so many of these intervals, which start in one month, if a file is known to be it.
pub(crate) fn known_month<'a>(
    alloc: Global,
    months: &'a Months,
    first: usize,
    rows: &[Interval],
) -> Result<Option<(MonthText<'a>, usize)>, Memory>
    requires some { 0 < length rows.now }
    requires are { AreRows rows.now }
    requires part { rows.now ≡ part first (length rows.now) months.now.rows }
    ensures some { IfOk result (λ known. IfSome known (λ x. 0 < x.1)) }
    ensures inside { IfOk result (λ known. IfSome known (λ x. x.1 ≤ length rows.now)) }
    ensures month { IfOk result (λ known. IfSome known (λ x. IsMonthOf x.0.name (text_of x.0).1 (take x.1 rows.now))) }
    ensures good { IfOk result (λ known. IfSome known (λ x. is_month_name x.0.name ≡ true)) }
{
    let Some(text) = text_ahead(months, first, rows) else {
        return Ok(None);
    };
    if text.file >= months.files.len() {
        return Ok(None);
    }
    let file = &months.files[text.file];
    if !is_one_month(rows, text.count) {
        return Ok(None);
    }
    let month = MonthText {
        name: name_text(alloc, &month_name(rows[0].start))?,
        known: &file.bytes,
        new: Vec::new(alloc),
    };
    Ok(Some((month, text.count)))
}
