// Tags and annotations of intervals.
ghost use Rattle.std.specs.Prelude.{[], ◌∷◌, ◌++◌, ◌+◌, ◌≤◌, length, drop, Ok, ◌≡◌, IfOk};
ghost use Rattle.timew_interval.specs.Edit.{edited};
ghost use Rattle.timew_cmd.specs.Labels.{targets, each_of, with_tags, without_tags, with_annotation, with_label, labelled};
ghost use Rattle.timew_cmd.specs.Planned.{Answers};

use crate::chosen::Chosen;
use crate::error::TimewError;
use crate::numbers::checked;
use crate::open::open_of;
use crate::rows::copy_row;
use std::alloc::Global;
use timew_interval::{Edit, Interval, Texts};
use tw_world::{Memory, Text};

/// What becomes of the tags or the annotation of an interval.
#[derive(Clone, Copy)]
pub enum Label<'a> {
    Add(&'a Texts),
    Remove(&'a Texts),
    Annotation(&'a Text),
}

// The numbers that a command is about: those given, or the open one's.
fn targets(alloc: Global, ids: &[u64], rows: &[Interval]) -> Result<Vec<u64>, TimewError>
    ensures { Answers (λ v. v.items) result (targets ids.now rows.now) }
{
    if ids.is_empty() {
        if open_of(rows).is_none() {
            return Err(TimewError::NoOpen);
        }
        return one_id(alloc);
    }
    checked(rows.len() as u64, ids)?;
    copy_ids(alloc, ids)
}

fn one_id(alloc: Global) -> Result<Vec<u64>, TimewError>
    ensures { Answers (λ v. v.items) result (Ok (1 ∷ [])) }
{
    match vec![in alloc; 1u64; 1] {
        Ok(ids) => Ok(ids),
        Err(_) => Err(TimewError::Memory),
    }
}

fn copy_ids(alloc: Global, ids: &[u64]) -> Result<Vec<u64>, TimewError>
    ensures { Answers (λ v. v.items) result (Ok ids.now) }
{
    match ids.to_vec(alloc) {
        Ok(ids) => Ok(ids),
        Err(_) => Err(TimewError::Memory),
    }
}

fn with_tags(alloc: Global, tags: &Texts, row: &Interval) -> Result<Interval, Memory>
    ensures { IfOk result (λ r. r ≡ with_tags tags.now row.now) }
{
    Ok(Interval {
        start: row.start,
        end: row.end,
        tags: row.tags.with(alloc, tags)?,
        annotation: row.annotation.copy(alloc)?,
    })
}

fn without_tags(alloc: Global, tags: &Texts, row: &Interval) -> Result<Interval, Memory>
    ensures { IfOk result (λ r. r ≡ without_tags tags.now row.now) }
{
    Ok(Interval {
        start: row.start,
        end: row.end,
        tags: row.tags.without(alloc, tags)?,
        annotation: row.annotation.copy(alloc)?,
    })
}

fn with_annotation(alloc: Global, text: &Text, row: &Interval) -> Result<Interval, Memory>
    ensures { IfOk result (λ r. r ≡ with_annotation text.now row.now) }
{
    Ok(Interval {
        start: row.start,
        end: row.end,
        tags: row.tags.copy(alloc)?,
        annotation: text.copy(alloc)?,
    })
}

fn with_label(alloc: Global, label: Label, row: &Interval) -> Result<Interval, Memory>
    ensures { IfOk result (λ r. r ≡ with_label label.entry row.now) }
{
    match label {
        Label::Add(tags) => with_tags(alloc, tags, row),
        Label::Remove(tags) => without_tags(alloc, tags, row),
        Label::Annotation(text) => with_annotation(alloc, text, row),
    }
}

// The rows from an index up to another, those of these numbers with a label.
fn label_within(
    alloc: Global,
    ids: &Chosen,
    label: Label,
    rows: &[Interval],
    at: usize,
    end: usize,
) -> Result<Vec<Interval>, Memory>
    requires order { at ≤ end }
    requires inside { end ≤ length rows.now }
    ensures { IfOk result (λ v. v.items ++ each_of ids.now.given.now (with_label label.entry) (drop end rows.now)
        ≡ each_of ids.now.given.now (with_label label.entry) (drop at rows.now)) }
{
    let mut out = Vec::with_capacity(alloc, end - at)?;
    for k in at..end {
        if ids.has((rows.len() - k) as u64) {
            out.push(with_label(alloc, label, &rows[k])?)?;
        } else {
            out.push(copy_row(alloc, &rows[k])?)?;
        }
    }
    Ok(out)
}

// The edit that gives the rows of these numbers a label.
fn label_each(alloc: Global, ids: &[u64], label: Label, rows: &[Interval]) -> Result<Edit, Memory>
    ensures labelled { IfOk result (λ e. edited e rows.now ≡ each_of ids.now (with_label label.entry) rows.now) }
    ensures inside { IfOk result (λ e. e.at + e.count ≤ length rows.now) }
{
    let chosen = Chosen::of(alloc, ids)?;
    let (at, end) = chosen.window(rows.len());
    let out = label_within(alloc, &chosen, label, rows, at, end)?;
    Ok(Edit {
        at,
        count: end - at,
        rows: out,
    })
}

/// The edit that gives the rows of these numbers a label, or without a number the open one.
pub fn labelled(
    alloc: Global,
    ids: &[u64],
    label: Label,
    rows: &[Interval],
) -> Result<Edit, TimewError>
    ensures labelled { Answers (λ e. edited e rows.now) result (labelled ids.now label.entry rows.now) }
    ensures inside { IfOk result (λ e. e.at + e.count ≤ length rows.now) }
{
    let those = targets(alloc, ids, rows)?;
    Ok(label_each(alloc, &those, label, rows)?)
}
