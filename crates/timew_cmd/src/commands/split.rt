// `split`: cuts intervals in the middle.
ghost use Rattle.std.specs.Prelude.{◌++◌, ◌+◌, ◌≤◌, length, drop, ◌≡◌, IfOk, OnOk};
ghost use Rattle.timew_interval.specs.Edit.{edited};
ghost use Rattle.timew_cmd.specs.Commands.Split.{middle, halves, is_ahead, some_ahead, halved, split, split_all};
ghost use Rattle.timew_cmd.specs.Planned.{Answers};

use crate::chosen::Chosen;
use crate::error::TimewError;
use crate::numbers::checked;
use crate::open::moment_or;
use crate::rows::{copy_row, spanning};
use std::alloc::Global;
use timew_interval::{Edit, Interval};
use tw_world::Memory;

/// What `split` makes of intervals.
pub fn split(alloc: Global, ids: &[u64], rows: &[Interval], now: u64) -> Result<Edit, TimewError>
    ensures split { Answers (λ e. edited e rows.now) result (split_all ids.now rows.now now) }
    ensures inside { IfOk result (λ e. e.at + e.count ≤ length rows.now) }
{
    checked(rows.len() as u64, ids)?;
    let chosen = Chosen::of(alloc, ids)?;
    split_chosen(alloc, &chosen, rows, now)
}

fn split_chosen(
    alloc: Global,
    ids: &Chosen,
    rows: &[Interval],
    now: u64,
) -> Result<Edit, TimewError>
    ensures split { Answers (λ e. edited e rows.now) result (split ids.now.given.now rows.now now) }
    ensures inside { IfOk result (λ e. e.at + e.count ≤ length rows.now) }
{
    if some_ahead(ids, rows, now) {
        return Err(TimewError::Range { word: 0 });
    }
    Ok(split_each(alloc, ids, rows, now)?)
}

fn is_ahead(now: u64, row: &Interval) -> bool
    ensures { result ≡ is_ahead now row.now }
{
    match row.end {
        Some(_) => false,
        None => now < row.start,
    }
}

fn middle(now: u64, row: &Interval) -> u64
    ensures { result ≡ middle now row.now }
{
    row.start + moment_or(now, row.end).saturating_sub(row.start) / 2
}

fn some_ahead(ids: &Chosen, rows: &[Interval], now: u64) -> bool
    ensures { result ≡ some_ahead ids.now.given.now rows.now now }
{
    for (k, row) in rows.iter().enumerate() {
        if ids.has((rows.len() - k) as u64) && is_ahead(now, row) {
            return true;
        }
    }
    false
}

fn push_halves(
    alloc: Global,
    out: &mut Vec<Interval>,
    now: u64,
    row: &Interval,
) -> Result<(), Memory>
    ensures { OnOk result (out.new.items ≡ out.old.items ++ halves now row.now) }
{
    let middle = middle(now, row);
    let first = spanning(alloc, row.start, Some(middle), row)?;
    out.push(first)?;
    let second = spanning(alloc, middle, row.end, row)?;
    out.push(second)?;
    Ok(())
}

// The rows from an index up to another, those of these numbers cut in two.
fn halved_within(
    alloc: Global,
    ids: &Chosen,
    rows: &[Interval],
    now: u64,
    at: usize,
    end: usize,
) -> Result<Vec<Interval>, Memory>
    requires order { at ≤ end }
    requires inside { end ≤ length rows.now }
    ensures { IfOk result (λ v. v.items ++ halved ids.now.given.now now (drop end rows.now) ≡ halved ids.now.given.now now (drop at rows.now)) }
{
    let mut out = Vec::with_capacity(alloc, end - at)?;
    for k in at..end {
        if ids.has((rows.len() - k) as u64) {
            push_halves(alloc, &mut out, now, &rows[k])?;
        } else {
            out.push(copy_row(alloc, &rows[k])?)?;
        }
    }
    Ok(out)
}

// The edit that cuts the rows of these numbers.
fn split_each(alloc: Global, ids: &Chosen, rows: &[Interval], now: u64) -> Result<Edit, Memory>
    ensures halved { IfOk result (λ e. edited e rows.now ≡ halved ids.now.given.now now rows.now) }
    ensures inside { IfOk result (λ e. e.at + e.count ≤ length rows.now) }
{
    let (at, end) = ids.window(rows.len());
    let out = halved_within(alloc, ids, rows, now, at, end)?;
    Ok(Edit {
        at,
        count: end - at,
        rows: out,
    })
}
