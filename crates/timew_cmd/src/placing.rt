// Placing an interval among others.
ghost use Rattle.std.specs.List.{insert as insert_at};
ghost use Rattle.std.specs.Prelude.{[], ◌+◌, length, ◌++◌, ◌≡◌, take, IfOk, ◌≤◌};
ghost use Rattle.timew_interval.specs.Edit.{edited};
ghost use Rattle.timew_interval.specs.Placing.{placed, inserted};
ghost use Rattle.timew_cmd.specs.Numbers.{numbered, without, rows_in};
ghost use Rattle.timew_cmd.specs.Placing.{AllBefore, overlapped, place};
ghost use Rattle.timew_cmd.specs.Planned.{Answers};

use crate::chosen::Chosen;
use crate::error::TimewError;
use crate::neighbours::{count_before, first_behind};
use crate::numbers::others_within;
use crate::outside::all_outside;
use crate::rows::{copy_rows, overlaps};
use std::alloc::Global;
use timew_interval::{Edit, Interval, is_not_after};
use tw_world::Memory;

// How many rows are before an interval once it is inserted.
fn place_of(rows: &Vec<Interval>, new: &Interval) -> usize
    ensures inside { result ≤ length rows.now.items }
    ensures place { insert_at rows.now.items result new.now ≡ inserted new.now rows.now.items }
{
    let mut at = 0;
    while at < rows.len() && is_not_after(&rows[at], new) {
        at += 1;
    }
    at
}

/// The rows with an interval among them, after its equals.
pub fn inserted(new: Interval, rows: Vec<Interval>) -> Result<Vec<Interval>, Memory>
    ensures { IfOk result (λ out. out.items ≡ inserted new rows.items) }
{
    let mut rows = rows;
    let at = place_of(&rows, &new);
    rows.insert(at, new)?;
    Ok(rows)
}

/// The rows with an interval placed among them: they keep what lies outside it.
pub fn placed(alloc: Global, new: Interval, rows: Vec<Interval>) -> Result<Vec<Interval>, Memory>
    ensures { IfOk result (λ out. out.items ≡ placed new rows.items) }
{
    let out = all_outside(alloc, &new, rows)?;
    inserted(new, out)
}

// The number of the last row that overlaps an interval, among those without these numbers.
fn overlapped(rows: &[Interval], ids: &Chosen, new: &Interval) -> Option<u64>
    ensures { result ≡ overlapped new.now (without ids.now.given.now (numbered rows.now)) }
{
    let mut found = None;
    for (k, row) in rows.iter().enumerate() {
        let id = (rows.len() - k) as u64;
        if !ids.has(id) && overlaps(row, new) {
            found = Some(id);
        }
    }
    found
}

// Places an interval among the rows without those of these numbers: the others that share no second with it stay.
fn placed_edit(
    alloc: Global,
    new: Interval,
    rows: &[Interval],
    ids: &Chosen,
) -> Result<Edit, Memory>
    ensures placed { IfOk result (λ e. edited e rows.now ≡ placed new (rows_in (without ids.now.given.now (numbered rows.now)))) }
    ensures inside { IfOk result (λ e. e.at + e.count ≤ length rows.now) }
{
    let at = count_before(&new, rows, ids);
    let end = first_behind(&new, rows, ids, at);
    let others = others_within(alloc, rows, ids, at, end)?;
    let out = placed(alloc, new, others)?;
    Ok(Edit {
        at,
        count: end - at,
        rows: out,
    })
}

// The same, unless it overlaps one of the others and may not push it aside.
fn place_without(
    alloc: Global,
    adjust: bool,
    new: Interval,
    rows: &[Interval],
    ids: &Chosen,
) -> Result<Edit, TimewError>
    ensures placed { Answers (λ e. edited e rows.now) result (place adjust new ids.now.given.now rows.now) }
    ensures inside { IfOk result (λ e. e.at + e.count ≤ length rows.now) }
{
    if adjust {
        return Ok(placed_edit(alloc, new, rows, ids)?);
    }
    if let Some(id) = overlapped(rows, ids, &new) {
        return Err(TimewError::Overlap { id });
    }
    Ok(placed_edit(alloc, new, rows, ids)?)
}

/// The edit that places an interval among the rows without those of these numbers.
pub fn place(
    alloc: Global,
    adjust: bool,
    new: Interval,
    rows: &[Interval],
    ids: &[u64],
) -> Result<Edit, TimewError>
    ensures placed { Answers (λ e. edited e rows.now) result (place adjust new ids.now rows.now) }
    ensures inside { IfOk result (λ e. e.at + e.count ≤ length rows.now) }
{
    let chosen = Chosen::of(alloc, ids)?;
    place_without(alloc, adjust, new, rows, &chosen)
}

// Rows, and others after them.
fn with_last(alloc: Global, rows: &[Interval], last: Vec<Interval>) -> Result<Vec<Interval>, Memory>
    ensures { IfOk result (λ all. all.items ≡ rows.now ++ last.items) }
{
    let mut all = copy_rows(alloc, rows)?;
    let mut last = last;
    all.append(&mut last)?;
    Ok(all)
}

// How many rows at the front are before an interval and share no second with it.
fn count_in_front(alloc: Global, new: &Interval, rows: &[Interval]) -> Result<usize, Memory>
    ensures inside { IfOk result (λ at. at ≤ length rows.now) }
    ensures before { IfOk result (λ at. AllBefore new.now (take at rows.now)) }
{
    let none = Chosen::of(alloc, &[])?;
    Ok(count_before(new, rows, &none))
}

/// Places an interval among the first so many rows and these others after them. The rows before it stay.
pub fn place_behind(
    alloc: Global,
    adjust: bool,
    new: Interval,
    rows: &[Interval],
    kept: usize,
    last: Vec<Interval>,
) -> Result<Edit, TimewError>
    requires { kept ≤ length rows.now }
    ensures placed { Answers (λ e. edited e rows.now) result (place adjust new [] (take kept rows.now ++ last.items)) }
    ensures inside { IfOk result (λ e. e.at + e.count ≤ length rows.now) }
{
    let (front, _) = rows.split_at(kept);
    let at = count_in_front(alloc, &new, front)?;
    let (_, late) = front.split_at(at);
    let late = with_last(alloc, late, last)?;
    match place_among(alloc, adjust, new, late) {
        Ok(next) => Ok(Edit {
            at,
            count: rows.len() - at,
            rows: next,
        }),
        Err(error) => Err(error),
    }
}

/// The rows with an interval placed among them.
#[tactic(auto, using(crate::proofs::AllRows::all_rows))]
pub fn place_among(
    alloc: Global,
    adjust: bool,
    new: Interval,
    rows: Vec<Interval>,
) -> Result<Vec<Interval>, TimewError>
    ensures { Answers (λ v. v.items) result (place adjust new [] rows.items) }
{
    if adjust {
        return Ok(placed(alloc, new, rows)?);
    }
    let none = Chosen::of(alloc, &[])?;
    if let Some(id) = overlapped(&rows, &none, &new) {
        return Err(TimewError::Overlap { id });
    }
    Ok(inserted(new, rows)?)
}
