// Intervals in order.
ghost use Rattle.std.specs.Prelude.{◌≡◌, ◌≤◌, ◌+◌, ◌++◌, ◌∷◌, [], length, take, drop, option_map, if◌then◌else◌, Some, None, OnOk, OnErr, IfOk, IfErr};
ghost use Rattle.std.specs.List.{AllByRecursion};
ghost use Rattle.std.specs.Vec.{vec_len, vec_capacity};
ghost use Rattle.timew_interval.specs.Edit.{spliced, edited, IsEditOf};
ghost use Rattle.timew_interval.specs.Interval.{AreRows, IsRow, by_id, in_order};

use crate::edit::Edit;
use crate::interval::Interval;
use crate::interval::order::in_order;
use std::alloc::Global;
use std::marker::Model;
use tw_world::Memory;

/// Intervals in the order of their starts. None overlaps another, and only the last may be open.
#[derive(Drop)]
pub struct Intervals {
    rows: Vec<Interval>,
}

impl Model for Intervals {
    ghost use Rattle.std.specs.Prelude.{List};
    ghost use Rattle.timew_interval.specs.Interval.{AreRows};
    ghost use Rattle.timew_interval.specs.declared.interval.Interval.{Interval};

    ghost Value = { List Interval };

    ghost view = { λ a. a.rows.items };

    ghost invariant = { λ a. AreRows a.rows.items };
}

impl Intervals {
    pub fn new(alloc: Global) -> Intervals
        ensures { result ≡ [] }
    {
        Intervals {
            rows: Vec::new(alloc),
        }
    }

    /// Rows that are intervals in order.
    pub fn from_rows(rows: Vec<Interval>) -> Intervals
        requires { AreRows rows.items }
        ensures { result ≡ rows.items }
    {
        Intervals { rows }
    }

    /// Rows in the order of their starts, each of which ends before the next one starts; other rows are refused.
    #[tactic(auto, using(crate::proofs::InOrder::are_rows_in_order))]
    pub fn in_order(rows: Vec<Interval>) -> Option<Intervals>
        requires { AllByRecursion IsRow rows.items }
        ensures { result ≡ (if in_order rows.items then Some rows.items else None) }
    {
        if in_order(&rows) {
            Some(Intervals { rows })
        } else {
            None
        }
    }

    pub fn len(&self) -> u64
        ensures { result ≡ length self.now }
    {
        self.rows.len() as u64
    }

    /// The rows, the first one first.
    pub fn as_slice(&self) -> &[Interval]
        ensures value { result.now ≡ self.now }
        ensures are { AreRows self.now }
    {
        &self.rows
    }

    /// The interval with a number, which counts from the last one, from 1.
    pub fn by_id(&self, id: u64) -> Option<&Interval>
        ensures { option_map (λ r. r.now) result ≡ by_id self.now id }
    {
        let len = self.rows.len() as u64;
        if id == 0 || id > len {
            return None;
        }
        let at = (len - id) as usize;
        Some(&self.rows[at])
    }

    /// Adds a row at the end.
    pub fn push(&mut self, row: Interval) -> Result<(), Memory>
        requires { AreRows (self.old ++ row ∷ []) }
        ensures ok { OnOk result (self.new ≡ self.old ++ row ∷ []) }
        ensures err { OnErr result (self.new ≡ self.old) }
    {
        self.rows.push(row)?;
        Ok(())
    }

    /// The rows alone.
    pub fn into_rows(self) -> Vec<Interval>
        ensures value { result.items ≡ self }
        ensures are { AreRows self }
    {
        self.rows
    }

    /// The intervals after an edit.
    pub fn edited(self, edit: Edit) -> Result<Intervals, Memory>
        requires { IsEditOf self edit }
        ensures { IfOk result (λ next. next ≡ edited edit self) }
    {
        let Edit {
            at,
            count,
            rows: new,
        } = edit;
        let mut rows = match self.with_room(new.len()) {
            Ok(rows) => rows,
            Err(_) => return Err(Memory),
        };
        splice(&mut rows, at, count, new);
        Ok(Intervals { rows })
    }

    /// The rows with room for so many more, or the same intervals if there is no memory.
    pub fn with_room(self, more: usize) -> Result<Vec<Interval>, Intervals>
        ensures rows { IfOk result (λ rows. rows.items ≡ self) }
        ensures room { IfOk result (λ rows. vec_len rows + more ≤ vec_capacity rows) }
        ensures err { IfErr result (λ same. same ≡ self) }
        ensures are { AreRows self }
    {
        let Intervals { rows } = self;
        let mut rows = rows;
        match rows.reserve(more) {
            Ok(()) => Ok(rows),
            Err(_) => Err(Intervals { rows }),
        }
    }
}

// The rows from an index on, with the first so many of them after the others.
fn turn(rows: &mut Vec<Interval>, at: usize, count: usize)
    requires { at + count ≤ length rows.old.items }
    ensures { rows.new.items ≡ take at rows.old.items ++ (drop count (drop at rows.old.items) ++ take count (drop at rows.old.items)) }
{
    rows[at..].rotate_left(count);
}

/// Lets so many rows from an index on give way to others, for which there is room.
pub fn splice(rows: &mut Vec<Interval>, at: usize, count: usize, new: Vec<Interval>)
    requires inside { at + count ≤ length rows.old.items }
    requires room { vec_len rows.old + vec_len new ≤ vec_capacity rows.old }
    ensures { rows.new.items ≡ spliced at count new.items rows.old.items }
{
    let len = rows.len();
    let added = new.len();
    let mut new = new;
    if rows.append(&mut new).is_err() {
        unreachable!();
    }
    turn(rows, at, len - at);
    turn(rows, at + added, count);
    rows.truncate(len + added - count);
}
