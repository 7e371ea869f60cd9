// Edits of intervals.
ghost use Rattle.std.specs.Prelude.{◌≡◌, ◌≤◌, ◌+◌, ◌-◌, length, take, drop, IfOk};
ghost use Rattle.timew_interval.specs.Edit.{edited};

use crate::interval::Interval;
use crate::interval::same::is_same;
use tw_world::Memory;

/// So many intervals from an index on, counted from 0, give way to others.
#[derive(Drop)]
pub struct Edit {
    pub at: usize,
    pub count: usize,
    pub rows: Vec<Interval>,
}

impl Edit {
    /// The edit that makes the one list of intervals of the other.
    pub fn between(rows: &[Interval], next: Vec<Interval>) -> Result<Edit, Memory>
        ensures inside { IfOk result (λ e. e.at + e.count ≤ length rows.now) }
        ensures next { IfOk result (λ e. edited e rows.now ≡ next.items) }
    {
        // What both have at the front and at the end is left out for speed: its lines need not be made anew.
        let mut next = next;
        let front = same_in_front(rows, &next);
        let (_, old) = rows.split_at(front);
        let mut new = next.split_off(front)?;
        let back = same_at_the_end(old, &new);
        new.truncate(new.len() - back);
        Ok(Edit {
            at: front,
            count: old.len() - back,
            rows: new,
        })
    }
}

// How many intervals at the front are the same.
fn same_in_front(rows: &[Interval], others: &[Interval]) -> usize
    ensures inside { result ≤ length rows.now }
    ensures other { result ≤ length others.now }
    ensures same { take result rows.now ≡ take result others.now }
{
    let mut count = 0;
    while count < rows.len() && count < others.len() && is_same(&rows[count], &others[count]) {
        count += 1;
    }
    count
}

// How many intervals at the end are the same.
fn same_at_the_end(rows: &[Interval], others: &[Interval]) -> usize
    ensures inside { result ≤ length rows.now }
    ensures other { result ≤ length others.now }
    ensures same { drop (length rows.now - result) rows.now ≡ drop (length others.now - result) others.now }
{
    let mut count = 0;
    while count < rows.len()
        && count < others.len()
        && is_same(
            &rows[rows.len() - count - 1],
            &others[others.len() - count - 1],
        )
    {
        count += 1;
    }
    count
}
