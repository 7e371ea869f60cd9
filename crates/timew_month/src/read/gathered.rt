// Gathering the lines of month files, with their intervals in order.
ghost use Rattle.std.specs.Prelude.{[], ◌++◌, ◌≡◌, OnOk, IfOk};
ghost use Rattle.timew_month.specs.Gathered.{files_of, lines_in, line_found, seats_of, AreSeats, IsGathered, Gathers, end_rank, rank};
ghost use Rattle.timew_month.specs.Month.{lines};
ghost use Rattle.timew_month.specs.Rows.{found_from, seat, in_seats};

use crate::months::MonthFile;
use crate::read::day::Day;
use crate::read::line::read_line;
use crate::read::month::line_length;
use crate::read::tails::Tails;
use std::alloc::Global;
use timew_interval::Interval;
use tw_world::{Memory, Text};

/// The file and the number of a line that is not empty, and whether it is an interval.
#[derive(Drop)]
pub(crate) struct Spot {
    pub file: Text,
    pub line: u64,
    pub is_row: bool,
}

/// An interval with the index of its line among all.
#[derive(Drop)]
pub(crate) struct Seat {
    pub index: usize,
    pub row: Interval,
}

/// The lines of month files, and their intervals in order.
#[derive(Drop)]
pub(crate) struct Gathered {
    pub spots: Vec<Spot>,
    pub seats: Vec<Seat>,
}

// An interval is put after the others, if the line is one.
fn add_row(seats: &mut Vec<Seat>, index: usize, row: Option<Interval>) -> Result<(), Memory>
    ensures { OnOk result (seats_of seats.new.items ≡ seats_of seats.old.items ++ seat index row []) }
{
    if let Some(row) = row {
        seats.push(Seat { index, row })?;
    }
    Ok(())
}

// Gathers one line, if it is not empty.
fn add_line<'a>(
    alloc: Global,
    gathered: &mut Gathered,
    day: &mut Day,
    tails: &mut Tails<'a>,
    file: &Text,
    line: u64,
    bytes: &'a [u8],
) -> Result<(), Memory>
    ensures { OnOk result (Gathers (line_found file.now line bytes.now) gathered.old gathered.new) }
{
    if bytes.len() == 0 {
        return Ok(());
    }
    let row = read_line(alloc, day, tails, bytes)?;
    let index = gathered.spots.len();
    let is_row = row.is_some();
    let file = file.copy(alloc)?;
    gathered.spots.push(Spot { file, line, is_row })?;
    add_row(&mut gathered.seats, index, row)?;
    Ok(())
}

// Gathers the lines of a file.
fn gather_file(alloc: Global, gathered: &mut Gathered, file: &MonthFile) -> Result<(), Memory>
    ensures { OnOk result (Gathers (found_from file.now.name 1 (lines file.now.bytes.items)) gathered.old gathered.new) }
{
    let mut day = Day::first();
    let mut tails = Tails::new(alloc)?;
    let mut rest = file.bytes.as_slice();
    let mut number = 1;
    loop {
        let size = line_length(rest);
        let (line, more) = rest.split_at(size);
        add_line(
            alloc, gathered, &mut day, &mut tails, &file.name, number, line,
        )?;
        if more.len() == 0 {
            return Ok(());
        }
        rest = &more[1..];
        number += 1;
    }
}

fn end_rank(end: Option<u64>) -> u64
    ensures { result ≡ end_rank end }
{
    match end {
        Some(end) => end,
        None => u64::MAX,
    }
}

fn rank(row: &Interval) -> u128
    ensures { result ≡ rank row.now }
{
    u128::from(row.start) * 18_446_744_073_709_551_616 + u128::from(end_rank(row.end))
}

// Puts intervals in order. Equals stay in the order of their lines.
fn sort(seats: &mut Vec<Seat>) -> Result<(), Memory>
    requires { AreSeats (seats_of seats.old.items) }
    ensures { OnOk result (seats_of seats.new.items ≡ in_seats (seats_of seats.old.items)) }
{
    seats.sort_by_key(|seat| rank(&seat.row))?;
    Ok(())
}

/// Gathers the lines of files, in their order.
pub(crate) fn gather(alloc: Global, files: &Vec<MonthFile>) -> Result<Gathered, Memory>
    ensures { IfOk result (IsGathered (lines_in (files_of files.now.items))) }
{
    let mut gathered = Gathered {
        spots: Vec::new(alloc),
        seats: Vec::new(alloc),
    };
    for file in files {
        gather_file(alloc, &mut gathered, file)?;
    }
    sort(&mut gathered.seats)?;
    Ok(gathered)
}
