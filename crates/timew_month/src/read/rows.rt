// The intervals that month files hold.
ghost use Rattle.std.specs.Prelude.{◌≡◌, [], ◌∷◌, fold, map, option_map, IfOk, IfErr, IfSome, Ok, None, Some, ◌<◌, ◌++◌, OnOk};
ghost use Rattle.std.specs.List.{AllByRecursion};
ghost use Rattle.timew_interval.specs.Interval.{IsRow};
ghost use Rattle.timew_month.specs.Month.{month_rows, with_rows};
ghost use Rattle.timew_month.specs.Gathered.{RowsRefused, files_of, lines_in, spot_of, seats_of, AreSorted, AreSeats, lesser, is_at, first_spot, bad_spot};
ghost use Rattle.timew_month.specs.Known.{AreKnown, StayKnown};
ghost use Rattle.timew_month.specs.Rows.{judged, late_from, rows_in};
ghost use Rattle.timew_month.specs.declared.months.MonthFile.{MonthFile};

use crate::months::{KnownText, MonthFile};
use crate::read::gathered::{Gathered, Seat, Spot, gather};
use crate::read::month::{MonthError, MonthRows, read_lines, room};
use std::alloc::Global;
use timew_interval::{Interval, Intervals, goes_past, later_end};
use tw_world::{Memory, Text};

/// Why month files hold no intervals in order.
#[derive(Drop)]
pub enum RowsError {
    /// The line with this number, from 1, of this file is the first bad one.
    BadLine { file: Text, line: u64 },
    /// There was no memory.
    Memory,
}

impl From<Memory> for RowsError {
    ghost use Rattle.std.specs.Prelude.{◌≡◌};
    ghost use Rattle.timew_month.specs.declared.read.rows.RowsError.TheVariants.{Memory as NoMemory};

    ghost from_gives = { λ _ e. e ≡ NoMemory };

    fn from(_: Memory) -> RowsError {
        RowsError::Memory
    }
}

/// The intervals of month files, and which of the files are the text of some of them.
#[derive(Drop)]
pub struct ReadRows {
    pub rows: Intervals,
    pub known: Vec<KnownText>,
}

// How many bytes files have together.
fn size_of(files: &Vec<MonthFile>) -> usize {
    let mut bytes: usize = 0;
    for file in files {
        bytes = bytes.saturating_add(file.bytes.len());
    }
    bytes
}

// Notes that a file is the text of the intervals from one on.
fn note_text(
    known: &mut Vec<KnownText>,
    file: usize,
    first: usize,
    count: usize,
) -> Result<(), MonthError>
    ensures { OnOk result (known.new.items ≡ known.old.items ++ record { file = file; first = first; count = count } ∷ []) }
{
    match known.push(KnownText { file, first, count }) {
        Ok(()) => Ok(()),
        Err(_) => Err(MonthError::Memory),
    }
}

// Reads the intervals of a month file after others, and notes it if the file is their text.
fn add_month(
    alloc: Global,
    rows: Vec<Interval>,
    known: &mut Vec<KnownText>,
    file: usize,
    bytes: &[u8],
) -> Result<Vec<Interval>, MonthError>
    ensures rows { IfOk result (λ all. with_rows rows.items (month_rows bytes.now) ≡ Ok all.items) }
    ensures are { AllByRecursion IsRow rows.items → IfOk result (λ all. AllByRecursion IsRow all.items) }
    ensures known { IfOk result (λ all. StayKnown file bytes.now rows.items all.items known.old.items known.new.items) }
{
    let first = rows.len();
    let MonthRows { rows, is_text } = match read_lines(alloc, rows, bytes) {
        Ok(month) => month,
        Err(error) => return Err(error),
    };
    if is_text {
        note_text(known, file, first, rows.len().saturating_sub(first))?;
    }
    Ok(rows)
}

// The intervals, if each line is one and they are in order. It is so in files that no hand has changed.
fn rows_as_they_stand(alloc: Global, files: &Vec<MonthFile>) -> Result<Option<ReadRows>, Memory>
    ensures rows { IfOk result (λ read. IfSome read (λ r. judged (lines_in (files_of files.now.items)) ≡ Ok r.rows)) }
    ensures known { IfOk result (λ read. IfSome read (λ r. AreKnown files.now.items r.rows r.known.items)) }
{
    let mut all = room(alloc, size_of(files))?;
    let mut known = Vec::with_capacity(alloc, files.len())?;
    for (at, file) in files.iter().enumerate() {
        all = match add_month(alloc, all, &mut known, at, &file.bytes) {
            Ok(more) => more,
            Err(MonthError::Memory) => return Err(Memory),
            Err(MonthError::Line { line: _ }) => return Ok(None),
        };
    }
    match Intervals::in_order(all) {
        Some(rows) => Ok(Some(ReadRows { rows, known })),
        None => Ok(None),
    }
}

fn lesser(least: Option<usize>, index: usize) -> Option<usize>
    ensures { result ≡ lesser least index }
{
    match least {
        Some(least) if least <= index => Some(least),
        _ => Some(index),
    }
}

// The first line whose interval overlaps one before it in order: one that starts before the latest end so far.
fn first_late(seats: &Vec<Seat>) -> Option<usize>
    requires sorted { AreSorted (seats_of seats.now.items) }
    requires are { AreSeats (seats_of seats.now.items) }
    ensures { result ≡ fold lesser None (late_from [] (seats_of seats.now.items)) }
{
    let mut end = Some(0);
    let mut least = None;
    for seat in seats {
        if goes_past(end, seat.row.start) {
            least = lesser(least, seat.index);
        }
        end = later_end(end, seat.row.end);
    }
    least
}

fn is_at(late: Option<usize>, at: usize) -> bool
    ensures { result ≡ is_at late at }
{
    match late {
        Some(index) => index == at,
        None => false,
    }
}

// The first line that is no interval, or has this index.
fn first_spot(spots: &Vec<Spot>, late: Option<usize>) -> Option<&Spot>
    ensures { option_map (λ spot. (spot.now.file, spot.now.line)) result ≡ first_spot 0 late (map spot_of spots.now.items) }
{
    for at in 0..spots.len() {
        let spot = &spots[at];
        if !spot.is_row || is_at(late, at) {
            return Some(spot);
        }
    }
    None
}

// The first line that is no interval, or overlaps one before it in order.
fn first_bad(gathered: &Gathered) -> Option<&Spot>
    requires sorted { AreSorted (seats_of gathered.now.seats.items) }
    requires are { AreSeats (seats_of gathered.now.seats.items) }
    ensures { option_map (λ spot. (spot.now.file, spot.now.line)) result ≡ bad_spot gathered.now }
{
    let late = first_late(&gathered.seats);
    first_spot(&gathered.spots, late)
}

fn rows_in_seats(alloc: Global, gathered: Gathered) -> Result<Vec<Interval>, Memory>
    ensures { IfOk result (λ rows. rows.items ≡ rows_in (seats_of gathered.seats.items)) }
{
    let Gathered { spots: _, seats } = gathered;
    let mut rows = Vec::with_capacity(alloc, seats.len())?;
    for seat in seats {
        rows.push(seat.row)?;
    }
    Ok(rows)
}

// The intervals in order, or the first line that is none or overlaps one before it.
fn rows_in_order(alloc: Global, files: &Vec<MonthFile>) -> Result<Intervals, RowsError>
    ensures ok { IfOk result (λ rows. judged (lines_in (files_of files.now.items)) ≡ Ok rows) }
    ensures err { IfErr result (λ e. RowsRefused e (judged (lines_in (files_of files.now.items)))) }
{
    let gathered = gather(alloc, files)?;
    if let Some(spot) = first_bad(&gathered) {
        return Err(RowsError::BadLine {
            file: spot.file.copy(alloc)?,
            line: spot.line,
        });
    }
    Ok(Intervals::from_rows(rows_in_seats(alloc, gathered)?))
}

/// The intervals of month files in order, or the first bad line: one that is no interval, or overlaps one before it.
/// That a file is known to be their text is for speed: a change need not make its lines anew.
pub fn read_known(alloc: Global, files: &Vec<MonthFile>) -> Result<ReadRows, RowsError>
    ensures ok { IfOk result (λ read. judged (lines_in (files_of files.now.items)) ≡ Ok read.rows) }
    ensures err { IfErr result (λ e. RowsRefused e (judged (lines_in (files_of files.now.items)))) }
    ensures known { IfOk result (λ read. AreKnown files.now.items read.rows read.known.items) }
{
    match rows_as_they_stand(alloc, files)? {
        Some(read) => Ok(read),
        None => Ok(ReadRows {
            rows: rows_in_order(alloc, files)?,
            known: Vec::new(alloc),
        }),
    }
}

/// The same intervals alone.
pub fn read_rows(alloc: Global, files: &Vec<MonthFile>) -> Result<Intervals, RowsError>
    ensures ok { IfOk result (λ rows. judged (lines_in (files_of files.now.items)) ≡ Ok rows) }
    ensures err { IfErr result (λ e. RowsRefused e (judged (lines_in (files_of files.now.items)))) }
{
    match read_known(alloc, files) {
        Ok(ReadRows { rows, known: _ }) => Ok(rows),
        Err(error) => Err(error),
    }
}
