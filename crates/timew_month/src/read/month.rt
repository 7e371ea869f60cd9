// Reading a month file.
ghost use Rattle.std.specs.Prelude.{◌≡◌, ◌≤◌, [], true, Ok, IfOk, IfErr, length};
ghost use Rattle.std.specs.List.{AllByRecursion};
ghost use Rattle.timew_month.specs.Exact.{IsTextAfter, StaysText};
ghost use Rattle.timew_interval.specs.Interval.{IsRow};
ghost use Rattle.timew_month.specs.Month.{month_rows, with_rows, MonthRefused, IsTaken, line_length};

use crate::read::day::Day;
use crate::read::line::read_exactly;
use crate::read::tails::Tails;
use memchr::memchr;
use std::alloc::Global;
use timew_interval::Interval;
use tw_world::Memory;

/// Why a month file is not read.
#[derive(Clone, Copy, Drop)]
pub enum MonthError {
    /// The line with this number, from 1, is the first that is no line or ends before it starts.
    Line { line: u64 },
    /// There was no memory.
    Memory,
}

impl From<Memory> for MonthError {
    ghost use Rattle.std.specs.Prelude.{◌≡◌};
    ghost use Rattle.timew_month.specs.declared.read.month.MonthError.TheVariants.{Memory as NoMemory};

    ghost from_gives = { λ _ e. e ≡ NoMemory };

    fn from(_: Memory) -> MonthError {
        MonthError::Memory
    }
}

/// The length of the first line.
pub(crate) fn line_length(bytes: &[u8]) -> usize
    ensures value { result ≡ line_length bytes.now }
    ensures inside { result ≤ length bytes.now }
{
    match memchr(b'\n', bytes) {
        Some(at) => at,
        None => bytes.len(),
    }
}

/// Intervals, the last of them those of a month file, and whether the file is the text of these.
#[derive(Drop)]
pub(crate) struct MonthRows {
    pub rows: Vec<Interval>,
    pub is_text: bool,
}

impl MonthRows {
    // Reads a line, and answers whether it is one. An empty one is passed over.
    fn take_line<'a>(
        &mut self,
        alloc: Global,
        day: &mut Day,
        tails: &mut Tails<'a>,
        line: &'a [u8],
    ) -> Result<bool, Memory>
        ensures taken { IfOk result (λ taken. IsTaken taken line.now self.old.rows.items self.new.rows.items) }
        ensures are { AllByRecursion IsRow self.old.rows.items → AllByRecursion IsRow self.new.rows.items }
        ensures text { IfOk result (λ taken. taken ≡ true → StaysText line.now self.old self.new) }
    {
        if line.len() == 0 {
            return Ok(true);
        }
        match read_exactly(alloc, day, tails, line)? {
            Some(read) => {
                let row = read.row(alloc)?;
                self.rows.push(row)?;
                self.keep_text(read.tail.is_exact);
                Ok(true)
            }
            None => Ok(false),
        }
    }

    // The file is the text of its intervals no more, unless this holds.
    fn keep_text(&mut self, holds: bool)
        ensures text { self.new.is_text ≡ true → (self.old.is_text ≡ true) × (holds ≡ true) }
        ensures rows { self.new.rows ≡ self.old.rows }
    {
        if !holds {
            self.is_text = false;
        }
    }
}

/// Room for about as many intervals as so many bytes of lines hold.
pub(crate) fn room(alloc: Global, bytes: usize) -> Result<Vec<Interval>, Memory>
    ensures { IfOk result (λ rows. rows.items ≡ []) }
{
    Ok(Vec::with_capacity(alloc, bytes / 48)?)
}

/// Reads the intervals of a month file, in the order of its lines, after others. The file is their text if each line is as its interval is
/// written, and the last one ends with a newline.
pub(crate) fn read_lines(
    alloc: Global,
    rows: Vec<Interval>,
    bytes: &[u8],
) -> Result<MonthRows, MonthError>
    ensures ok { IfOk result (λ month. with_rows rows.items (month_rows bytes.now) ≡ Ok month.rows.items) }
    ensures err { IfErr result (λ e. MonthRefused e (month_rows bytes.now)) }
    ensures are { AllByRecursion IsRow rows.items → IfOk result (λ month. AllByRecursion IsRow month.rows.items) }
    ensures text { IfOk result (λ month. month.is_text ≡ true → IsTextAfter rows.items bytes.now month.rows.items) }
{
    let mut month = MonthRows {
        rows,
        is_text: true,
    };
    let mut day = Day::first();
    let mut tails = Tails::new(alloc)?;
    let mut rest = bytes;
    let mut number = 1;
    loop {
        let size = line_length(rest);
        let (line, more) = rest.split_at(size);
        if !month.take_line(alloc, &mut day, &mut tails, line)? {
            return Err(MonthError::Line { line: number });
        }
        if more.len() == 0 {
            month.keep_text(line.len() == 0);
            return Ok(month);
        }
        month.keep_text(line.len() > 0);
        rest = &more[1..];
        number += 1;
    }
}

/// The intervals of a month file, in the order of its lines.
pub fn read_month(alloc: Global, bytes: &[u8]) -> Result<Vec<Interval>, MonthError>
    ensures ok { IfOk result (λ rows. month_rows bytes.now ≡ Ok rows.items) }
    ensures err { IfErr result (λ e. MonthRefused e (month_rows bytes.now)) }
    ensures are { IfOk result (λ rows. AllByRecursion IsRow rows.items) }
{
    let before = room(alloc, bytes.len())?;
    match read_lines(alloc, before, bytes) {
        Ok(MonthRows { rows, is_text: _ }) => Ok(rows),
        Err(error) => Err(error),
    }
}
