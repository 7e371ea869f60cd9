// A line of a month file.
ghost use Rattle.std.specs.Prelude.{◌≡◌, ◌<◌, true, codes, option_map, IfOk, IfSome};
ghost use Rattle.tw_world.specs.declared.moment.TheConstants.{MOMENT_LIMIT};
ghost use Rattle.timew_month.specs.Exact.{IsTail, IsExact, row_in};
ghost use Rattle.timew_interval.specs.Interval.{IsRow};
ghost use Rattle.timew_month.specs.Line.{after, moment_at, end_at, row_with, row_of, is_end};

use crate::read::day::Day;
use crate::read::tail::{Tail, after};
use crate::read::tails::Tails;
use std::alloc::Global;
use timew_interval::Interval;
use tw_world::Memory;

/// A line that was read: its moments, and what it has after them.
#[derive(Clone, Copy)]
pub(crate) struct Line<'t> {
    pub start: u64,
    pub end: Option<u64>,
    pub tail: &'t Tail,
}

impl<'t> Line<'t> {
    /// The interval of the line.
    #[inline(always)]
    pub fn row(&self, alloc: Global) -> Result<Interval, Memory>
        ensures { IfOk result (λ row. row ≡ row_in self.now) }
    {
        let tags = self.tail.tags.copy(alloc)?;
        let annotation = self.tail.annotation.copy(alloc)?;
        Ok(Interval {
            start: self.start,
            end: self.end,
            tags,
            annotation,
        })
    }
}

// What follows `inc `, if the line begins with it.
fn after_inc(line: &[u8]) -> Option<&[u8]>
    ensures { option_map (λ b. b.now) result ≡ after (codes "inc ") line.now }
{
    match line {
        [b'i', b'n', b'c', b' ', rest @ ..] => Some(rest),
        _ => None,
    }
}

// The moment of the first 16 bytes, and the rest.
#[inline(always)]
fn moment_at<'a>(bytes: &'a [u8], day: &mut Day) -> Option<(u64, &'a [u8])>
    ensures value { option_map (λ m. (m.0, m.1.now)) result ≡ moment_at bytes.now }
    ensures in_range { IfSome result (λ m. m.0 < MOMENT_LIMIT) }
{
    let (text, rest) = bytes.split_first_chunk::<16>()?;
    let at = day.read(text)?;
    Some((at, rest))
}

// An end, if there is one, and the rest.
#[inline(always)]
fn end_at<'a>(bytes: &'a [u8], day: &mut Day) -> Option<(Option<u64>, &'a [u8])>
    ensures value { option_map (λ m. (m.0, m.1.now)) result ≡ end_at bytes.now }
    ensures in_range { IfSome result (λ m. IfSome m.0 (λ end. end < MOMENT_LIMIT)) }
{
    match after(b" - ", bytes) {
        Some(rest) => {
            let (end, rest) = moment_at(rest, day)?;
            Some((Some(end), rest))
        }
        None => Some((None, bytes)),
    }
}

fn is_end(start: u64, end: Option<u64>) -> bool
    ensures { result ≡ is_end start end }
{
    match end {
        Some(end) => start <= end,
        None => true,
    }
}

#[inline(always)]
fn line_with<'a, 't>(
    alloc: Global,
    start: u64,
    end: Option<u64>,
    tails: &'t mut Tails<'a>,
    bytes: &'a [u8],
) -> Result<Option<Line<'t>>, Memory>
    requires start { start < MOMENT_LIMIT }
    requires end { IfSome end (λ at. at < MOMENT_LIMIT) }
    ensures row { IfOk result (λ line. option_map row_in line ≡ row_with start end bytes.now) }
    ensures is { IfOk result (λ line. IfSome line (λ l. IsRow (row_in l))) }
    ensures start { IfOk result (λ line. IfSome line (λ l. l.start ≡ start)) }
    ensures end { IfOk result (λ line. IfSome line (λ l. l.end ≡ end)) }
    ensures exact { IfOk result (λ line. IfSome line (λ l. l.tail.now.is_exact ≡ true → IsTail l.tail.now.tags l.tail.now.annotation bytes.now)) }
{
    let Some(tail) = tails.read(alloc, bytes)? else {
        return Ok(None);
    };
    if !is_end(start, end) {
        return Ok(None);
    }
    Ok(Some(Line { start, end, tail }))
}

/// What is read of a line, if it is one and does not end before it starts. The day is that of the moment that was read last.
#[inline(always)]
#[tactic(auto, unfolding(crate::specs::Line::row_of))]
pub(crate) fn read_exactly<'a, 't>(
    alloc: Global,
    day: &mut Day,
    tails: &'t mut Tails<'a>,
    line: &'a [u8],
) -> Result<Option<Line<'t>>, Memory>
    ensures row { IfOk result (λ read. option_map row_in read ≡ row_of line.now) }
    ensures is { IfOk result (λ read. IfSome read (λ l. IsRow (row_in l))) }
    ensures exact { IfOk result (λ read. IfSome read (λ l. l.tail.now.is_exact ≡ true → IsExact line.now (row_in l))) }
{
    let Some(rest) = after_inc(line) else {
        return Ok(None);
    };
    let Some((start, rest)) = moment_at(rest, day) else {
        return Ok(None);
    };
    let Some((end, rest)) = end_at(rest, day) else {
        return Ok(None);
    };
    line_with(alloc, start, end, tails, rest)
}

/// The interval of a line alone.
pub(crate) fn read_line<'a>(
    alloc: Global,
    day: &mut Day,
    tails: &mut Tails<'a>,
    line: &'a [u8],
) -> Result<Option<Interval>, Memory>
    ensures row { IfOk result (λ row. row ≡ row_of line.now) }
    ensures is { IfOk result (λ row. IfSome row IsRow) }
{
    match read_exactly(alloc, day, tails, line)? {
        Some(read) => Ok(Some(read.row(alloc)?)),
        None => Ok(None),
    }
}
