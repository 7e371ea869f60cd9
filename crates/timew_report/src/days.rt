// The time of each day, or of each week.
ghost use Rattle.std.specs.Prelude.{◌≡◌, ◌<◌, ◌++◌, codes, map, IfOk, OnOk};
ghost use Rattle.std.specs.List.{AllByRecursion, flat_map};
ghost use Rattle.tw_time.specs.Moments.{moment};
ghost use Rattle.timew_interval.specs.Interval.{limit, AreRows};
ghost use Rattle.timew_report.specs.Days.{end_of, days};
ghost use Rattle.timew_report.specs.Held.{IsDay};
ghost use Rattle.timew_report.specs.Texts.{monday_text, name_of, line_text, day_line, days_text};

use crate::hours::{next_tracked, time_after, time_of};
use crate::lines::{push_line, push_sum};
use std::alloc::Global;
use timew_interval::Interval;
use timew_words::word_or;
use tw_time::{Zone, print_day, read_moment};
use tw_world::{MOMENT_LIMIT, Memory};

/// What a line is about.
#[derive(Clone, Copy)]
pub enum Span {
    Day,
    Week,
}

/// A day or a week: its first tracked second in a range, and its time from there on.
#[derive(Clone, Copy, Drop)]
pub struct Day {
    pub start: u64,
    pub seconds: u64,
}

const HOUR: u64 = 3_600;

// At which second the day or the week of a second ends.
fn end_of(span: Span, zone: &Zone, at: u64) -> u64
    requires { at < limit }
    ensures value { result ≡ end_of span zone.now at }
    ensures later { at < result }
{
    let next = match span {
        Span::Day => word_or("tomorrow", MOMENT_LIMIT, at, zone),
        Span::Week => word_or("monday", MOMENT_LIMIT, at, zone),
    };
    if at < next { next } else { at + HOUR }
}

// The days or weeks of a range in which something is tracked.
fn days(
    alloc: Global,
    span: Span,
    rows: &[Interval],
    from: u64,
    to: u64,
    now: u64,
    zone: &Zone,
) -> Result<Vec<Day>, Memory>
    requires rows { AreRows rows.now }
    requires to { to < limit }
    requires now { now < limit }
    ensures value { IfOk result (λ found. map (λ (d : Day). d.start) found.items ≡ days span zone.now rows.now from to now) }
    ensures good { IfOk result (λ found. AllByRecursion (IsDay span zone.now rows.now to now) found.items) }
{
    let mut found = Vec::new(alloc);
    let mut passed = 0;
    let mut at = from;
    while at < to {
        let Some((k, start)) = next_tracked(rows, passed, at, to, now) else {
            return Ok(found);
        };
        let end = end_of(span, zone, start).min(to);
        let seconds = time_after(rows, k, start, end, now);
        found.push(Day { start, seconds })?;
        passed = k;
        at = end;
    }
    Ok(found)
}

// The Monday of the week of a second.
fn monday_of(zone: &Zone, at: u64) -> [u8; 10]
    requires { at < limit }
    ensures { result ≡ monday_text zone.now (moment (codes "sow") at zone.now) }
{
    match read_moment("sow", at, zone) {
        Ok(monday) => print_day(monday, zone),
        Err(_) => *b"1969-12-29",
    }
}

// The name of a day, or of the Monday of its week.
fn name_of(span: Span, zone: &Zone, at: u64) -> [u8; 10]
    requires { at < limit }
    ensures { result ≡ name_of span zone.now at }
{
    match span {
        Span::Day => print_day(at, zone),
        Span::Week => monday_of(zone, at),
    }
}

fn push_day(
    alloc: Global,
    text: &mut Vec<u8>,
    span: Span,
    zone: &Zone,
    day: Day,
) -> Result<(), Memory>
    requires { day.start < limit }
    ensures { OnOk result (text.new.items ≡ text.old.items ++ line_text (name_of span zone.now day.start) day.seconds) }
{
    push_line(alloc, text, &name_of(span, zone, day.start), day.seconds)
}

fn push_days(
    alloc: Global,
    text: &mut Vec<u8>,
    span: Span,
    zone: &Zone,
    days: &Vec<Day>,
) -> Result<(), Memory>
    requires { AllByRecursion (λ (d : Day). d.start < limit) days.now.items }
    ensures { OnOk result (text.new.items ≡ text.old.items ++ flat_map (λ (d : Day). line_text (name_of span zone.now d.start) d.seconds) days.now.items) }
{
    for day in days {
        push_day(alloc, text, span, zone, *day)?;
    }
    Ok(())
}

/// The tracked time of each day of a range, or of each week, and their sum.
pub fn days_text(
    alloc: Global,
    span: Span,
    rows: &[Interval],
    from: u64,
    to: u64,
    now: u64,
    zone: &Zone,
) -> Result<Vec<u8>, Memory>
    requires rows { AreRows rows.now }
    requires to { to < limit }
    requires now { now < limit }
    ensures { IfOk result (λ text. text.items ≡ days_text span zone.now rows.now from to now) }
{
    let found = days(alloc, span, rows, from, to, now, zone)?;
    let mut text = Vec::new(alloc);
    push_days(alloc, &mut text, span, zone, &found)?;
    push_sum(alloc, &mut text, time_of(rows, from, to, now))?;
    Ok(text)
}
