// The time of each tag.
ghost use Rattle.std.specs.Prelude.{◌≡◌, ◌<◌, ◌+◌, ◌++◌, ◌&&◌, nat_lt, T, true, IfOk, OnOk, unwrap_or};
ghost use Rattle.std.specs.List.{flat_map, list_any};
ghost use Rattle.std.specs.FinMap as map;
ghost use Rattle.tw_world.specs.Folder.{bytes_cmp, same_bytes};
ghost use Rattle.timew_cmd.specs.Ranges.{seconds_within};
ghost use Rattle.timew_interval.specs.Interval.{limit, AreRows, tags_rise};
ghost use Rattle.timew_report.specs.Held.{with_more, AreMore};
ghost use Rattle.timew_report.specs.Totals.{AreTotals};
ghost use Rattle.timew_report.specs.Texts.{tag_line, totals_text};

use crate::hours::time_of;
use crate::lines::{push_line, push_sum};
use std::alloc::Global;
use std::collections::BTreeMap;
use std::marker::Model;
use timew_cmd::seconds_within;
use timew_interval::{Interval, Texts};
use tw_text::cell;
use tw_world::{Memory, Text};

/// Times by tags, seen as a map from tag to seconds.
#[derive(Drop)]
struct Times {
    entries: BTreeMap<Text, u64>,
}

impl Model for Times {
    ghost use Rattle.std.specs.Prelude.{List, ℕ, T};
    ghost use Rattle.std.specs.FinMap as map;
    ghost use Rattle.std.specs.Coded.{coded_ℕ, coded_list};
    ghost use Rattle.tw_world.specs.Folder.{bytes_cmp};

    ghost Value = { map.FinMap bytes_cmp ℕ };

    ghost coded = { map.code (coded_list coded_ℕ) coded_ℕ };

    ghost view = { λ a. map.from_sorted a.entries.entries };

    ghost invariant = { λ a. T (map.is_sorted bytes_cmp a.entries.entries) };
}

impl Times {
    fn new(alloc: Global) -> Times
        ensures { result ≡ map.empty }
    {
        Times {
            entries: BTreeMap::new(alloc),
        }
    }

    // Adds seconds to those of a tag.
    fn add(&mut self, alloc: Global, tag: &str, seconds: u64) -> Result<(), Memory>
        ensures { OnOk result (self.new ≡ with_more self.old tag.now seconds) }
    {
        add_entry(&mut self.entries, Text::from_str(alloc, tag)?, seconds)
    }

    // Adds a line for each tag to a text, in byte order.
    fn push_lines(&self, alloc: Global, text: &mut Vec<u8>) -> Result<(), Memory>
        ensures { OnOk result (text.new.items ≡ text.old.items ++ flat_map tag_line (map.entries self.now)) }
    {
        push_entries(alloc, text, &self.entries)
    }
}

fn add_entry(entries: &mut BTreeMap<Text, u64>, tag: Text, seconds: u64) -> Result<(), Memory>
    requires { T (map.is_sorted bytes_cmp entries.old.entries) }
    ensures sorted { T (map.is_sorted bytes_cmp entries.new.entries) }
    ensures ok { OnOk result (map.from_sorted {R = bytes_cmp} entries.new.entries ≡ with_more (map.from_sorted entries.old.entries) tag seconds) }
{
    let sum = sum_of(entries.get(&tag).copied(), seconds)?;
    let _ = entries.insert(tag, sum)?;
    Ok(())
}

// Seconds more. What no number holds is more than memory has.
fn sum_of(had: Option<u64>, seconds: u64) -> Result<u64, Memory>
    ensures { IfOk result (λ n. n ≡ unwrap_or had 0 + seconds) }
{
    had.unwrap_or(0).checked_add(seconds).ok_or(Memory)
}

fn push_entry(alloc: Global, text: &mut Vec<u8>, tag: &str, seconds: u64) -> Result<(), Memory>
    ensures { OnOk result (text.new.items ≡ text.old.items ++ tag_line (tag.now, seconds)) }
{
    let name = cell(alloc, tag)?;
    push_line(alloc, text, name.as_str().as_bytes(), seconds)
}

fn push_entries(
    alloc: Global,
    text: &mut Vec<u8>,
    entries: &BTreeMap<Text, u64>,
) -> Result<(), Memory>
    ensures { OnOk result (text.new.items ≡ text.old.items ++ flat_map tag_line entries.now.entries) }
{
    for (tag, seconds) in entries {
        push_entry(alloc, text, tag.as_str(), *seconds)?;
    }
    Ok(())
}

// Adds the seconds of an interval to those of each of its tags.
fn add_each(alloc: Global, times: &mut Times, tags: &Texts, seconds: u64) -> Result<(), Memory>
    requires { tags_rise tags.now ≡ true }
    ensures { OnOk result (AreMore (λ tag. list_any (same_bytes tag) tags.now) seconds times.old times.new) }
{
    for n in 0..tags.len() {
        times.add(alloc, tags.at(n), seconds)?;
    }
    Ok(())
}

// Adds the seconds of an interval in a range to those of its tags, if it has some.
fn add_row(
    alloc: Global,
    times: &mut Times,
    row: &Interval,
    from: u64,
    to: u64,
    now: u64,
) -> Result<(), Memory>
    requires { tags_rise row.now.tags ≡ true }
    ensures { OnOk result (AreMore (λ tag. list_any (same_bytes tag) row.now.tags && nat_lt 0 (seconds_within from to now row.now))
        (seconds_within from to now row.now) times.old times.new) }
{
    let seconds = seconds_within(from, to, now, row);
    if seconds == 0 {
        return Ok(());
    }
    add_each(alloc, times, &row.tags, seconds)
}

// The time of each tag in a range.
fn times_of(alloc: Global, rows: &[Interval], from: u64, to: u64, now: u64) -> Result<Times, Memory>
    requires { AreRows rows.now }
    ensures { IfOk result (AreTotals rows.now from to now) }
{
    let mut times = Times::new(alloc);
    for row in rows {
        add_row(alloc, &mut times, row, from, to, now)?;
    }
    Ok(times)
}

/// The time of each tag in a range, in byte order, and the tracked time of the range.
pub fn totals_text(
    alloc: Global,
    rows: &[Interval],
    from: u64,
    to: u64,
    now: u64,
) -> Result<Vec<u8>, Memory>
    requires rows { AreRows rows.now }
    requires now { now < limit }
    ensures { IfOk result (λ text. text.items ≡ totals_text rows.now from to now) }
{
    let times = times_of(alloc, rows, from, to, now)?;
    let mut text = Vec::new(alloc);
    times.push_lines(alloc, &mut text)?;
    push_sum(alloc, &mut text, time_of(rows, from, to, now))?;
    Ok(text)
}
