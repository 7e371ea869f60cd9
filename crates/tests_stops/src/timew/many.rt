// A thousand intervals, in a file that has the newest first.

use super::{Machine, disk_of, folder_with};
use std::alloc::Global;
use std::test::Fail;

// The lines of five seconds each, ten minutes apart, from 2026-01-01 to 2026-01-07.
fn newest_first(alloc: Global) -> Result<String, Fail> {
    let mut text = String::new(alloc);
    for back in 0..1_000u32 {
        let turn = 999 - back;
        let (day, hour, minute) = (1 + turn / 144, turn % 144 / 6, turn % 6 * 10);
        let at = format!(in alloc; "202601{day:02}T{hour:02}{minute:02}")?;
        let at = at.as_str();
        text.push_str(format!(in alloc; "inc {at}00Z - {at}05Z # code\n")?.as_str())?;
    }
    Ok(text)
}

fn thousand(alloc: Global) -> Result<Machine, Fail> {
    let text = newest_first(alloc)?;
    Ok(Machine {
        alloc,
        folder: folder_with(alloc, text.as_str(), &[])?,
        disk: disk_of(alloc, &[], &[])?,
    })
}

fn line_count(text: &str) -> usize {
    text.as_bytes().iter().filter(|b| **b == b'\n').count()
}

// Whether a summary has a head, a row each, an empty line and a total, and an export an object each between two lines.
fn is_shown(machine: &mut Machine) -> Result<bool, Fail> {
    let summary = machine.told("summary :all")?;
    let export = machine.told("export")?;
    Ok(
        line_count(summary.as_str()) == 1_003
            && summary.as_str().ends_with("\n\nTotal 1:23:20\n")
            && line_count(export.as_str()) == 1_002,
    )
}

// `delete` and the ids of a thousand intervals.
fn delete_line(alloc: Global) -> Result<String, Fail> {
    let mut line = String::from_str(alloc, "delete")?;
    for id in 1..1_001u32 {
        line.push_str(format!(in alloc; " @{id}")?.as_str())?;
    }
    Ok(line)
}

// Whether one more interval is stored, and all but the first are dropped.
fn is_changed(machine: &mut Machine) -> Result<bool, Fail> {
    let tracked = machine.tells(
        "track 2026-01-04T00:05:00 - 2026-01-04T00:05:05 call",
        "0 Stored 1001 intervals.\n",
    )?;
    let line = delete_line(machine.alloc)?;
    Ok(
        tracked
            && machine.leaves(
                line.as_str(),
                "0 Stored 1 interval.\n",
                "inc 20260101T000000Z - 20260101T000005Z # code\n",
            )?,
    )
}

#[test]
fn a_thousand_intervals_are_shown_and_changed(rt: HostRuntime) -> Result<(), Fail> {
    let mut machine = thousand(rt.alloc())?;
    assert!(rt; is_shown(&mut machine)?);
    assert!(rt; is_changed(&mut machine)?);
    Ok(())
}
