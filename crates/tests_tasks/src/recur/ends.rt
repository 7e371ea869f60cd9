use crate::recur::{PARENT, has_all, make_due, template};
use std::alloc::Global;
use std::test::Fail;
use tw_model::Tasks;
use tw_time::Zone;

#[derive(Clone, Copy)]
struct Case {
    template: &'static str,
    zone: &'static str,
    now: u64,
    limit: u32,
    mask: Option<&'static str>,
    dues: [u64; 4],
}

const CASES: [Case; 8] = [
    // The 29th of February of each year, on the 1st of March 2026.
    Case {
        template: "due=1709164800 recur=yearly mask=",
        zone: "",
        now: 1_772_323_200,
        limit: 1,
        mask: Some("----"),
        dues: [1_709_164_800, 1_740_700_800, 1_772_236_800, 1_803_772_800],
    },
    // A midnight that the clock leaps over.
    Case {
        template: "due=1541214000 recur=daily mask=",
        zone: "<-03>3<-02>,M11.1.0/0,M2.3.0/0",
        now: 1_541_300_400,
        limit: 1,
        mask: Some("---"),
        dues: [1_541_214_000, 1_541_300_400, 1_541_383_200, 0],
    },
    // `until` is the day of the third.
    Case {
        template: "due=1767225600 recur=daily until=1767398400",
        zone: "",
        now: 1_767_355_200,
        limit: 5,
        mask: Some("---"),
        dues: [1_767_225_600, 1_767_312_000, 1_767_398_400, 0],
    },
    // Each waits for the day before, the third still does.
    Case {
        template: "due=1767225600 recur=1d wait=1767139200",
        zone: "",
        now: 1_767_268_800,
        limit: 2,
        mask: Some("--W"),
        dues: [1_767_225_600, 1_767_312_000, 1_767_398_400, 0],
    },
    // Only those that are due.
    Case {
        template: "due=1767225600 recur=1d mask=+",
        zone: "",
        now: 1_767_355_200,
        limit: 0,
        mask: Some("+-"),
        dues: [1_767_312_000, 0, 0, 0],
    },
    // A mask is counted in characters.
    Case {
        template: "due=1767225600 recur=1d mask=\u{e9}",
        zone: "",
        now: 1_767_355_200,
        limit: 0,
        mask: Some("\u{e9}-"),
        dues: [1_767_312_000, 0, 0, 0],
    },
    // The first lies ahead by more than the limit lets.
    Case {
        template: "due=1767312000 recur=1d mask=",
        zone: "",
        now: 1_767_268_800,
        limit: 0,
        mask: Some(""),
        dues: [0, 0, 0, 0],
    },
    // No such length.
    Case {
        template: "due=1767225600 recur=often until=soon",
        zone: "",
        now: 1_767_355_200,
        limit: 1,
        mask: None,
        dues: [0, 0, 0, 0],
    },
];

fn is_due(tasks: &Tasks, due: u64) -> bool {
    for (_, task) in tasks.iter() {
        if task.get("imask").is_some() && tw_urgency::moment_at(task, "due") == Some(due) {
            return true;
        }
    }
    false
}

fn count_dues(dues: &[u64]) -> usize {
    let mut count = 0usize;
    for due in dues {
        if *due > 0 {
            count = count.saturating_add(1);
        }
    }
    count
}

// The tasks of a case once what is due is made.
fn made(alloc: Global, case: &Case) -> Result<Tasks, Fail> {
    let mut tasks = template(alloc, case.template)?;
    let zone = Zone::read(case.zone).or(Err("no zone"))?;
    let _ = make_due(alloc, &mut tasks, case.now, &zone, case.limit)?;
    Ok(tasks)
}

fn are_due(tasks: &Tasks, dues: &[u64]) -> bool {
    for due in dues {
        if *due != 0 && !is_due(tasks, *due) {
            return false;
        }
    }
    tasks.len() as usize == count_dues(dues).saturating_add(1)
}

fn is_right(alloc: Global, case: &Case) -> Result<bool, Fail> {
    let tasks = made(alloc, case)?;
    Ok(has_all(&tasks, PARENT, &[("mask", case.mask)]) && are_due(&tasks, &case.dues))
}

// How many of the cases come out as they should, up to the first that does not.
fn cases_so_far(alloc: Global) -> Result<usize, Fail> {
    for (number, case) in CASES.iter().enumerate() {
        if !is_right(alloc, case)? {
            return Ok(number);
        }
    }
    Ok(CASES.len())
}

#[test]
fn instances_end_where_the_template_says(rt: HostRuntime) -> Result<(), Fail> {
    assert_eq!(rt; cases_so_far(rt.alloc())?, CASES.len());
    Ok(())
}
