ghost use Rattle.tw_urgency.specs.Urgency.{AreWeights};

use std::alloc::Global;
use std::test::Fail;
use tw_model::{TaskMap, Tasks};
use tw_urgency::{Coefficients, all_blocking, blocked, blocking, reached, urgency_of, would_cycle};
use tw_world::Memory;
use uuid::Uuid;

// 2026-03-04T10:00:00Z.
const NOW: u64 = 1_772_618_400;

fn numbered(n: u128) -> Uuid {
    Uuid::from_u128(0x00000000_0000_4000_8000_000000000000 | n)
}

// The task of a text `property=value property=value`.
pub(crate) fn task_of(alloc: Global, text: &str) -> Result<TaskMap, Memory> {
    let mut task = TaskMap::new(alloc);
    for pair in text.split(' ') {
        if let Some((property, value)) = pair.split_once('=') {
            task.set(alloc, property, Some(value))?;
        }
    }
    Ok(task)
}

// Coefficients of which few parts are whole, some of them below zero.
fn odd() -> Coefficients
    ensures { AreWeights result }
{
    Coefficients {
        tag_next: 7,
        due: -777,
        blocking: 11,
        high: -13,
        medium: 17,
        low: -19,
        scheduled: 23,
        active: -29,
        age: -1_001,
        annotations: -1_011,
        tags: 999,
        project: 31,
        blocked: 37,
        waiting: -41,
        age_max: 3,
    }
}

// Tasks, and what a reading of the rule in fractions gives by the default and by the odd coefficients. For the
// last two Taskwarrior 2.6.2 prints 18 and 11.
const URGENCIES: [(&str, i64, i64); 40] = [
    ("", 0, 0),
    ("due=1773828000", 2400, -155),
    ("due=1773827999", 2400, -155),
    ("due=1773828001", 2400, -155),
    ("due=1772618400", 8800, -569),
    ("due=1772013600", 12000, -777),
    ("due=1772013601", 11999, -776),
    ("due=0", 12000, -777),
    ("due=soon", 0, 0),
    ("due=1772964078", 6971, -451),
    (
        "tag_next= priority=H project=x entry=1772618400",
        22800,
        824,
    ),
    ("entry=1772618399", 0, 0),
    ("entry=1772618401", 0, 0),
    ("entry=1741082400", 2000, -1001),
    ("entry=1741082399", 2000, -1001),
    ("entry=0", 2000, -1001),
    ("entry=1772518400", 6, -386),
    ("entry=01", 0, 0),
    ("tag_a=", 800, 799),
    ("tag_a= tag_b=x", 900, 899),
    ("tag_a= tag_b= tag_next= tag_=", 16000, 1006),
    ("tags=a", 0, 0),
    ("annotation_1=a", 800, -808),
    ("annotation_1=a annotation_2=b", 900, -909),
    ("annotation_1=a annotation_2=b annotation_x=c", 900, -909),
    (
        "annotation_1=a annotation_2=b annotation_3=c annotation_4=d",
        1000,
        -1011,
    ),
    ("priority=M", 3900, 17),
    ("priority=L", 1800, -19),
    ("priority=h", 0, 0),
    ("priority=", 0, 0),
    ("start=x", 4000, -29),
    ("project=", 1000, 31),
    ("scheduled=1772618400", 5000, 23),
    ("scheduled=1772618401", 0, 0),
    ("scheduled=x", 0, 0),
    ("status=pending wait=1772618401", -3000, -41),
    ("status=pending wait=1772618400", 0, 0),
    ("status=completed wait=1772618401", 0, 0),
    (
        "status=pending priority=H project=Home.Flat entry=1706745599 due=1709208000 wait=2147483648",
        18000,
        -1801,
    ),
    (
        "status=completed start=946684800 entry=946684799 scheduled=947923200 end=951786123",
        11000,
        -1007,
    ),
];

// The urgency of a task that is alone, by the default and by the odd coefficients.
fn urgencies(alloc: Global, text: &str) -> Result<(i64, i64), Memory> {
    let task = task_of(alloc, text)?;
    let mut tasks = Tasks::new(alloc);
    let _ = tasks.insert(numbered(1), task)?;
    Ok((
        urgency_of(&tasks, numbered(1), NOW, &Coefficients::defaults()),
        urgency_of(&tasks, numbered(1), NOW, &odd()),
    ))
}

// The first task of another urgency.
fn other_urgency(alloc: Global) -> Result<Option<&'static str>, Memory> {
    for (text, by_default, by_odd) in &URGENCIES {
        if urgencies(alloc, text)? != (*by_default, *by_odd) {
            return Ok(Some(*text));
        }
    }
    Ok(None)
}

#[test]
fn urgency_is_the_sum_of_its_terms_cut_toward_zero(rt: HostRuntime) -> Result<(), Fail> {
    assert_eq!(rt; other_urgency(rt.alloc())?, None);
    Ok(())
}

// Tasks by their numbers, the numbers to which their dependencies lead, their own among them, and whether they are
// blocked and blocking: a chain from 5 to 1, 6 and 7 in a circle, and 9, which depends on a deleted task and on none.
const DEPENDENCIES: [(u128, &str, &[u128], bool, bool); 9] = [
    (1, "status=pending", &[1], false, true),
    (
        2,
        "status=pending dep_00000000-0000-4000-8000-000000000001=",
        &[1, 2],
        true,
        true,
    ),
    (
        3,
        "status=pending wait=1772618401 dep_00000000-0000-4000-8000-000000000002=",
        &[1, 2, 3],
        true,
        false,
    ),
    (
        4,
        "status=completed dep_00000000-0000-4000-8000-000000000003=",
        &[1, 2, 3, 4],
        false,
        false,
    ),
    (
        5,
        "status=pending dep_00000000-0000-4000-8000-000000000004=",
        &[1, 2, 3, 4, 5],
        false,
        true,
    ),
    (
        6,
        "status=pending dep_00000000-0000-4000-8000-000000000007= dep_00000000-0000-4000-8000-000000000005=",
        &[1, 2, 3, 4, 5, 6, 7],
        true,
        true,
    ),
    (
        7,
        "status=pending dep_00000000-0000-4000-8000-000000000006= dep_x=",
        &[1, 2, 3, 4, 5, 6, 7],
        true,
        true,
    ),
    (
        8,
        "status=deleted dep_00000000-0000-4000-8000-000000000008=",
        &[8],
        false,
        false,
    ),
    (
        9,
        "status=pending dep_00000000-0000-4000-8000-000000000088= dep_00000000-0000-4000-8000-000000000008=",
        &[8, 9, 0x88],
        false,
        false,
    ),
];

fn dependent(alloc: Global) -> Result<Tasks, Memory> {
    let mut tasks = Tasks::new(alloc);
    for (number, text, _, _, _) in &DEPENDENCIES {
        let _ = tasks.insert(numbered(*number), task_of(alloc, text)?)?;
    }
    Ok(tasks)
}

// Whether a task is blocked, and whether it is blocking, by both ways to ask for that.
fn blocks(alloc: Global, tasks: &Tasks, number: u128) -> Result<(bool, bool, bool), Memory> {
    let uuid = numbered(number);
    let all = all_blocking(alloc, tasks)?;
    Ok((
        blocked(tasks, uuid),
        blocking(tasks, uuid),
        all.contains(&uuid),
    ))
}

// Whether a dependency of the one task on the other would close a circle.
fn closes(alloc: Global, tasks: &Tasks, number: u128, other: u128) -> Result<bool, Memory> {
    would_cycle(alloc, tasks, numbered(number), numbered(other))
}

const OTHERS: [u128; 10] = [1, 2, 3, 4, 5, 6, 7, 8, 9, 0x88];

// Whether dependencies lead from a task to these others alone, by both ways to ask for that.
fn leads_to(alloc: Global, tasks: &Tasks, from: u128, leads: &[u128]) -> Result<bool, Memory> {
    let met = reached(alloc, tasks, numbered(from))?;
    for other in &OTHERS {
        let is_led = leads.contains(other);
        let is_met = met.contains(&numbered(*other)) == is_led;
        if !is_met || closes(alloc, tasks, *other, from)? != is_led {
            return Ok(false);
        }
    }
    Ok(true)
}

// The first task that leads to others than these, or of which is said otherwise whether it is blocked or blocking.
fn other_dependent(alloc: Global, tasks: &Tasks) -> Result<Option<u128>, Memory> {
    for (number, _, leads, is_blocked, is_blocking) in &DEPENDENCIES {
        let wanted = (*is_blocked, *is_blocking, *is_blocking);
        let is_said = blocks(alloc, tasks, *number)? == wanted;
        if !is_said || !leads_to(alloc, tasks, *number, leads)? {
            return Ok(Some(*number));
        }
    }
    Ok(None)
}

// Whether a circle is closed by a task that is not there, and another one.
fn closes_beside(alloc: Global, tasks: &Tasks) -> Result<(bool, bool), Memory> {
    let other = closes(alloc, tasks, 1, 0x88)?;
    let itself = closes(alloc, tasks, 0x99, 0x99)?;
    Ok((other, itself))
}

#[test]
fn dependencies_lead_along_a_chain_and_round_a_circle(rt: HostRuntime) -> Result<(), Fail> {
    let alloc = rt.alloc();
    let tasks = dependent(alloc)?;
    assert_eq!(rt; other_dependent(alloc, &tasks)?, None);
    assert!(rt; closes_beside(alloc, &tasks)? == (false, true));
    Ok(())
}

fn depending(alloc: Global, before: u128) -> Result<TaskMap, Memory> {
    let mut task = TaskMap::new(alloc);
    let name = format!(in alloc; "dep_{}", numbered(before))?;
    task.set(alloc, name.as_str(), Some(""))?;
    Ok(task)
}

// Tasks in a chain, each of which depends on the one before it.
fn chained(alloc: Global, length: u64) -> Result<Tasks, Memory> {
    let mut tasks = Tasks::new(alloc);
    for before in 0..length {
        let before = u128::from(before);
        let _ = tasks.insert(numbered(before + 1), depending(alloc, before)?)?;
    }
    Ok(tasks)
}

// Whether a long chain is followed to its end, and no further.
fn follows(alloc: Global) -> Result<(bool, bool), Memory> {
    let tasks = chained(alloc, 50_000)?;
    let up = closes(alloc, &tasks, 1, 50_000)?;
    let down = closes(alloc, &tasks, 50_000, 1)?;
    Ok((up, down))
}

#[test]
fn a_chain_of_fifty_thousand_tasks_is_followed_to_its_end(rt: HostRuntime) -> Result<(), Fail> {
    assert!(rt; follows(rt.alloc())? == (true, false));
    Ok(())
}
