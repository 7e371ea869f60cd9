mod ends;

use crate::urgency::task_of;
use std::alloc::Global;
use std::test::Fail;
use tw_model::{Tasks, make};
use tw_recur::{due_changes, due_instances};
use tw_time::Zone;
use tw_world::{Memory, Moment};
use uuid::Uuid;

pub(crate) const PARENT: u128 = 0x00000000_0000_4000_8000_000000000001;

// 2026-05-01T00:00:00Z
const MAY: Moment = Moment {
    seconds: 1_777_593_600,
    nanos: 0,
};

// A template of a text `property=value property=value`.
pub(crate) fn template(alloc: Global, text: &str) -> Result<Tasks, Memory> {
    let mut task = task_of(alloc, text)?;
    task.set(alloc, "status", Some("recurring"))?;
    let mut tasks = Tasks::new(alloc);
    let _ = tasks.insert(Uuid::from_u128(PARENT), task)?;
    Ok(tasks)
}

// Makes what is due at a second, and answers how many changes and operations that is.
pub(crate) fn make_due(
    alloc: Global,
    tasks: &mut Tasks,
    second: u64,
    zone: &Zone,
    limit: u32,
) -> Result<(usize, usize), Memory> {
    let changes = due_changes(alloc, tasks, second, zone, limit)?;
    let count = changes.len();
    let mut ops = Vec::new(alloc);
    for change in changes {
        make(alloc, tasks, &mut ops, change, MAY)?;
    }
    Ok((count, ops.len()))
}

fn value_of<'a>(tasks: &'a Tasks, uuid: Uuid, property: &str) -> Option<&'a str> {
    tasks.get(uuid)?.get(property)
}

// The uuids are of version 5 (RFC 9562, section 5.5), in byte order, with the number, the due moment and the day that is due.
const RENT: [(u128, &str, &str); 5] = [
    (0x13d304d6_7527_53a3_94fe_cbf12b26c020, "4", "1780185600"),
    (0x1473064a_566e_5c85_9bd7_e437b86f2b05, "0", "1769817600"),
    (0x8d4035dc_2470_5da4_8dfe_3942ac4f1762, "1", "1772236800"),
    (0xd396cd91_59ff_5a32_a9a3_a70124abd63a, "3", "1777507200"),
    (0xec828c2b_30cf_583d_8660_1d587530a97e, "2", "1774915200"),
];

const MONTHLY: &str = "description=Rent due=1769817600 entry=1777593500 recur=monthly";

// What is due in May, by its uuids.
fn due_in_may(alloc: Global, tasks: &Tasks) -> Result<Vec<Uuid>, Memory> {
    let mut uuids = Vec::new(alloc);
    for change in due_changes(alloc, tasks, MAY.seconds, &Zone::utc(), 1)? {
        uuids.push(change.uuid)?;
    }
    Ok(uuids)
}

// The uuids of the rents come first, and one more.
fn are_rents(uuids: &Vec<Uuid>) -> bool {
    for (at, (rent, _, _)) in RENT.iter().enumerate() {
        match uuids.get(at) {
            Some(uuid) if *uuid == Uuid::from_u128(*rent) => {}
            _ => return false,
        }
    }
    uuids.len() == 6
}

// The tasks to which the operations of what is due in May are applied, where each fits, and how many these are.
fn applied(alloc: Global, tasks: &Tasks) -> Result<Option<(Tasks, usize)>, Memory> {
    let ops = due_instances(alloc, tasks, MAY, &Zone::utc(), 1)?;
    let mut applied = tasks.copy(alloc)?;
    for op in &ops {
        if !applied.apply(alloc, op)? {
            return Ok(None);
        }
    }
    Ok(Some((applied, ops.len())))
}

pub(crate) fn has_all(tasks: &Tasks, uuid: u128, properties: &[(&str, Option<&str>)]) -> bool {
    for (property, value) in properties {
        if value_of(tasks, Uuid::from_u128(uuid), property) != *value {
            return false;
        }
    }
    true
}

// What each of the rents has.
const OF_RENTS: [(&str, Option<&str>); 7] = [
    ("description", Some("Rent")),
    ("entry", Some("1777593600")),
    ("mask", None),
    ("modified", Some("1777593600")),
    ("parent", Some("00000000-0000-4000-8000-000000000001")),
    ("recur", Some("monthly")),
    ("status", Some("pending")),
];

fn has_value(tasks: &Tasks, uuid: u128, property: &str, value: &str) -> bool {
    value_of(tasks, Uuid::from_u128(uuid), property) == Some(value)
}

fn has_rent(tasks: &Tasks, uuid: u128, number: &str, due: &str) -> bool {
    has_value(tasks, uuid, "imask", number)
        && has_value(tasks, uuid, "due", due)
        && has_all(tasks, uuid, &OF_RENTS)
}

fn has_rents(tasks: &Tasks) -> bool {
    for (uuid, number, due) in RENT.iter() {
        if !has_rent(tasks, *uuid, number, due) {
            return false;
        }
    }
    true
}

// Makes what is due in May, and tells whether that is as many changes and operations.
fn makes_in_may(
    alloc: Global,
    tasks: &mut Tasks,
    changes: usize,
    ops: usize,
) -> Result<bool, Memory> {
    Ok(make_due(alloc, tasks, MAY.seconds, &Zone::utc(), 1)? == (changes, ops))
}

// Whether the changes and the operations of what is due in May make the same of the tasks.
fn makes_rents(alloc: Global, tasks: &mut Tasks) -> Result<bool, Memory> {
    let Some((applied, count)) = applied(alloc, tasks)? else {
        return Ok(false);
    };
    Ok(makes_in_may(alloc, tasks, 6, count)? && has_rents(tasks) && has_rents(&applied))
}

fn is_marked(tasks: &Tasks) -> bool {
    let marked = [("mask", Some("-----")), ("modified", Some("1777593600"))];
    has_all(tasks, PARENT, &marked)
}

fn rents_are_due(alloc: Global, tasks: &Tasks) -> Result<bool, Memory> {
    Ok(are_rents(&due_in_may(alloc, tasks)?))
}

// Whether the rents are made, and then nothing is due.
fn all_are_made(alloc: Global, tasks: &mut Tasks) -> Result<bool, Memory> {
    Ok(makes_rents(alloc, tasks)? && is_marked(tasks) && due_in_may(alloc, tasks)?.is_empty())
}

#[test]
fn months_keep_their_ends(rt: HostRuntime) -> Result<(), Fail> {
    let mut tasks = template(rt.alloc(), MONTHLY)?;
    assert!(rt; rents_are_due(rt.alloc(), &tasks)?);
    assert!(rt; all_are_made(rt.alloc(), &mut tasks)?);
    Ok(())
}

// Whether these numbers of changes are made, one after another.
fn makes_each(alloc: Global, tasks: &mut Tasks, counts: &[usize]) -> Result<bool, Memory> {
    for count in counts {
        let (changes, _) = make_due(alloc, tasks, MAY.seconds, &Zone::utc(), 1)?;
        if changes != *count {
            return Ok(false);
        }
    }
    Ok(true)
}

// A day of 2,000 ago that comes again each day: a thousand instances at once, the rest later.
#[test]
fn a_thousand_are_made_at_once(rt: HostRuntime) -> Result<(), Fail> {
    let alloc = rt.alloc();
    let mut tasks = template(alloc, "due=1604793600 recur=1d")?;
    assert!(rt; makes_each(alloc, &mut tasks, &[1001, 1001, 3, 0])?);
    Ok(())
}
