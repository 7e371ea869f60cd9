// The edits from one task to another.

use crate::model::{moment, task_of};
use std::alloc::Global;
use std::test::Fail;
use tw_model::{Op, edits};
use tw_world::{Memory, Text};
use uuid::Uuid;

fn is_text(text: &Option<Text>, want: Option<&str>) -> bool {
    match (text, want) {
        (Some(text), Some(want)) => text.as_str() == want,
        (None, None) => true,
        _ => false,
    }
}

// Whether an operation is this update.
pub(crate) fn is_update(op: &Op, row: &(&str, Option<&str>, Option<&str>)) -> bool {
    match op {
        Op::Update {
            property,
            before,
            after,
            ..
        } => { property.as_str() == row.0 && is_text(before, row.1) && is_text(after, row.2) }
        _ => false,
    }
}

// The edits that lead from one task to another.
fn edits_between(
    alloc: Global,
    before: &[(&str, &str)],
    after: &[(&str, &str)],
) -> Result<Vec<Op>, Memory> {
    let before = task_of(alloc, before)?;
    let after = task_of(alloc, after)?;
    edits(alloc, Uuid::from_u128(3), &before, &after, moment())
}

fn are_updates(ops: &Vec<Op>, rows: &[(&str, Option<&str>, Option<&str>)]) -> bool {
    for (op, row) in ops.iter().zip(rows) {
        if !is_update(op, row) {
            return false;
        }
    }
    ops.len() == rows.len()
}

const BEFORE: [(&str, &str); 3] = [("status", "pending"), ("project", "Home"), ("due", "1")];

const AFTER: [(&str, &str); 3] = [("status", "pending"), ("project", "Work"), ("wait", "2")];

const EDITED: [(&str, Option<&str>, Option<&str>); 3] = [
    ("due", Some("1"), None),
    ("project", Some("Home"), Some("Work")),
    ("wait", None, Some("2")),
];

#[test]
fn edits_are_the_properties_that_differ(rt: HostRuntime) -> Result<(), Fail> {
    let alloc = rt.alloc();
    assert!(rt; are_updates(&edits_between(alloc, &BEFORE, &AFTER)?, &EDITED));
    assert!(rt; are_updates(&edits_between(alloc, &AFTER, &AFTER)?, &[]));
    Ok(())
}
