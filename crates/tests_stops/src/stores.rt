// Stores of a few tasks, and what they export.

use crate::given::Given;
use crate::runs::{disk_of, machine, run_alone};
use std::alloc::Global;
use std::test::Fail;
use tw_world::MemoryDisk;

/// The second of each run, 2023-11-14T22:13:20Z.
pub(crate) const SECOND: u64 = 1_700_000_000;

/// What stores of no task, of one and of two export.
pub(crate) const NONE: &str = "[\n]\n";

pub(crate) const ONE: &str =
    "[\n{\"description\":\"Buy milk\",\"entry\":\"20231114T221320Z\",\"modified\":\"20231114T221320Z\",\
     \"status\":\"pending\",\"urgency\":0.000,\"uuid\":\"00000000-0000-4000-8000-000000000001\"}\n]\n";

pub(crate) const TWO: &str =
    "[\n{\"description\":\"Buy milk\",\"entry\":\"20231114T221320Z\",\"modified\":\"20231114T221320Z\",\
     \"status\":\"pending\",\"urgency\":0.000,\"uuid\":\"00000000-0000-4000-8000-000000000001\"},\n\
     {\"description\":\"Buy milk\",\"entry\":\"20231114T221320Z\",\"modified\":\"20231114T221320Z\",\
     \"status\":\"pending\",\"urgency\":0.000,\"uuid\":\"00000000-0000-4000-8000-000000000002\"}\n]\n";

/// A store to which so many tasks were added, the first of which has the uuid of `ONE`.
pub(crate) fn with_adds(alloc: Global, adds: u8) -> Result<MemoryDisk, Fail> {
    let mut disk = machine(alloc)?;
    for before in 0..adds {
        let given = Given::new(u128::from(before) + 1, SECOND);
        let _ = run_alone(alloc, &given, "add|Buy|milk", &mut disk)?;
    }
    Ok(disk)
}

/// Whether a store of these bytes exports the second text, or the first, or none of them.
pub(crate) fn side_of(
    alloc: Global,
    bytes: &[u8],
    before: &str,
    after: &str,
) -> Result<Option<bool>, Fail> {
    let mut disk = disk_of(alloc, bytes, &[])?;
    let ended = run_alone(alloc, &Given::new(9, SECOND), "export", &mut disk)?;
    let said = ended.said();
    Ok(if said == Some(after.as_bytes()) {
        Some(true)
    } else if said == Some(before.as_bytes()) {
        Some(false)
    } else {
        None
    })
}
