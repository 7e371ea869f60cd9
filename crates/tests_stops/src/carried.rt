// The record of a sync, by what it carries.

use crate::world::{On, Row, Then, World};
use std::alloc::Global;
use std::test::Fail;

// Two machines that hold one task both set its project, the desk at second 100 and the lap at this one. The desk syncs first.
const fn both_modify(second: u64) -> [Row; 7] {
    [
        (On::Desk, 10, "add|Buy|milk", Then::Done),
        (On::Desk, 1_000, "sync", Then::Done),
        (On::Lap, 1_000, "sync", Then::Done),
        (On::Desk, 100, "1|modify|project:Home", Then::Done),
        (On::Lap, second, "1|modify|project:Work", Then::Done),
        (On::Desk, 1_000, "sync", Then::Done),
        (On::Lap, 1_000, "sync", Then::Done),
    ]
}

// How many bytes the body of the record of a sync has, the number of the version that it stands at, and how many operations it
// carried.
type Carried = [u8; 3];

// Whether the last record on a disk is that of such a sync.
fn is_carried(bytes: &[u8], carried: Carried) -> bool {
    let [size, base, count] = carried;
    let record = [
        1, 0, 0, 0, size, 4, 0, 0, 0, 0, 0, 0, 0x40, 0, 0x80, 0, 0, 0, 0, 0, 0, base, 0, 0, 0,
        count,
    ];
    let start = bytes.len().saturating_sub(usize::from(size) + 5);
    bytes.get(start..start.saturating_add(26)) == Some(record.as_slice())
}

// Whether the last record of the lap is such a one, if it changed the project at this second.
fn carries(alloc: Global, second: u64, carried: Carried) -> Result<bool, Fail> {
    let mut world = World::new(alloc, &[])?;
    world.follow(&both_modify(second))?;
    Ok(is_carried(world.lap.bytes(), carried))
}

// An update of 49 bytes is carried for each property that is the desk's.
#[test]
fn a_sync_writes_what_it_carries(rt: HostRuntime) -> Result<(), Fail> {
    let alloc = rt.alloc();
    assert!(rt; carries(alloc, 200, [21, 3, 0])?);
    assert!(rt; carries(alloc, 50, [119, 2, 2])?);
    assert!(rt; carries(alloc, 100, [70, 2, 1])?);
    Ok(())
}
