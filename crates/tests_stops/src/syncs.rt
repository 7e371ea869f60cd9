// Stops and failing calls during a sync.

use crate::given::{Ended, Given};
use crate::link::Exchange;
use crate::runs::{disk_of, image_of, run_given};
use crate::stores::SECOND;
use crate::world::{On, Row, SETTINGS, Then, World};
use std::alloc::Global;
use std::test::Fail;
use tw_cli::Cause;
use tw_server::Fate;
use tw_world::MemoryDisk;

const NOTHING: &str = "Synced: 0 pulled, 0 dropped, 0 pushed.\n";

// A sync of the lap after some lines over these exchanges, and what the next sync prints: `unsent` if the server has no version of
// the lap, and `again` if it has all, each after one that left the store as it was and after one that wrote its record. In the end
// the server has so many versions.
#[derive(Clone, Copy)]
struct Sync {
    exchanges: &'static [Exchange],
    lines: &'static [Row],
    unsent: [&'static str; 2],
    again: [&'static str; 2],
    versions: usize,
}

// One sync pushes a version. The other pulls one, by which what is pending is dropped.
const SYNCS: [Sync; 2] = [
    Sync {
        exchanges: &[],
        lines: &[(On::Lap, SECOND, "add|Buy|milk", Then::Done)],
        unsent: ["Synced: 0 pulled, 0 dropped, 5 pushed.\n", NOTHING],
        again: ["Synced: 1 pulled, 5 dropped, 0 pushed.\n", NOTHING],
        versions: 1,
    },
    Sync {
        exchanges: &[],
        lines: &[
            (On::Desk, 10, "add|Buy|milk", Then::Done),
            (On::Desk, SECOND, "sync", Then::Done),
            (On::Lap, SECOND, "sync", Then::Done),
            (On::Desk, 100, "1|modify|project:Home", Then::Done),
            (On::Lap, 50, "1|modify|project:Work", Then::Done),
            (On::Desk, SECOND, "sync", Then::Done),
        ],
        unsent: ["Synced: 1 pulled, 2 dropped, 0 pushed.\n", NOTHING],
        again: ["Synced: 1 pulled, 2 dropped, 0 pushed.\n", NOTHING],
        versions: 2,
    },
];

// An exchange that arrives.
const ARRIVES: Exchange = (&[], Fate::Deliver);

// One pulls a version, and what it sends is lost: the tenth exchange.
const CUT: [Sync; 1] = [Sync {
    exchanges: &[
        ARRIVES,
        ARRIVES,
        ARRIVES,
        ARRIVES,
        ARRIVES,
        ARRIVES,
        ARRIVES,
        ARRIVES,
        ARRIVES,
        (&[], Fate::LoseRequest),
    ],
    lines: &[
        (On::Desk, 10, "add|Buy|milk", Then::Done),
        (On::Desk, SECOND, "sync", Then::Done),
        (On::Lap, SECOND, "sync", Then::Done),
        (On::Desk, 100, "1|modify|project:Home", Then::Done),
        (On::Lap, 200, "1|modify|project:Work", Then::Done),
        (On::Desk, SECOND, "sync", Then::Done),
    ],
    unsent: [
        "Synced: 1 pulled, 0 dropped, 2 pushed.\n",
        "Synced: 0 pulled, 0 dropped, 2 pushed.\n",
    ],
    again: [
        "Synced: 2 pulled, 2 dropped, 0 pushed.\n",
        "Synced: 1 pulled, 2 dropped, 0 pushed.\n",
    ],
    versions: 3,
}];

const DESK_SYNCS: [Row; 1] = [(On::Desk, SECOND, "sync", Then::Done)];

// A sync on this disk, over the link of these machines and an output whose calls with these numbers fail.
fn synced(world: &mut World, disk: &mut MemoryDisk, out_fails: &[u64]) -> Result<Ended, Fail> {
    let mut given = Given::new(1, SECOND);
    given.settings = SETTINGS;
    run_given(
        world.alloc,
        &given,
        "sync",
        disk,
        &mut world.link,
        out_fails,
    )
}

fn is_one_of(said: Option<&[u8]>, one: &str, other: &str) -> bool {
    said == Some(one.as_bytes()) || said == Some(other.as_bytes())
}

impl Sync {
    // The machines after the lines.
    fn world(&self, alloc: Global) -> Result<World, Fail> {
        let mut world = World::new(alloc, self.exchanges)?;
        world.follow(self.lines)?;
        Ok(world)
    }

    // Whether this is how a sync ends after this one, which wrote its record or else may have left the store as it was.
    fn is_next(&self, ended: &Ended, is_done: bool) -> bool {
        let [unsent, unsent_then] = self.unsent;
        let [again, again_then] = self.again;
        let said = ended.said();
        is_one_of(said, unsent_then, again_then) || !is_done && is_one_of(said, unsent, again)
    }

    // Whether the lap goes on so with these bytes, and then both machines agree and no version is there twice.
    fn goes_on(&self, world: &mut World, bytes: &[u8], is_done: bool) -> Result<bool, Fail> {
        world.lap = disk_of(world.alloc, bytes, &[])?;
        let ended = world.run(On::Lap, SECOND, "sync")?;
        world.follow(&DESK_SYNCS)?;
        Ok(
            self.is_next(&ended, is_done)
                && world.agrees(SECOND)?
                && world.link.versions() == self.versions,
        )
    }

    // Whether the lap goes on from each image after so many calls.
    fn each_goes_on(&self, world: &mut World, disk: &MemoryDisk, calls: u64) -> Result<bool, Fail> {
        let is_done = calls == disk.calls();
        for pick in 0..4 {
            if !self.goes_on(world, &image_of(disk, calls, pick)?, is_done)? {
                return Ok(false);
            }
        }
        Ok(true)
    }

    // The same after each number of calls.
    fn outlives_stops(&self, alloc: Global) -> Result<bool, Fail> {
        let mut world = self.world(alloc)?;
        let mut disk = disk_of(alloc, world.lap.bytes(), &[])?;
        let _ = synced(&mut world, &mut disk, &[])?;
        for calls in 0..disk.calls().saturating_add(1) {
            if !self.each_goes_on(&mut world, &disk, calls)? {
                return Ok(false);
            }
        }
        Ok(true)
    }

    // The calls of a sync.
    fn calls(&self, alloc: Global) -> Result<u64, Fail> {
        let mut world = self.world(alloc)?;
        let mut disk = disk_of(alloc, world.lap.bytes(), &[])?;
        let _ = synced(&mut world, &mut disk, &[])?;
        Ok(disk.calls())
    }

    // Whether a sync is refused if the call with this number fails, and the next one goes on.
    fn is_refused_at(&self, alloc: Global, failing: u64) -> Result<bool, Fail> {
        let mut world = self.world(alloc)?;
        let mut disk = disk_of(alloc, world.lap.bytes(), &[failing])?;
        let ended = synced(&mut world, &mut disk, &[])?;
        let is_told = ended.is(3, &Cause::DiskFault)
            && ended.said() == Some(b"task: the journal failed\n".as_slice());
        Ok(is_told && self.goes_on(&mut world, disk.bytes(), false)?)
    }

    // The same of each call.
    fn outlives_faults(&self, alloc: Global) -> Result<bool, Fail> {
        for failing in 0..self.calls(alloc)? {
            if !self.is_refused_at(alloc, failing)? {
                return Ok(false);
            }
        }
        Ok(true)
    }

    // Whether an output that fails is told, and the sync was done.
    fn outlives_the_output(&self, alloc: Global) -> Result<bool, Fail> {
        let mut world = self.world(alloc)?;
        let mut disk = disk_of(alloc, world.lap.bytes(), &[])?;
        let ended = synced(&mut world, &mut disk, &[0])?;
        let is_told = ended.is(6, &Cause::OutFault)
            && ended.said() == Some(b"task: output failed\n".as_slice());
        Ok(is_told && self.goes_on(&mut world, disk.bytes(), true)?)
    }
}

// How many of the syncs outlive each stop, up to the first that does not.
fn stopped_so_far(alloc: Global, syncs: &[Sync]) -> Result<usize, Fail> {
    for (number, sync) in syncs.iter().enumerate() {
        if !sync.outlives_stops(alloc)? {
            return Ok(number);
        }
    }
    Ok(syncs.len())
}

#[test]
fn a_sync_goes_on_after_a_stop(rt: HostRuntime) -> Result<(), Fail> {
    assert_eq!(rt; stopped_so_far(rt.alloc(), &SYNCS)?, SYNCS.len());
    assert_eq!(rt; stopped_so_far(rt.alloc(), &CUT)?, CUT.len());
    Ok(())
}

// How many of the syncs outlive each failing call of the disk and of the output, up to the first that does not.
fn failed_so_far(alloc: Global) -> Result<usize, Fail> {
    for (number, sync) in SYNCS.iter().enumerate() {
        if !sync.outlives_faults(alloc)? || !sync.outlives_the_output(alloc)? {
            return Ok(number);
        }
    }
    Ok(SYNCS.len())
}

#[test]
fn a_sync_goes_on_after_a_failing_call(rt: HostRuntime) -> Result<(), Fail> {
    assert_eq!(rt; failed_so_far(rt.alloc())?, SYNCS.len());
    Ok(())
}
