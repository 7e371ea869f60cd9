// Syncs from a snapshot, and syncs that send one.
ghost use Rattle.std.specs.Prelude.{◌≡◌, true, IfOk};
ghost use Rattle.tw_bodies.specs.Body.{is_group};

use super::HOST;
use super::script::{client, from_step, is_coloured, reports, version};
use std::alloc::Global;
use std::test::Fail;
use tw_model::{Op, Tasks};
use tw_replica::Replica;
use tw_server::MemoryLink;
use tw_sync::{SyncError, sync};
use tw_world::{IdWords, Memory, MemoryDisk};
use uuid::Uuid;

// Whether a new replica that is stopped behind a snapshot keeps what it pulled, and one that is not is done in two exchanges.
fn starts_from_a_snapshot(alloc: Global) -> Result<bool, Fail> {
    let mut disk = MemoryDisk::new(alloc, Vec::new(alloc), Vec::new(alloc))?;
    let Ok(mut replica) = Replica::open(alloc, &mut disk) else {
        return Err(Fail::from("no replica"));
    };
    let mut link = from_step(17);
    let stopped = sync(alloc, &mut replica, &mut disk, &mut link, client(), HOST);
    let kept = replica.base() == version(2) && is_coloured(&replica, "green");
    let ended = sync(alloc, &mut replica, &mut disk, &mut link, client(), HOST);
    Ok(
        kept && stopped == Err(SyncError::Link)
            && reports(ended, 0, version(2))
            && is_done_in_two(alloc)?,
    )
}

fn is_done_in_two(alloc: Global) -> Result<bool, Fail> {
    let mut disk = MemoryDisk::new(alloc, Vec::new(alloc), Vec::new(alloc))?;
    let Ok(mut replica) = Replica::open(alloc, &mut disk) else {
        return Err(Fail::from("no replica"));
    };
    let mut link = from_step(21);
    let ended = sync(alloc, &mut replica, &mut disk, &mut link, client(), HOST);
    Ok(reports(ended, 0, version(1)) && is_coloured(&replica, "red") && link.exchanges == 2)
}

#[test]
fn a_new_replica_starts_from_a_snapshot(rt: HostRuntime) -> Result<(), Fail> {
    assert!(rt; starts_from_a_snapshot(rt.alloc())?);
    Ok(())
}

// A command that makes a task.
fn create(alloc: Global, uuid: Uuid) -> Result<Vec<Op>, Memory>
    ensures { IfOk result (λ ops. is_group ops.items ≡ true) }
{
    let mut ops = Vec::new(alloc);
    ops.push(Op::UndoPoint)?;
    ops.push(Op::Create { uuid })?;
    Ok(ops)
}

// Whether a sync that is asked for a snapshot sends it last, and is done although that fails.
fn sends_what_is_wanted(alloc: Global) -> Result<bool, Fail> {
    let mut disk = MemoryDisk::new(alloc, Vec::new(alloc), Vec::new(alloc))?;
    let Ok(mut replica) = Replica::open(alloc, &mut disk) else {
        return Err(Fail::from("no replica"));
    };
    let ops = create(alloc, version(7))?;
    let committed = replica.commit(alloc, &mut disk, ops, false);
    let mut link = from_step(23);
    let ended = sync(alloc, &mut replica, &mut disk, &mut link, client(), HOST);
    Ok(
        committed.is_ok()
            && reports(ended, 1, version(1))
            && replica.base() == version(1)
            && link.exchanges == 3
            && link.at == 26,
    )
}

#[test]
fn a_wanted_snapshot_is_sent_last(rt: HostRuntime) -> Result<(), Fail> {
    assert!(rt; sends_what_is_wanted(rt.alloc())?);
    Ok(())
}

// One run makes a task, and the next one syncs. Whether both are done.
fn adds_and_syncs(
    alloc: Global,
    disk: &mut MemoryDisk,
    link: &mut MemoryLink,
    number: u8,
) -> Result<bool, Fail> {
    let Ok(mut replica) = Replica::open(alloc, disk) else {
        return Err(Fail::from("no replica"));
    };
    let ops = create(alloc, version(number))?;
    let committed = replica.commit(alloc, disk, ops, false);
    let ended = sync(alloc, &mut replica, disk, link, client(), HOST);
    Ok(committed.is_ok() && ended.is_ok())
}

// How many exchanges a hundred tasks take, each with its own sync.
fn exchanges_of_a_hundred(alloc: Global, link: &mut MemoryLink) -> Result<u64, Fail> {
    let mut disk = MemoryDisk::new(alloc, Vec::new(alloc), Vec::new(alloc))?;
    for number in 1..101 {
        if !adds_and_syncs(alloc, &mut disk, link, number)? {
            return Err(Fail::from("not done"));
        }
    }
    Ok(link.exchanges())
}

fn holds_the_hundred(tasks: &Tasks) -> bool {
    for number in 1..101 {
        if tasks.get(version(number)).is_none() {
            return false;
        }
    }
    tasks.len() == 100
}

// Whether the hundredth sync sends a snapshot, and a new replica needs two exchanges then.
fn starts_where_a_hundred_led(alloc: Global) -> Result<bool, Fail> {
    let script = Vec::new(alloc);
    if !MemoryLink::takes(&script) {
        return Err(Fail::from("not taken"));
    }
    let ids = IdWords { start: 1, step: 1 };
    let mut link = MemoryLink::new(alloc, client(), ids, script)?;
    let sent = exchanges_of_a_hundred(alloc, &mut link)?;
    let mut disk = MemoryDisk::new(alloc, Vec::new(alloc), Vec::new(alloc))?;
    let Ok(mut replica) = Replica::open(alloc, &mut disk) else {
        return Err(Fail::from("no replica"));
    };
    let ended = sync(alloc, &mut replica, &mut disk, &mut link, client(), HOST);
    Ok(
        sent == 201
            && link.exchanges() == 203
            && reports(ended, 0, link.latest())
            && holds_the_hundred(replica.tasks()),
    )
}

#[test]
fn a_new_replica_starts_where_a_hundred_syncs_led(rt: HostRuntime) -> Result<(), Fail> {
    assert!(rt; starts_where_a_hundred_led(rt.alloc())?);
    Ok(())
}
