// Syncs that are stopped, and the ones after them.
ghost use Rattle.std.specs.Prelude.{◌≡◌, true, IfOk};
ghost use Rattle.tw_bodies.specs.Body.{is_group};

use super::HOST;
use super::script::{client, from_step, is_coloured, reports, version};
use std::alloc::Global;
use std::test::Fail;
use tw_model::Op;
use tw_replica::Replica;
use tw_sync::{SyncError, sync};
use tw_world::{Memory, MemoryDisk, Moment, Text};
use uuid::Uuid;

// Whether a pull that fails after the first version keeps it, and the next sync asks from there.
fn keeps_what_it_pulled(alloc: Global) -> Result<bool, Fail> {
    let mut disk = MemoryDisk::new(alloc, Vec::new(alloc), Vec::new(alloc))?;
    let Ok(mut replica) = Replica::open(alloc, &mut disk) else {
        return Err(Fail::from("no replica"));
    };
    let mut link = from_step(0);
    let stopped = sync(alloc, &mut replica, &mut disk, &mut link, client(), HOST);
    let kept = replica.base() == version(1) && is_coloured(&replica, "red");
    let ended = sync(alloc, &mut replica, &mut disk, &mut link, client(), HOST);
    Ok(kept && stopped == Err(SyncError::Link) && reports(ended, 0, version(1)) && link.at == 4)
}

// A text of 600,000 bytes.
fn long(alloc: Global, byte: u8) -> Result<Text, Memory> {
    let mut bytes = Vec::new(alloc);
    for _ in 0..600_000 {
        bytes.push(byte)?;
    }
    match std::str::from_utf8(bytes.as_slice()) {
        Ok(text) => Text::from_str(alloc, text),
        Err(_) => Err(Memory),
    }
}

// A command that gives the task two properties, each with a value of 600,000 bytes.
fn two_long(alloc: Global) -> Result<Vec<Op>, Memory>
    ensures { IfOk result (λ ops. is_group ops.items ≡ true) }
{
    let Some(at) = Moment::new(1_700_000_030, 0) else {
        return Err(Memory);
    };
    let mut ops = Vec::new(alloc);
    ops.push(Op::UndoPoint)?;
    ops.push(Op::Update {
        uuid: version(7),
        property: Text::from_str(alloc, "one")?,
        before: None,
        after: Some(long(alloc, b'1')?),
        at,
    })?;
    ops.push(Op::Update {
        uuid: version(7),
        property: Text::from_str(alloc, "two")?,
        before: None,
        after: Some(long(alloc, b'2')?),
        at,
    })?;
    Ok(ops)
}

// Whether a push whose second batch is lost keeps the first as sent, and the next sync sends the second alone.
fn keeps_what_it_sent(alloc: Global) -> Result<bool, Fail> {
    let mut disk = MemoryDisk::new(alloc, Vec::new(alloc), Vec::new(alloc))?;
    let Ok(mut replica) = Replica::open(alloc, &mut disk) else {
        return Err(Fail::from("no replica"));
    };
    let mut link = from_step(4);
    let begun = sync(alloc, &mut replica, &mut disk, &mut link, client(), HOST);
    let ops = two_long(alloc)?;
    let committed = replica.commit(alloc, &mut disk, ops, false);
    let stopped = sync(alloc, &mut replica, &mut disk, &mut link, client(), HOST);
    let kept = replica.base() == version(2) && replica.pending().len() == 2;
    let ended = sync(alloc, &mut replica, &mut disk, &mut link, client(), HOST);
    Ok(
        begun.is_ok()
            && committed.is_ok()
            && stopped == Err(SyncError::Link)
            && kept
            && reports(ended, 1, version(3))
            && link.at == 12,
    )
}

// A command that gives the task another colour.
fn blue(alloc: Global) -> Result<Vec<Op>, Memory>
    ensures { IfOk result (λ ops. is_group ops.items ≡ true) }
{
    let Some(at) = Moment::new(1_700_000_030, 0) else {
        return Err(Memory);
    };
    let mut ops = Vec::new(alloc);
    ops.push(Op::UndoPoint)?;
    ops.push(Op::Update {
        uuid: version(7),
        property: Text::from_str(alloc, "colour")?,
        before: Some(Text::from_str(alloc, "red")?),
        after: Some(Text::from_str(alloc, "blue")?),
        at,
    })?;
    Ok(ops)
}

// Whether an undo after a stopped sync restores the colour that the pull brought.
fn takes_back_to_what_it_pulled(alloc: Global) -> Result<bool, Fail> {
    let mut disk = MemoryDisk::new(alloc, Vec::new(alloc), Vec::new(alloc))?;
    let Ok(mut replica) = Replica::open(alloc, &mut disk) else {
        return Err(Fail::from("no replica"));
    };
    let mut link = from_step(12);
    let begun = sync(alloc, &mut replica, &mut disk, &mut link, client(), HOST);
    let ops = blue(alloc)?;
    let committed = replica.commit(alloc, &mut disk, ops, false);
    let stopped = sync(alloc, &mut replica, &mut disk, &mut link, client(), HOST);
    let still = is_coloured(&replica, "blue") && replica.base() == version(2);
    let undone = replica.undo(alloc, &mut disk);
    Ok(
        begun.is_ok()
            && committed.is_ok()
            && stopped == Err(SyncError::Link)
            && still
            && undone == Ok(1)
            && is_coloured(&replica, "green")
            && link.at == 17,
    )
}

#[test]
fn a_stopped_sync_keeps_what_it_read_and_sent(rt: HostRuntime) -> Result<(), Fail> {
    assert!(rt; keeps_what_it_pulled(rt.alloc())?);
    assert!(rt; keeps_what_it_sent(rt.alloc())?);
    assert!(rt; takes_back_to_what_it_pulled(rt.alloc())?);
    Ok(())
}
