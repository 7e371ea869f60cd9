// What no clause says: that an audit comes to its end, and what it names first.
ghost use Rattle.std.specs.Prelude.{◌≡◌, true, IfOk};
ghost use Rattle.tw_bodies.specs.Body.{is_group};

use std::alloc::Global;
use std::test::Fail;
use tw_audit::{AuditError, Audited, What, audit};
use tw_http::Link;
use tw_model::Op;
use tw_replica::Replica;
use tw_server::MemoryLink;
use tw_sync::sync;
use tw_world::{IdWords, Memory, MemoryDisk, Moment, Text};
use uuid::Uuid;

const HOST: &str = "localhost:8080";

fn client() -> Uuid {
    Uuid::from_bytes([9; 16])
}

// A command that makes a task with a colour.
fn coloured(alloc: Global, uuid: Uuid, colour: &str) -> Result<Vec<Op>, Memory>
    ensures { IfOk result (λ ops. is_group ops.items ≡ true) }
{
    let property = Text::from_str(alloc, "colour")?;
    let after = Some(Text::from_str(alloc, colour)?);
    let mut ops = Vec::new(alloc);
    ops.push(Op::UndoPoint)?;
    ops.push(Op::Create { uuid })?;
    ops.push(Op::Update {
        uuid,
        property,
        before: None,
        after,
        at: Moment {
            seconds: 1_700_000_000,
            nanos: 0,
        },
    })?;
    Ok(ops)
}

// A machine that makes a task, and syncs it with a server of its own.
fn machine(alloc: Global, colour: &str, link: &mut MemoryLink) -> Result<Replica, Fail> {
    let mut disk = MemoryDisk::new(alloc, Vec::new(alloc), Vec::new(alloc))?;
    let Ok(mut replica) = Replica::open(alloc, &mut disk) else {
        return Err(Fail::from("no replica"));
    };
    let ops = coloured(alloc, Uuid::from_bytes([7; 16]), colour)?;
    let committed = replica.commit(alloc, &mut disk, ops, false);
    let synced = sync(alloc, &mut replica, &mut disk, link, client(), HOST);
    if committed.is_err() || synced.is_err() {
        return Err(Fail::from("not synced"));
    }
    Ok(replica)
}

fn server(alloc: Global, first: u128) -> Result<MemoryLink, Fail> {
    let script = Vec::new(alloc);
    if !MemoryLink::takes(&script) {
        return Err(Fail::from("not taken"));
    }
    let ids = IdWords {
        start: first,
        step: 1,
    };
    Ok(MemoryLink::new(alloc, client(), ids, script)?)
}

fn is_same(ended: &Result<Audited, AuditError>) -> bool {
    match ended {
        Ok(found) => found.difference.is_none() && found.tasks == 1 && found.versions == 1,
        Err(_) => false,
    }
}

// Whether the one difference is this colour there.
fn is_told(ended: &Result<Audited, AuditError>, here: &str, there: &str) -> bool {
    let Ok(found) = ended else {
        return false;
    };
    let Some(difference) = &found.difference else {
        return false;
    };
    difference.tasks == 1
        && difference.uuid == Uuid::from_bytes([7; 16])
        && is_colour(&difference.what, here, there)
}

fn is_colour(what: &What, left: &str, right: &str) -> bool {
    match what {
        What::Value {
            property,
            here: Some(here),
            there: Some(there),
        } => property.as_str() == "colour" && here.as_str() == left && there.as_str() == right,
        _ => false,
    }
}

// Whether a machine is the same as its own server, and a machine with another colour of the task is told beside it.
fn names_the_colour(alloc: Global) -> Result<bool, Fail> {
    let mut link = server(alloc, 1)?;
    let mut other = server(alloc, 1)?;
    let red = machine(alloc, "red", &mut link)?;
    let green = machine(alloc, "green", &mut other)?;
    let same = audit(alloc, &red, &mut link, client(), HOST);
    let differs = audit(alloc, &green, &mut link, client(), HOST);
    Ok(is_same(&same) && is_told(&differs, "green", "red"))
}

#[test]
fn an_audit_names_what_differs(rt: HostRuntime) -> Result<(), Fail> {
    assert!(rt; names_the_colour(rt.alloc())?);
    Ok(())
}

fn is_gone(ended: &Result<Audited, AuditError>, base: Uuid) -> bool {
    match ended {
        Err(error) => *error == AuditError::Gone { version: base },
        Ok(_) => false,
    }
}

// Whether a base that the server's chain does not hold is refused, and nothing is sent after that.
fn refuses_an_unknown_base(alloc: Global) -> Result<bool, Fail> {
    let mut link = server(alloc, 1)?;
    let mut other = server(alloc, 5)?;
    let red = machine(alloc, "red", &mut link)?;
    let ended = audit(alloc, &red, &mut other, client(), HOST);
    let base = red.base();
    Ok(is_gone(&ended, base) && other.exchanges() == 1)
}

#[test]
fn a_base_that_the_server_does_not_know_is_refused(rt: HostRuntime) -> Result<(), Fail> {
    assert!(rt; refuses_an_unknown_base(rt.alloc())?);
    Ok(())
}
