// A copy in memory, opened.
ghost use Rattle.std.specs.Prelude.{◌≡◌, ◌<◌, [], length, IfOk, IfErr, IfSome};
ghost use Rattle.tw_world.specs.Memory.{IsNew};
ghost use Rattle.tw_replica.specs.Replica.{OpensTo, held_state};
ghost use Rattle.tw_check.specs.Cause.{IsCause};
ghost use Rattle.tw_check.specs.Kinds.{HasCount, IsDamage};
ghost use Rattle.tw_check.specs.declared.kind.Kind.TheVariants.{Tasks, Hours, History};

use crate::error::CheckError;
use crate::kind::{Kind, magic_of};
use std::alloc::Global;
use tw_journal::{Journal, OpenError as JournalOpenError};
use tw_replica::{OpenError, Replica};
use tw_server::{Server, ServerOpenError};
use tw_world::{Memory, MemoryDisk};

// A disk takes fewer bytes.
const DISK_LIMIT: usize = 1 << 56;

// A disk that holds these bytes.
fn disk_of(alloc: Global, file: &[u8]) -> Result<MemoryDisk, Memory>
    ensures { IfOk result (IsNew file.now []) }
{
    if file.len() >= DISK_LIMIT {
        return Err(Memory);
    }
    MemoryDisk::new(alloc, file.to_vec(alloc)?, Vec::new(alloc))
}

/// The replica that a copy of these bytes opens to.
pub(crate) fn replica_of(alloc: Global, file: &[u8]) -> Result<Replica, CheckError>
    ensures opens { IfOk result (λ replica. OpensTo file.now (held_state replica)) }
    ensures refused { IfErr result (IsCause file.now) }
{
    let Ok(mut disk) = disk_of(alloc, file) else {
        return Err(CheckError::Memory);
    };
    match Replica::open(alloc, &mut disk) {
        Ok(replica) => Ok(replica),
        Err(OpenError::Damaged { offset }) => Err(CheckError::Damaged { offset }),
        Err(OpenError::TooLong { bytes }) => Err(CheckError::TooLong { bytes }),
        Err(_) => Err(CheckError::Memory),
    }
}

/// The offset of the damage of a journal, if its bytes do not open. It takes at least twice the bytes in memory.
pub fn damage(alloc: Global, kind: Kind, file: &[u8]) -> Result<Option<usize>, Memory>
    ensures damage { IfOk result (IsDamage kind file.now) }
    ensures inside { IfOk result (λ found. IfSome found (λ offset. offset < length file.now)) }
{
    match kind {
        Kind::Tasks => tasks_damage(alloc, file),
        Kind::Hours => hours_damage(alloc, file),
        Kind::History => history_damage(alloc, file),
    }
}

fn tasks_damage(alloc: Global, file: &[u8]) -> Result<Option<usize>, Memory>
    ensures damage { IfOk result (IsDamage Tasks file.now) }
    ensures inside { IfOk result (λ found. IfSome found (λ offset. offset < length file.now)) }
{
    let Err(error) = replica_of(alloc, file) else {
        return Ok(None);
    };
    match error {
        CheckError::Damaged { offset } => Ok(Some(offset as usize)),
        CheckError::TooLong { bytes: _ } => Ok(None),
        CheckError::Memory => Err(Memory),
    }
}

fn hours_damage(alloc: Global, file: &[u8]) -> Result<Option<usize>, Memory>
    ensures damage { IfOk result (IsDamage Hours file.now) }
    ensures inside { IfOk result (λ found. IfSome found (λ offset. offset < length file.now)) }
{
    let mut disk = disk_of(alloc, file)?;
    match Journal::open(alloc, &mut disk, b"TIMEWJ01") {
        Ok(_) => Ok(None),
        Err(JournalOpenError::Damaged { offset }) => Ok(Some(offset as usize)),
        Err(_) => Err(Memory),
    }
}

fn history_damage(alloc: Global, file: &[u8]) -> Result<Option<usize>, Memory>
    ensures damage { IfOk result (IsDamage History file.now) }
    ensures inside { IfOk result (λ found. IfSome found (λ offset. offset < length file.now)) }
{
    let mut disk = disk_of(alloc, file)?;
    match Server::open(alloc, &mut disk) {
        Ok(_) => Ok(None),
        Err(ServerOpenError::Damaged { offset }) => Ok(Some(offset as usize)),
        Err(_) => Err(Memory),
    }
}

/// How many records bytes that open have.
pub fn record_count(alloc: Global, kind: Kind, file: &[u8]) -> Result<u64, Memory>
    ensures { IfOk result (HasCount kind file.now) }
{
    let mut disk = disk_of(alloc, file)?;
    match Journal::open(alloc, &mut disk, &magic_of(kind)) {
        Ok(journal) => Ok(journal.count()),
        Err(_) => Err(Memory),
    }
}
