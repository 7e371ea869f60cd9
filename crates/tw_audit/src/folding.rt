// The tasks that a server's chain makes, version by version.
ghost use Rattle.std.specs.Prelude.{◌≡◌, OnOk, IfOk, IfErr};
ghost use Rattle.tw_http.specs.Messages.{IsHost};
ghost use Rattle.tw_audit.specs.Asking.{Asks};
ghost use Rattle.tw_audit.specs.Refused.{Refuses};
ghost use Rattle.tw_audit.specs.Folding.{TakesVersion, IsNotTaken, FoldsOn, StopsFolding, IsFoldedTo};

use crate::error::AuditError;
use std::alloc::Global;
use tw_http::Link;
use tw_model::Tasks;
use tw_segment::{SegmentError, read_segment};
use tw_state::apply_sync_ops;
use tw_sync::{ChildAnswer, ask_child};
use uuid::Uuid;

/// A chain folded to a version: the tasks that its operations make of none.
pub(crate) struct Folded {
    /// The version, which is nil before the first one.
    pub at: Uuid,
    /// How many versions there are up to it.
    pub versions: u64,
    pub tasks: Tasks,
}

// It is written out, so that a caller does not prove again how each part is dropped.
impl Drop for Folded {
    fn drop(self) {
        let Folded {
            at: _at,
            versions: _versions,
            tasks: _tasks,
        } = self;
    }
}

impl Folded {
    // Goes on to the child of the version. After want of memory it must not be used.
    fn take(&mut self, alloc: Global, id: Uuid, segment: &[u8]) -> Result<(), AuditError>
        ensures taken { OnOk result (TakesVersion self.old self.new id segment.now) }
        ensures refused { IfErr result (IsNotTaken id segment.now) }
    {
        let Some(versions) = self.versions.checked_add(1) else {
            return Err(AuditError::Memory);
        };
        let ops = match read_segment(alloc, segment) {
            Ok(ops) => ops,
            Err(SegmentError::Memory) => return Err(AuditError::Memory),
            Err(_) => return Err(AuditError::Segment { version: id }),
        };
        apply_sync_ops(alloc, &mut self.tasks, &ops)?;
        self.at = id;
        self.versions = versions;
        Ok(())
    }
}

// Goes on to the version after it, on the way to a version that is not reached.
fn go_on<L: Link>(
    alloc: Global,
    link: &mut L,
    client: Uuid,
    host: &str,
    base: Uuid,
    folded: &mut Folded,
) -> Result<(), AuditError>
    requires host { IsHost host.now }
    requires before { ¬ (folded.old.at ≡ base) }
    ensures asks { Asks L.model client host.now link.old link.new }
    ensures goes_on { OnOk result (FoldsOn L.model client host.now base link.old folded.old link.new folded.new) }
    ensures stopped { IfErr result (StopsFolding L.model client host.now base link.old folded.old link.new) }
{
    match ask_child(alloc, link, client, host, folded.at)? {
        ChildAnswer::Found { id, segment } => folded.take(alloc, id, segment.as_slice()),
        ChildAnswer::UpToDate => Err(AuditError::Gone { version: base }),
        ChildAnswer::Gone => Err(AuditError::Gone { version: folded.at }),
    }
}

/// Folds the chain of a client to a version, from nil on.
pub(crate) fn fold_to<L: Link>(
    alloc: Global,
    link: &mut L,
    client: Uuid,
    host: &str,
    base: Uuid,
) -> Result<Folded, AuditError>
    requires host { IsHost host.now }
    ensures asks { Asks L.model client host.now link.old link.new }
    ensures folded { IfOk result (IsFoldedTo L.model client host.now base link.old link.new) }
    ensures stopped { IfErr result (Refuses L.model client host.now base link.old link.new) }
{
    let mut folded = Folded {
        at: Uuid::nil(),
        versions: 0,
        tasks: Tasks::new(alloc),
    };
    while folded.at != base {
        go_on(alloc, link, client, host, base, &mut folded)?;
    }
    Ok(folded)
}
