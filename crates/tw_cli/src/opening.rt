// Opening the replica that a disk holds.
ghost use Rattle.std.specs.Prelude.{◌≡◌, false, IfOk, IfErr};
ghost use Rattle.tw_world.specs.Disk.{Tells, FaultsRise};
ghost use Rattle.tw_replica.specs.Replica.{IsLengthKept, OpeningRefused, is_replica_closed};
ghost use Rattle.tw_replica.specs.Opening.{IsOpenedReplica};
ghost use Rattle.tw_cli.specs.Crash.{LeavesRecords};
ghost use Rattle.tw_cli.specs.Growth.{OpeningGrows};

use std::alloc::Global;
use std::mem::forget;
use tw_replica::{OpenError, Replica};
use tw_world::Disk;

/// Opens the replica that a disk holds. The records stay, or one of the state takes their place.
pub(crate) fn open<D: Disk>(alloc: Global, disk: &mut D) -> Result<Replica, OpenError>
    ensures opened { IfOk result (λ replica. Tells D.model disk.old → IsOpenedReplica D.model disk.old disk.new replica) }
    ensures length { IfOk result (λ replica. IsLengthKept D.model replica disk.new) }
    ensures live { IfOk result (λ replica. is_replica_closed replica ≡ false) }
    ensures refused { IfErr result (OpeningRefused D.model disk.old disk.new) }
    ensures any_moment { LeavesRecords D.model disk.old disk.new }
    ensures growth { OpeningGrows D.model disk.old disk.new }
    ensures kept { FaultsRise D.model disk.old disk.new }
{
    Replica::open(alloc, disk)
}

/// Lets a replica go and keeps its memory, which goes with the program: to give it back takes time with each task.
pub(crate) fn leave(replica: Replica) {
    forget(replica);
}
