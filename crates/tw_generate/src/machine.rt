// A replica over a disk in memory.

use crate::link::LoneLink;
use std::alloc::Global;
use tw_export::export_text;
use tw_model::Change;
use tw_path::{first_batch, groups_of};
use tw_replica::Replica;
use tw_segment::write_segment;
use tw_sync::{SyncReport, sync};
use tw_urgency::Coefficients;
use tw_world::{Memory, MemoryDisk, Moment};
use uuid::Uuid;

/// The client of the server that both replicas are.
pub(crate) const CLIENT: [u8; 16] = *b"a generated task";

const HOST: &str = "localhost";

/// A replica over a disk in memory.
pub(crate) struct Machine {
    pub(crate) replica: Replica,
    pub(crate) disk: MemoryDisk,
}

// It is written out, so that a caller does not prove again how each part is dropped.
impl Drop for Machine {
    fn drop(self) {
        let Machine {
            replica: _,
            disk: _,
        } = self;
    }
}

impl Machine {
    ghost use Rattle.std.specs.Prelude.{◌≡◌, length, IfOk, OnOk};
    ghost use Rattle.tw_http.specs.Link.{IsHonest};
    ghost use Rattle.tw_groups.specs.Groups.{groups_of};
    ghost use Rattle.tw_groups.specs.Cut.{first};
    ghost use Rattle.tw_path.specs.Path.{is_batch};
    ghost use Rattle.tw_segment.specs.Segment.{segment_text};
    ghost use Rattle.tw_state.specs.State.{start};
    ghost use Rattle.tw_replica.specs.Replica.{held_state};
    ghost use Rattle.tw_sync.specs.Replies.Answers.{IsLinkKept};
    ghost use Rattle.tw_sync.specs.Sync.{server_chain};
    ghost use Rattle.tw_urgency.specs.Urgency.{AreWeights};
    ghost use Rattle.tw_generate.specs.Generated.{HasChanged, IsSynced, exported};
    ghost use Rattle.tw_generate.specs.Links.{lone_link_model};
    ghost use Rattle.tw_generate.specs.Machines.{IsOpen};

    /// An empty replica.
    pub(crate) fn new(alloc: Global) -> Result<Machine, Memory>
        ensures empty { IfOk result (λ machine. held_state machine.replica ≡ start) }
        ensures open { IfOk result IsOpen }
    {
        let mut disk = MemoryDisk::new(alloc, Vec::new(alloc), Vec::new(alloc))?;
        match Replica::open(alloc, &mut disk) {
            Ok(replica) => Ok(Machine { replica, disk }),
            Err(_) => Err(Memory),
        }
    }

    /// The replica once these changes are made by one command.
    pub(crate) fn with_changes(
        self,
        alloc: Global,
        changes: Vec<Change>,
        at: Moment,
    ) -> Result<Machine, Memory>
        requires { IsOpen self }
        ensures changed { IfOk result (λ machine. HasChanged changes.items at (held_state self.replica) (held_state machine.replica)) }
        ensures open { IfOk result IsOpen }
    {
        let Machine { replica, disk } = self;
        let mut disk = disk;
        let mut editing = replica.edit(alloc);
        editing.make(alloc, changes, at)?;
        match editing.prepare(alloc, false)?.write(&mut disk) {
            Ok(replica) => Ok(Machine { replica, disk }),
            Err(_) => Err(Memory),
        }
    }

    /// Syncs with the server at the other end of a link.
    pub(crate) fn sync(&mut self, alloc: Global, link: &mut LoneLink) -> Result<SyncReport, Memory>
        requires { IsOpen self.old }
        ensures ended { IfOk result (λ report. IsHonest lone_link_model link.old CLIENT
            → IsSynced report (held_state self.old.replica) (held_state self.new.replica) (server_chain lone_link_model link.old)
            (server_chain lone_link_model link.new)) }
        ensures open { OnOk result (IsOpen self.new) }
        ensures kept { IsLinkKept lone_link_model link.old link.new }
    {
        let client = Uuid::from_bytes(CLIENT);
        match sync(alloc, &mut self.replica, &mut self.disk, link, client, HOST) {
            Ok(report) => Ok(report),
            Err(_) => Err(Memory),
        }
    }

    /// How many bytes the segment has that is sent first of what is pending.
    pub(crate) fn segment_bytes(&self, alloc: Global) -> Result<u64, Memory>
        ensures { IfOk result (λ bytes. bytes ≡ length (segment_text (first is_batch (groups_of (held_state self.now.replica).pending)))) }
    {
        let ops = self.replica.pending().ops(alloc)?;
        let left = groups_of(alloc, ops)?;
        let batch = first_batch(alloc, &left)?;
        let sent = batch.sent(alloc, &left)?;
        match write_segment(alloc, &sent) {
            Ok(text) => Ok(text.len() as u64),
            Err(_) => Err(Memory),
        }
    }

    /// The export of all tasks.
    pub(crate) fn export(
        &self,
        alloc: Global,
        at: Moment,
        weights: &Coefficients,
    ) -> Result<Vec<u8>, Memory>
        requires { AreWeights weights.now }
        ensures { IfOk result (λ text. text.items ≡ exported (held_state self.now.replica) at.seconds weights.now) }
    {
        let tasks = self.replica.tasks();
        let rows = tasks.uuids(alloc)?;
        export_text(alloc, &rows, tasks, at, weights)
    }
}
