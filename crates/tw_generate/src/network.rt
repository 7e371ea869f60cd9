// Two replicas and a link to their server.

use crate::link::LoneLink;
use crate::machine::{CLIENT, Machine};
use crate::tasks::TWO_TO_64;
use std::alloc::Global;
use tw_model::Change;
use tw_sync::SyncReport;
use tw_world::{IdWords, Memory, Moment};
use uuid::Uuid;

/// Two replicas and a link to their server, all of them in memory. If memory ran out a part of a step may be done, and it is to be
/// dropped.
pub(crate) struct Network {
    pub(crate) first: Machine,
    pub(crate) second: Machine,
    pub(crate) link: LoneLink,
}

// It is written out, so that a caller does not prove again how each part is dropped.
impl Drop for Network {
    fn drop(self) {
        let Network {
            first: _,
            second: _,
            link: _,
        } = self;
    }
}

impl Network {
    ghost use Rattle.std.specs.Prelude.{◌≡◌, IfOk, OnOk};
    ghost use Rattle.tw_generate.specs.Generated.{empty_world, FirstChanges, SecondChanges, FirstSyncs, SecondSyncs};
    ghost use Rattle.tw_generate.specs.Machines.{IsConnected, DrawsAfter, world_of};

    /// Empty replicas and a server without versions. The server draws its identifiers after those of so many tasks.
    pub(crate) fn new(alloc: Global, seed: u64, count: u64) -> Result<Network, Memory>
        ensures empty { IfOk result (λ network. world_of network ≡ empty_world) }
        ensures connected { IfOk result IsConnected }
        ensures server { IfOk result (λ network. DrawsAfter seed count network.link) }
    {
        let ids = IdWords {
            start: seed as u128 * TWO_TO_64 + count as u128,
            step: 1,
        };
        let client = Uuid::from_bytes(CLIENT);
        Ok(Network {
            first: Machine::new(alloc)?,
            second: Machine::new(alloc)?,
            link: LoneLink::new(alloc, client, ids)?,
        })
    }

    /// The first replica makes changes by one command.
    pub(crate) fn with_first_changes(
        self,
        alloc: Global,
        changes: Vec<Change>,
        at: Moment,
    ) -> Result<Network, Memory>
        requires { IsConnected self }
        ensures changed { IfOk result (λ network. FirstChanges changes.items at (world_of self) (world_of network)) }
        ensures connected { IfOk result IsConnected }
    {
        let Network {
            first,
            second,
            link,
        } = self;
        Ok(Network {
            first: first.with_changes(alloc, changes, at)?,
            second,
            link,
        })
    }

    /// The second replica makes changes by one command.
    pub(crate) fn with_second_changes(
        self,
        alloc: Global,
        changes: Vec<Change>,
        at: Moment,
    ) -> Result<Network, Memory>
        requires { IsConnected self }
        ensures changed { IfOk result (λ network. SecondChanges changes.items at (world_of self) (world_of network)) }
        ensures connected { IfOk result IsConnected }
    {
        let Network {
            first,
            second,
            link,
        } = self;
        Ok(Network {
            first,
            second: second.with_changes(alloc, changes, at)?,
            link,
        })
    }

    /// The first replica syncs.
    pub(crate) fn sync_first(&mut self, alloc: Global) -> Result<SyncReport, Memory>
        requires { IsConnected self.old }
        ensures synced { IfOk result (λ report. FirstSyncs report (world_of self.old) (world_of self.new)) }
        ensures connected { OnOk result (IsConnected self.new) }
    {
        self.first.sync(alloc, &mut self.link)
    }

    /// The second replica syncs.
    pub(crate) fn sync_second(&mut self, alloc: Global) -> Result<SyncReport, Memory>
        requires { IsConnected self.old }
        ensures synced { IfOk result (λ report. SecondSyncs report (world_of self.old) (world_of self.new)) }
        ensures connected { OnOk result (IsConnected self.new) }
    {
        self.second.sync(alloc, &mut self.link)
    }
}
