// An audit of a replica over a link to a server.
ghost use Rattle.std.specs.Prelude.{◌≡◌, ◌↔◌, ◌+◌, ◌≤◌, None, IfOk, IfErr};
ghost use Rattle.std.specs.FinMap as map;
ghost use Rattle.tw_http.specs.Link.{IsHonest};
ghost use Rattle.tw_http.specs.Messages.{IsHost};
ghost use Rattle.tw_replica.specs.Replica.{held_state};
ghost use Rattle.tw_state.specs.State.{start_of};
ghost use Rattle.tw_outcome.specs.Agreement.{Agrees};
ghost use Rattle.tw_audit.specs.Asking.{Asks};
ghost use Rattle.tw_audit.specs.Refused.{Refuses};
ghost use Rattle.tw_audit.specs.Audit.{IsAuditOf};

use crate::differences::{Difference, compare};
use crate::error::AuditError;
use crate::folding::fold_to;
use std::alloc::Global;
use tw_http::Link;
use tw_model::Tasks;
use tw_replica::Replica;
use tw_state::take_back_from;
use tw_world::Memory;
use uuid::Uuid;

/// What an audit found: the tasks at the replica's base, which is without what is pending, beside those of the server's chain up to it.
#[derive(Drop)]
pub struct Audited {
    /// How many tasks the replica has at its base.
    pub tasks: u64,
    /// How many versions lead to the base.
    pub versions: u64,
    pub base: Uuid,
    /// What differs first. There is none if all is the same.
    pub difference: Option<Difference>,
}

// The tasks at the base of a replica: what is pending is taken back from them.
fn tasks_at_base(alloc: Global, replica: &Replica) -> Result<Tasks, Memory>
    ensures { IfOk result (λ tasks. tasks ≡ start_of (held_state replica.now)) }
{
    let ops = replica.pending().ops(alloc)?;
    let mut tasks = replica.tasks().copy(alloc)?;
    take_back_from(alloc, &mut tasks, &ops, 0)?;
    Ok(tasks)
}

/// Compares a replica with the chain of its client at a server (TaskChampion book, "Synchronization Model").
///
/// It asks for each version from nil on until it comes to the replica's base: one exchange a version. The versions are not kept, so it takes
/// memory for the tasks twice and one segment. What is pending is left out, and so is what the server has after the base.
pub fn audit<L: Link>(
    alloc: Global,
    replica: &Replica,
    link: &mut L,
    client: Uuid,
    host: &str,
) -> Result<Audited, AuditError>
    requires host { IsHost host.now }
    ensures told { IfOk result (λ audit. IsHonest L.model link.old client → IsAuditOf (held_state replica.now) (L.model.chain link.new) audit) }
    ensures same { IfOk result (λ audit. IsHonest L.model link.old client
        → ((audit.difference ≡ None) ↔ Agrees (held_state replica.now) (L.model.chain link.new))) }
    ensures here { IfOk result (λ audit. (audit.tasks ≡ map.len (start_of (held_state replica.now))) × (audit.base ≡ (held_state replica.now).base)) }
    ensures few { IfOk result (λ audit. L.model.exchanges link.new ≤ L.model.exchanges link.old + audit.versions) }
    ensures asks { Asks L.model client host.now link.old link.new }
    ensures refused { IfErr result (Refuses L.model client host.now (held_state replica.now).base link.old link.new) }
{
    let folded = fold_to(alloc, link, client, host, replica.base())?;
    let here = tasks_at_base(alloc, replica)?;
    let difference = compare(alloc, &here, &folded.tasks)?;
    Ok(Audited {
        tasks: here.len(),
        versions: folded.versions,
        base: folded.at,
        difference,
    })
}
