// A large world, from its number of tasks and a seed.
ghost use Rattle.std.specs.Prelude.{◌≡◌, ◌≤◌, IfOk};
ghost use Rattle.tw_urgency.specs.Urgency.{AreWeights};
ghost use Rattle.tw_generate.specs.Generated.{IsGenerated, exports_equal};
ghost use Rattle.tw_generate.specs.Machines.{world_of};

use crate::changes::{made, moved};
use crate::moments::{EXPORTED_AT, at_second};
use crate::network::Network;
use crate::summary::summary;
use std::alloc::Global;
use tw_urgency::Coefficients;
use tw_world::Memory;

// Whether both replicas export the same.
fn export_the_same(alloc: Global, network: &Network, weights: &Coefficients) -> Result<bool, Memory>
    requires { AreWeights weights.now }
    ensures { IfOk result (λ equal. equal ≡ exports_equal (world_of network.now) weights.now) }
{
    let first = network.first.export(alloc, EXPORTED_AT, weights)?;
    let second = network.second.export(alloc, EXPORTED_AT, weights)?;
    Ok(first.as_slice() == second.as_slice())
}

/// Runs two replicas and their server in memory, and gives what is printed of them. The first replica makes so many tasks, and both
/// sync; each moves some of the tasks to a project of its own, and they sync again. Without room in the objects in memory it answers
/// `Memory`.
pub fn generate(
    alloc: Global,
    count: u64,
    seed: u64,
    weights: &Coefficients,
) -> Result<Vec<u8>, Memory>
    requires few { count ≤ 10000 }
    requires weights { AreWeights weights.now }
    ensures { IfOk result (λ text. IsGenerated count seed weights.now text.items) }
{
    let made_at = at_second(1_700_000_000);
    let first_at = at_second(1_700_100_000);
    let second_at = at_second(1_700_200_000);
    let empty = Network::new(alloc, seed, count)?;
    let tasks = made(alloc, seed, count)?;
    let mut filled = empty.with_first_changes(alloc, tasks, made_at)?;
    let bytes = filled.first.segment_bytes(alloc)?;
    let _ = filled.sync_first(alloc)?;
    let _ = filled.sync_second(alloc)?;
    let fifths = moved(alloc, seed, 5, "a", count)?;
    let first_moved = filled.with_first_changes(alloc, fifths, first_at)?;
    let thirds = moved(alloc, seed, 3, "b", count)?;
    let mut both_moved = first_moved.with_second_changes(alloc, thirds, second_at)?;
    let _ = both_moved.sync_second(alloc)?;
    let report = both_moved.sync_first(alloc)?;
    let _ = both_moved.sync_second(alloc)?;
    let equal = export_the_same(alloc, &both_moved, weights)?;
    summary(alloc, count, bytes, report, equal)
}
