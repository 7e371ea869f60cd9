// What runs hooks.
ghost use Rattle.std.specs.Prelude.{IfOk, IsErrOf};
ghost use Rattle.tw_world.specs.Disk.{Rose};
ghost use Rattle.tw_spawn.specs.Spawner.{SpawnerModel, SpawnerKept, HasNames, RunsNone, RunsOne};

use std::alloc::Global;

/// Why a hook was not run to its end.
#[derive(Clone, Copy, Debug, PartialEq, Eq, Drop)]
pub enum SpawnError {
    /// It could not be started, a signal ended it, or what it reads or writes failed. The count of faults went up.
    Failed,
    /// There was no memory for its output.
    Memory,
}

/// The hooks of a data folder: programs that are given a text and answer one.
pub trait Spawner {
    /// How often it has failed, the names of its hooks, and what it ran.
    ghost model: { SpawnerModel Self };

    /// The names of the hooks, in any order.
    fn names(&mut self, alloc: Global) -> Result<Vec<String>, SpawnError>
        ensures names { IfOk result (HasNames model self.old) }
        ensures runs { RunsNone model self.old self.new }
        ensures kept { SpawnerKept model self.old self.new }
        ensures failed { IsErrOf result SpawnError.Failed → Rose (model.faults self.old) (model.faults self.new) };

    /// Runs a hook on an input, puts all that it writes in the place of `output`, and answers the status with which it ends.
    ///
    /// After an error `output` holds any bytes.
    fn run(&mut self, name: &str, input: &[u8], output: &mut Vec<u8>) -> Result<u8, SpawnError>
        ensures runs { RunsOne model self.old self.new name.now input.now output.new.items result }
        ensures kept { SpawnerKept model self.old self.new }
        ensures failed { IsErrOf result SpawnError.Failed → Rose (model.faults self.old) (model.faults self.new) };
}
