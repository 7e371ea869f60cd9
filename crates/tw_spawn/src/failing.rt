// A spawner whose every call fails.
ghost use Rattle.std.specs.Prelude.{◌≡◌, ◌≤◌, Err, IfOk, IsErrOf};
ghost use Rattle.tw_world.specs.Disk.{Rose};
ghost use Rattle.tw_spawn.specs.Spawner.{SpawnerKept, HasNames, RunsNone, RunsOne};

use crate::{SpawnError, Spawner};
use std::alloc::Global;

/// A spawner whose every call fails. It is for a command that runs no hooks.
#[derive(Drop)]
pub struct FailingSpawner {
    faults: u64,
}

impl FailingSpawner {
    ghost use Rattle.tw_spawn.specs.Failing.{failing_spawner_model};

    /// A spawner that was not asked yet.
    pub fn new() -> FailingSpawner
        ensures { failing_spawner_model.faults result ≡ 0 }
    {
        FailingSpawner { faults: 0 }
    }

    fn fail(&mut self) -> SpawnError
        ensures failed { result ≡ SpawnError.Failed }
        ensures counted { Rose self.old.faults self.new.faults }
        ensures later { self.old.faults ≤ self.new.faults }
    {
        self.faults = self.faults.saturating_add(1);
        SpawnError::Failed
    }
}

impl Spawner for FailingSpawner {
    ghost use Rattle.tw_spawn.specs.Failing.{failing_spawner_model};

    ghost model = { failing_spawner_model };

    fn names(&mut self, _alloc: Global) -> Result<Vec<String>, SpawnError>
        ensures names { IfOk result (HasNames failing_spawner_model self.old) }
        ensures runs { RunsNone failing_spawner_model self.old self.new }
        ensures kept { SpawnerKept failing_spawner_model self.old self.new }
        ensures failed { IsErrOf result SpawnError.Failed → Rose (failing_spawner_model.faults self.old) (failing_spawner_model.faults self.new) }
        ensures always { result ≡ Err SpawnError.Failed }
    {
        Err(self.fail())
    }

    fn run(&mut self, _name: &str, _input: &[u8], _output: &mut Vec<u8>) -> Result<u8, SpawnError>
        ensures runs { RunsOne failing_spawner_model self.old self.new _name.now _input.now _output.new.items result }
        ensures kept { SpawnerKept failing_spawner_model self.old self.new }
        ensures failed { IsErrOf result SpawnError.Failed → Rose (failing_spawner_model.faults self.old) (failing_spawner_model.faults self.new) }
        ensures always { result ≡ Err SpawnError.Failed }
    {
        // No program was started.
        Err(self.fail())
    }
}
