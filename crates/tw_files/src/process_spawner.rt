// The hooks of a data folder, run by the system.
ghost use Rattle.std.specs.Prelude.{◌≡◌, ◌≢◌, ◌⊎◌, ◌≤◌, ◌++◌, length, map, string_bytes, None, IfOk, IfErr, IfSome, OnOk, OnErr, IsErrOf};
ghost use Rattle.std.specs.IoError.{error_kind};
ghost use Rattle.std.specs.Io.KnownBytes.{Consumes, IsAtEnd};
ghost use Rattle.tw_world.specs.Disk.{Rose};
ghost use Rattle.tw_spawn.specs.Spawner.{SpawnerKept, HasNames, RunsNone, RunsOne};
ghost use Rattle.tw_files.specs.FolderFiles.{FailsAlone};
ghost use Rattle.tw_files.specs.ProcessSpawner.{IsEndless, IsUnread, BringsNoStatus};
ghost use Rattle.tw_files.specs.ProcessSpawner.{hook_path, hooks_folder, path_in, folder_in, RanScript, ReadsOn, IsRead, AreFiles};

use crate::scripts::{OpenScript, Scripts};
use std::alloc::{AllocError, Global};
use std::io;
use std::io::ErrorKind;
use tw_spawn::{SpawnError, Spawner};
use tw_world::Memory;

// How much of an output is kept: a byte more than a hook may write.
const MOST: usize = 16_777_217;

const PIECE: usize = 65_536;

/// The hooks of a data folder: the files of its folder `hooks`, each run by `sh` in the folder that this program runs in. It tells
/// neither names nor runs. A hook that leaves another program with its output open keeps a call waiting for that one.
#[derive(Drop)]
pub struct ProcessSpawner<S: Scripts> {
    alloc: Global,
    system: S,
    folder: String,
    faults: u64,
}

fn path_of(alloc: Global, folder: &str, part: &str, name: &str) -> Result<String, AllocError>
    ensures { IfOk result (λ path. string_bytes path ≡ folder.now ++ part.now ++ name.now) }
{
    let mut path = String::from_str(alloc, folder)?;
    path.push_str(part)?;
    path.push_str(name)?;
    Ok(path)
}

// Makes `output` what a script writes, or the first bytes of it, as many as are kept.
fn read_output<P: OpenScript>(script: &mut P, output: &mut Vec<u8>) -> io::Result<()>
    ensures bytes { OnOk result (Consumes (P.remaining script.old) (P.remaining script.new) output.new.items) }
    ensures most { OnOk result (length output.new.items ≤ 16777217) }
    ensures whole { OnOk result (IsAtEnd (P.remaining script.new) ⊎ (length output.new.items ≡ 16777217)) }
    ensures failed { IfErr result (FailsAlone (P.has_failed script.new)) }
{
    output.clear();
    let mut piece = [0; PIECE];
    while output.len() < MOST {
        let room = PIECE.min(MOST - output.len());
        match script.read_some(&mut piece[..room]) {
            Ok(0) => return Ok(()),
            Ok(count) => output.extend_from_slice(&piece[..count])?,
            Err(error) => return Err(error),
        }
    }
    Ok(())
}

// Reads on to the end of what a script writes, and keeps none of it: a program whose output is full does not end by itself.
fn read_on<P: OpenScript>(script: &mut P) -> io::Result<()>
    ensures read { OnOk result (ReadsOn (P.remaining script.old) (P.remaining script.new)) }
    ensures failed { OnErr result (P.has_failed script.new ⊎ IsEndless (P.remaining script.old)) }
{
    let mut piece = [0; PIECE];
    let mut turn = 0;
    while turn < u64::MAX {
        match script.read_some(&mut piece) {
            Ok(0) => return Ok(()),
            Ok(_) => turn += 1,
            Err(error) => return Err(error),
        }
    }
    Err(io::Error::from(ErrorKind::FileTooLarge))
}

// Reads all that a script writes, and keeps as much as it may.
fn read_all<P: OpenScript>(script: &mut P, output: &mut Vec<u8>) -> io::Result<()>
    ensures read { OnOk result (IsRead P.remaining script.old script.new output.new.items) }
    ensures failed { IfErr result (FailsAlone (IsUnread P.has_failed P.remaining script.new)) }
{
    match read_output(script, output) {
        Ok(()) => read_on(script),
        Err(error) => Err(error),
    }
}

// Runs a script to its end, and gives its status, or `None` if a signal ended it. It is waited for in every case, and stopped if it can't be read.
fn run_script<S: Scripts>(
    alloc: Global,
    system: &mut S,
    path: &str,
    spare: &str,
    input: &[u8],
    output: &mut Vec<u8>,
) -> io::Result<Option<u8>>
    ensures ran { IfOk result (λ s. IfSome s (RanScript S.Script.is_run S.Script.remaining S.Script.ended path.now input.now output.new.items)) }
    ensures none { IfOk result (λ s. s ≡ None → BringsNoStatus S.Script.is_given_up S.Script.remaining) }
    ensures failed { IfErr result (FailsAlone (S.may_fail ⊎ BringsNoStatus S.Script.is_given_up S.Script.remaining)) }
{
    let mut script = match system.start(alloc, path, spare, input) {
        Ok(script) => script,
        Err(error) => return Err(error),
    };
    if let Err(error) = read_all(&mut script, output) {
        let _ = script.stop();
        let _ = script.finish();
        return Err(error);
    }
    script.finish()
}

// Runs the hook of a name.
fn run_hook<S: Scripts>(
    alloc: Global,
    system: &mut S,
    folder: &str,
    name: &str,
    input: &[u8],
    output: &mut Vec<u8>,
) -> io::Result<Option<u8>>
    ensures ran { let path = hook_path folder.now name.now in
        IfOk result (λ s. IfSome s (RanScript S.Script.is_run S.Script.remaining S.Script.ended path input.now output.new.items)) }
    ensures none { IfOk result (λ s. s ≡ None → BringsNoStatus S.Script.is_given_up S.Script.remaining) }
    ensures failed { IfErr result (FailsAlone (S.may_fail ⊎ BringsNoStatus S.Script.is_given_up S.Script.remaining)) }
{
    let path = path_of(alloc, folder, "/hooks/", name)?;
    let spare = path_of(alloc, folder, "/hooks.", "input")?;
    run_script(alloc, system, path.as_str(), spare.as_str(), input, output)
}

// The names of the files of a folder, and none if it is not there.
fn files_of<S: Scripts>(alloc: Global, system: &mut S, folder: &str) -> io::Result<Vec<String>>
    ensures files { IfOk result (λ names. AreFiles (S.lists system.new (hooks_folder folder.now)) (map string_bytes names.items)) }
    ensures failed { IfErr result (FailsAlone S.may_fail) }
{
    let path = path_of(alloc, folder, "/hooks", "")?;
    match system.files(alloc, path.as_str()) {
        Ok(Some(names)) => Ok(names),
        Ok(None) => Ok(Vec::new(alloc)),
        Err(error) => Err(error),
    }
}

impl<S: Scripts> ProcessSpawner<S> {
    /// The hooks of the data folder of this path. Nothing is looked for yet.
    pub fn new(alloc: Global, system: S, folder: &str) -> Result<ProcessSpawner<S>, Memory>
    where
        S: Drop,
        ensures { IfOk result (λ s. (s.system ≡ system) × (string_bytes s.folder ≡ folder.now) × (s.faults ≡ 0)) }
    {
        Ok(ProcessSpawner {
            alloc,
            system,
            folder: String::from_str(alloc, folder)?,
            faults: 0,
        })
    }

    // Counts a fault.
    fn fail(&mut self) -> SpawnError
        ensures failed { result ≡ SpawnError.Failed }
        ensures counted { Rose self.old.faults self.new.faults }
        ensures later { self.old.faults ≤ self.new.faults }
        ensures others { self.new ≡ record self.old { faults = self.new.faults } }
    {
        self.faults = self.faults.saturating_add(1);
        SpawnError::Failed
    }

    // Why a call refuses. If it is not for want of memory, a fault is counted.
    fn refuse(&mut self, error: io::Error) -> SpawnError
        ensures failed { result ≡ SpawnError.Failed → (error_kind error ≢ ErrorKind.OutOfMemory) × Rose self.old.faults self.new.faults }
        ensures memory { result ≡ SpawnError.Memory → self.new.faults ≡ self.old.faults }
        ensures later { self.old.faults ≤ self.new.faults }
        ensures others { self.new ≡ record self.old { faults = self.new.faults } }
    {
        if error.kind() == ErrorKind::OutOfMemory {
            return SpawnError::Memory;
        }
        self.fail()
    }
}

impl<S: Scripts> Spawner for ProcessSpawner<S> {
    ghost use Rattle.tw_files.specs.ProcessSpawner.{process_model};

    ghost model = { process_model };

    fn names(&mut self, alloc: Global) -> Result<Vec<String>, SpawnError>
        ensures names { IfOk result (HasNames process_model self.old) }
        ensures runs { RunsNone process_model self.old self.new }
        ensures kept { SpawnerKept process_model self.old self.new }
        ensures failed { IsErrOf result SpawnError.Failed → Rose (process_model.faults self.old) (process_model.faults self.new) }

        // They are the files of the folder of hooks, and no call that ends well counts a fault.
        ensures files { IfOk result (λ names. AreFiles (S.lists self.new.system (folder_in self.old)) (map string_bytes names.items)) }
        ensures well { OnOk result (self.new.faults ≡ self.old.faults) }
        ensures only { IsErrOf result SpawnError.Failed → S.may_fail }
    {
        match files_of(alloc, &mut self.system, self.folder.as_str()) {
            Ok(names) => Ok(names),
            Err(error) => Err(self.refuse(error)),
        }
    }

    fn run(&mut self, name: &str, input: &[u8], output: &mut Vec<u8>) -> Result<u8, SpawnError>
        ensures runs { RunsOne process_model self.old self.new name.now input.now output.new.items result }
        ensures kept { SpawnerKept process_model self.old self.new }
        ensures failed { IsErrOf result SpawnError.Failed → Rose (process_model.faults self.old) (process_model.faults self.new) }

        // The script of that name was run to its end, and no call that ends well counts a fault.
        ensures script { IfOk result (RanScript S.Script.is_run S.Script.remaining S.Script.ended (path_in self.old name.now) input.now output.new.items) }
        ensures well { OnOk result (self.new.faults ≡ self.old.faults) }

        // One that brings no status was not started, or was given up: it is stopped if a call has failed.
        ensures only { IsErrOf result SpawnError.Failed → S.may_fail ⊎ BringsNoStatus S.Script.is_given_up S.Script.remaining }
    {
        match run_hook(
            self.alloc,
            &mut self.system,
            self.folder.as_str(),
            name,
            input,
            output,
        ) {
            Ok(Some(status)) => Ok(status),
            Ok(None) => Err(self.fail()),
            Err(error) => Err(self.refuse(error)),
        }
    }
}
