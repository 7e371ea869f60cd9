// A folder.
ghost use Rattle.std.specs.Prelude.{◌≡◌, ◌≤◌, List, ℕ, map, true, IfOk, IfErr, OnOk, OnErr, IsErrOf};
ghost use Rattle.std.specs.String.{string_bytes};
ghost use Rattle.std.specs.FinMap.{keys};
ghost use Rattle.tw_world.specs.Disk.{Rose};
ghost use Rattle.tw_world.specs.Crash.{Tells, IsStable, Steps, Reads};
ghost use Rattle.tw_world.specs.Folder.{FolderModel, Files, Replaced, HasFile, HasPut, HasPutOrNot, is_file_name};

use std::alloc::Global;

/// Why a folder refuses.
#[derive(Clone, Copy, Debug, PartialEq, Eq, Drop)]
pub enum FolderError {
    /// It failed, and its count of faults went up.
    Failed,
    /// There was no memory. A replacement never answers it.
    Memory,
}

/// Files by their names, which outlive the program.
///
/// A file is replaced whole: a crash leaves the old bytes or the new ones, and after `Ok` the new ones.
/// A folder that fails in a replacement may hold either.
pub trait Folder {
    /// What it holds, what a crash may leave, and how often it has failed.
    ghost model: { FolderModel Self };

    /// The names of its files, in byte order.
    fn names(&mut self, alloc: Global) -> Result<Vec<String>, FolderError>
        ensures names { IfOk result (λ names. Tells model self.old → map string_bytes names.items ≡ keys (model.seen self.old)) }
        ensures reads { Reads model self.old self.new }
        ensures failed { IsErrOf result FolderError.Failed → Rose (model.faults self.old) (model.faults self.new) };

    /// The bytes of a file, or `None` if there is none of that name.
    fn read(&mut self, alloc: Global, name: &str) -> Result<Option<Vec<u8>>, FolderError>
        requires { is_file_name name.now ≡ true }
        ensures bytes { IfOk result (HasFile model self.old name.now) }
        ensures reads { Reads model self.old self.new }
        ensures failed { IsErrOf result FolderError.Failed → Rose (model.faults self.old) (model.faults self.new) };

    /// Gives a file these bytes, whether it was there or not.
    fn replace(&mut self, name: &str, bytes: &[u8]) -> Result<(), FolderError>
        requires { is_file_name name.now ≡ true }
        ensures replaced { OnOk result (HasPut model self.old self.new name.now bytes.now) }
        ensures settled { OnOk result (Tells model self.old → IsStable model self.new) }
        ensures all_or_nothing { HasPutOrNot model self.old self.new name.now bytes.now }
        ensures steps { Steps model (Replaced name.now bytes.now) self.old self.new }
        ensures failed { IfErr result (λ e. (e ≡ FolderError.Failed) × Rose (model.faults self.old) (model.faults self.new)) };

    /// What is read is one of the things that a crash may leave.
    ghost seen_may_stay: { (folder : Self) → Tells model folder → model.leaves folder (model.seen folder) };

    /// This moment is one of those since an earlier one.
    ghost counts_now: { (folder : Self) (t : ℕ) (c : Files) → t ≤ model.moment folder → model.leaves folder c → model.left_since folder t c };

    /// Since this moment there is no other.
    ghost only_now: { (folder : Self) (c : Files) → model.left_since folder (model.moment folder) c → model.leaves folder c };
}
