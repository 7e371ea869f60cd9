// A folder whose every call fails.
ghost use Rattle.std.specs.Prelude.{◌≡◌, ◌≤◌, List, ℕ, map, Err, IfOk, IfErr, OnOk, IsErrOf};
ghost use Rattle.std.specs.String.{string_bytes};
ghost use Rattle.std.specs.FinMap.{keys};
ghost use Rattle.tw_world.specs.Disk.{Rose};
ghost use Rattle.tw_world.specs.Crash.{Tells, IsStable, Steps, Reads};
ghost use Rattle.tw_world.specs.Folder.{Replaced, HasFile, HasPut, HasPutOrNot};

use std::alloc::Global;
use tw_world::{Folder, FolderError};

/// A folder whose every call fails. It is used for one that can't be opened.
#[derive(Drop)]
pub struct FailingFolder {
    faults: u64,
}

impl FailingFolder {
    ghost use Rattle.tw_files.specs.FileFolder.{failing_folder_model};

    /// A folder that was not asked yet.
    pub fn new() -> FailingFolder
        ensures { failing_folder_model.faults result ≡ 0 }
    {
        FailingFolder { faults: 0 }
    }

    fn fail(&mut self) -> FolderError
        ensures failed { result ≡ FolderError.Failed }
        ensures counted { Rose self.old.faults self.new.faults }
        ensures later { self.old.faults ≤ self.new.faults }
    {
        self.faults = self.faults.saturating_add(1);
        FolderError::Failed
    }
}

impl Folder for FailingFolder {
    ghost use Rattle.tw_files.specs.FileFolder.{failing_folder_model};
    ghost use Rattle.tw_files.specs.FileDisk.{none_told};

    ghost model = { failing_folder_model };

    ghost seen_may_stay = { λ folder tells. none_told tells };

    ghost counts_now = { λ folder t c le left. left };

    ghost only_now = { λ folder c left. left };

    fn names(&mut self, _alloc: Global) -> Result<Vec<String>, FolderError>
        ensures names { IfOk result (λ names. Tells failing_folder_model self.old → map string_bytes names.items ≡ keys (failing_folder_model.seen self.old)) }
        ensures reads { Reads failing_folder_model self.old self.new }
        ensures failed { IsErrOf result FolderError.Failed → Rose (failing_folder_model.faults self.old) (failing_folder_model.faults self.new) }
        ensures always { result ≡ Err FolderError.Failed }
    {
        Err(self.fail())
    }

    fn read(&mut self, _alloc: Global, _name: &str) -> Result<Option<Vec<u8>>, FolderError>
        ensures bytes { IfOk result (HasFile failing_folder_model self.old _name.now) }
        ensures reads { Reads failing_folder_model self.old self.new }
        ensures failed { IsErrOf result FolderError.Failed → Rose (failing_folder_model.faults self.old) (failing_folder_model.faults self.new) }
        ensures always { result ≡ Err FolderError.Failed }
    {
        // Whether there is such a file is not known.
        Err(self.fail())
    }

    fn replace(&mut self, _name: &str, _bytes: &[u8]) -> Result<(), FolderError>
        ensures replaced { OnOk result (HasPut failing_folder_model self.old self.new _name.now _bytes.now) }
        ensures settled { OnOk result (Tells failing_folder_model self.old → IsStable failing_folder_model self.new) }
        ensures all_or_nothing { HasPutOrNot failing_folder_model self.old self.new _name.now _bytes.now }
        ensures steps { Steps failing_folder_model (Replaced _name.now _bytes.now) self.old self.new }
        ensures failed { IfErr result (λ e. (e ≡ FolderError.Failed) × Rose (failing_folder_model.faults self.old) (failing_folder_model.faults self.new)) }
        ensures always { result ≡ Err FolderError.Failed }
    {
        Err(self.fail())
    }
}
