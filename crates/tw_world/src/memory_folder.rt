// A folder in memory. It keeps each file that was put into it, so that it tells what a crash could leave at any moment.
ghost use Rattle.std.specs.Prelude.{length, ◌≡◌, ◌≤◌, ◌∷◌, ◌++◌, [], true, map, option_map, List, ℕ, IfOk, IfErr, OnOk, OnErr, IsErrOf};
ghost use Rattle.std.specs.String.{string_bytes};
ghost use Rattle.std.specs.FinMap.{keys, empty};
ghost use Rattle.tw_world.specs.Disk.{Rose};
ghost use Rattle.tw_world.specs.Crash.{Tells, IsStable, Steps, Reads};
ghost use Rattle.tw_world.specs.Folder.{bytes_cmp, add_name, GoesTo, Replaced, HasFile, HasPut, HasPutOrNot, is_file_name};
ghost use Rattle.tw_world.specs.Calls.{next_count};
ghost use Rattle.tw_world.specs.MemoryFolder.{after, newer, last_put, IsPut};

use crate::calls::Calls;
use crate::{Folder, FolderError, Memory};
use std::alloc::Global;
use std::cmp::Ordering;

/// A folder in memory. The calls in `fails`, counted from 0 over all methods, fail. It is for tests: `names` goes through
/// all that was ever put.
pub struct MemoryFolder {
    alloc: Global,
    puts: Vec<(String, Vec<u8>)>,
    calls: Calls,
}

// It is written out, so that a caller does not prove again how each part is dropped.
impl Drop for MemoryFolder {
    fn drop(self) {
        let MemoryFolder {
            alloc: _,
            puts: _,
            calls: _,
        } = self;
    }
}

impl MemoryFolder {
    ghost use Rattle.tw_world.specs.MemoryFolder.{IsNewFolder};

    /// A folder with these files, by their names; if a name is there twice the later one counts. It needs no memory of its own.
    pub fn new(
        alloc: Global,
        content: Vec<(String, Vec<u8>)>,
        fails: Vec<u64>,
    ) -> Result<MemoryFolder, Memory>
        ensures { IfOk result (IsNewFolder content.items fails.items) }
    {
        Ok(MemoryFolder {
            alloc,
            puts: content,
            calls: Calls::new(fails),
        })
    }
}

// The bytes of a file that was put under this name, or else those that were found before.
fn newer(
    alloc: Global,
    put: &(String, Vec<u8>),
    name: &str,
    found: Option<Vec<u8>>,
) -> Result<Option<Vec<u8>>, Memory>
    ensures { IfOk result (λ file. option_map (λ bytes. bytes.items) file ≡ newer name.now put.now (option_map (λ bytes. bytes.items) found)) }
{
    if name == put.0.as_str() {
        Ok(Some(put.1.to_vec(alloc)?))
    } else {
        Ok(found)
    }
}

// The bytes that were put last under a name.
fn last_put(
    alloc: Global,
    puts: &Vec<(String, Vec<u8>)>,
    name: &str,
) -> Result<Option<Vec<u8>>, Memory>
    ensures { IfOk result (λ file. option_map (λ bytes. bytes.items) file ≡ last_put name.now puts.now.items None) }
{
    let mut found = None;
    for put in puts {
        found = newer(alloc, put, name, found)?;
    }
    Ok(found)
}

// The index of a name among names that rise: where it is, or where it would go.
fn index_of(names: &Vec<String>, name: &str) -> Result<usize, usize>
    ensures there { OnOk result (add_name name.now (map string_bytes names.now.items) ≡ map string_bytes names.now.items) }
    ensures absent { IfErr result (λ at. (at ≤ length names.now.items) × GoesTo name.now (map string_bytes names.now.items) at) }
{
    for at in 0..names.len() {
        match order_of(name, &names[at]) {
            Ordering::Less => return Err(at),
            Ordering::Equal => return Ok(at),
            Ordering::Greater => {}
        }
    }
    Err(names.len())
}

// Puts a name among names that rise, if it is not there.
fn add_name(alloc: Global, names: &mut Vec<String>, name: &str) -> Result<(), Memory>
    ensures { OnOk result (map string_bytes names.new.items ≡ add_name name.now (map string_bytes names.old.items)) }
{
    if let Err(at) = index_of(names, name) {
        let name = String::from_str(alloc, name)?;
        names.insert(at, name)?;
    }
    Ok(())
}

fn order_of(name: &str, other: &String) -> Ordering
    ensures { result ≡ bytes_cmp name.now (string_bytes other.now) }
{
    name.cmp(&other.as_str())
}

// The names of the files that were put, in byte order.
fn names_of(alloc: Global, puts: &Vec<(String, Vec<u8>)>) -> Result<Vec<String>, Memory>
    ensures { IfOk result (λ names. map string_bytes names.items ≡ keys (after empty puts.now.items)) }
{
    let mut names = Vec::new(alloc);
    for put in puts {
        add_name(alloc, &mut names, put.0.as_str())?;
    }
    Ok(names)
}

// Puts a file, or nothing if there is no room.
fn put_file(
    alloc: Global,
    puts: &mut Vec<(String, Vec<u8>)>,
    name: &str,
    bytes: &[u8],
) -> Result<(), Memory>
    ensures put { OnOk result (IsPut name.now bytes.now puts.old.items puts.new.items) }
    ensures same { OnErr result (puts.new.items ≡ puts.old.items) }
{
    let name = String::from_str(alloc, name)?;
    let bytes = bytes.to_vec(alloc)?;
    puts.push((name, bytes))?;
    Ok(())
}

impl Folder for MemoryFolder {
    ghost use Rattle.tw_world.specs.MemoryFolder.{memory_folder_model, folder_counts_now, folder_only_now};
    ghost use Rattle.tw_world.specs.MemoryFolder.{folder_due, folder_calls, folder_fails, FolderRefused};
    ghost use Rattle.std.specs.Prelude.{refl};

    ghost model = { memory_folder_model };

    ghost seen_may_stay = { λ folder tells. refl };

    ghost counts_now = { folder_counts_now };

    ghost only_now = { folder_only_now };

    fn names(&mut self, alloc: Global) -> Result<Vec<String>, FolderError>
        ensures names { IfOk result (λ names. Tells memory_folder_model self.old → map string_bytes names.items ≡ keys (memory_folder_model.seen self.old)) }
        ensures reads { Reads memory_folder_model self.old self.new }
        ensures failed { IsErrOf result FolderError.Failed → Rose (memory_folder_model.faults self.old) (memory_folder_model.faults self.new) }

        // A call that is named fails, and no other answers `Failed`.
        ensures named { folder_due self.old ≡ true → (result ≡ Err FolderError.Failed) × FolderRefused self.old self.new }
        ensures calls { folder_calls self.new ≡ next_count (folder_calls self.old) }
        ensures fails { folder_fails self.new ≡ folder_fails self.old }
        ensures well { OnOk result (memory_folder_model.faults self.new ≡ memory_folder_model.faults self.old) }
        ensures other { IsErrOf result FolderError.Failed → folder_due self.old ≡ true }
        ensures memory { IsErrOf result FolderError.Memory → memory_folder_model.faults self.new ≡ memory_folder_model.faults self.old }
    {
        if self.calls.begin() {
            return Err(FolderError::Failed);
        }
        match names_of(alloc, &self.puts) {
            Ok(names) => Ok(names),
            Err(_) => Err(FolderError::Memory),
        }
    }

    fn read(&mut self, alloc: Global, name: &str) -> Result<Option<Vec<u8>>, FolderError>
        ensures bytes { IfOk result (HasFile memory_folder_model self.old name.now) }
        ensures reads { Reads memory_folder_model self.old self.new }
        ensures failed { IsErrOf result FolderError.Failed → Rose (memory_folder_model.faults self.old) (memory_folder_model.faults self.new) }
        ensures named { folder_due self.old ≡ true → (result ≡ Err FolderError.Failed) × FolderRefused self.old self.new }
        ensures calls { folder_calls self.new ≡ next_count (folder_calls self.old) }
        ensures fails { folder_fails self.new ≡ folder_fails self.old }
        ensures well { OnOk result (memory_folder_model.faults self.new ≡ memory_folder_model.faults self.old) }
        ensures other { IsErrOf result FolderError.Failed → folder_due self.old ≡ true }
        ensures memory { IsErrOf result FolderError.Memory → memory_folder_model.faults self.new ≡ memory_folder_model.faults self.old }
    {
        if self.calls.begin() {
            return Err(FolderError::Failed);
        }
        match last_put(alloc, &self.puts, name) {
            Ok(file) => Ok(file),
            Err(_) => Err(FolderError::Memory),
        }
    }

    /// Want of memory counts as a fault.
    fn replace(&mut self, name: &str, bytes: &[u8]) -> Result<(), FolderError>
        ensures replaced { OnOk result (HasPut memory_folder_model self.old self.new name.now bytes.now) }
        ensures settled { OnOk result (Tells memory_folder_model self.old → IsStable memory_folder_model self.new) }
        ensures all_or_nothing { HasPutOrNot memory_folder_model self.old self.new name.now bytes.now }
        ensures steps { Steps memory_folder_model (Replaced name.now bytes.now) self.old self.new }
        ensures failed { IfErr result (λ e. (e ≡ FolderError.Failed) × Rose (memory_folder_model.faults self.old) (memory_folder_model.faults self.new)) }

        // A call that fails leaves the files.
        ensures same { OnErr result (memory_folder_model.seen self.new ≡ memory_folder_model.seen self.old) }
        ensures named { folder_due self.old ≡ true → (result ≡ Err FolderError.Failed) × FolderRefused self.old self.new }
        ensures calls { folder_calls self.new ≡ next_count (folder_calls self.old) }
        ensures fails { folder_fails self.new ≡ folder_fails self.old }
        ensures well { OnOk result (memory_folder_model.faults self.new ≡ memory_folder_model.faults self.old) }
    {
        if self.calls.begin() {
            return Err(FolderError::Failed);
        }
        if let Err(_) = put_file(self.alloc, &mut self.puts, name, bytes) {
            self.calls.fault();
            return Err(FolderError::Failed);
        }
        Ok(())
    }
}
