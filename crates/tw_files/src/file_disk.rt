// A file as a disk.
ghost use Rattle.std.specs.Prelude.{◌≡◌, ◌⊎◌, ◌<◌, ◌≤◌, ◌+◌, ◌^◌, ◌↔◌, List, ℕ, length, take, drop, IsTrue, IsFalse, IfOk, IfErr, OnOk, OnErr, IsErrOf};
ghost use Rattle.tw_world.specs.Disk.{Tells, Rose, Torn, Resized, IsStable, Steps, Reads, overwritten, resized};
ghost use Rattle.tw_files.specs.OffsetFile.{HasLength, KeepsLength, Holds, IsShorter, Overwrites, Resizes};

use crate::offset_file::OffsetFile;
use std::io;
use tw_world::{Disk, DiskError};

const MAX_LEN: u64 = 1 << 56;

/// An open file, with its length and how often it has failed. It tells nothing of what it holds.
#[derive(Drop)]
pub struct FileDisk<F: OffsetFile> {
    file: F,
    len: u64,
    faults: u64,
    ghost whole: { HasLength (F.contents file) len },
}

// Fills `out` with the bytes from `at` on, and answers whether the file had them.
pub fn read_all_at<F: OffsetFile>(file: &F, at: u64, out: &mut [u8]) -> bool
    requires { at + length out.old < 2 ^ 64 }
    ensures bytes { IsTrue result → Holds (F.contents file.now) at out.new }
    ensures failed { IsFalse result → F.may_fail ⊎ IsShorter (F.contents file.now) (at + length out.old) }
{
    let mut done = 0;
    while done < out.len() {
        match file.read_some(&mut out[done..], at + done as u64) {
            Ok(0) | Err(_) => return false,
            Ok(count) => done += count,
        }
    }
    true
}

// Writes all the bytes from `at` on, and answers whether that was possible.
pub fn write_all_at<F: OffsetFile>(file: &mut F, at: u64, bytes: &[u8]) -> bool
    requires { at + length bytes.now < 2 ^ 64 }
    ensures whole { IsTrue result → Overwrites (F.contents file.old) (F.contents file.new) at bytes.now }
    ensures len { KeepsLength (F.contents file.old) (F.contents file.new) (at + length bytes.now) }
    ensures at { (path : List ℕ) → F.is_at file.old path → F.is_at file.new path }
    ensures failed { IsFalse result → F.may_fail }
{
    let mut done = 0;
    while done < bytes.len() {
        match file.write_some(&bytes[done..], at + done as u64) {
            Ok(0) | Err(_) => return false,
            Ok(count) => done += count,
        }
    }
    true
}

impl<F: OffsetFile> FileDisk<F> {
    /// A disk over an open file.
    pub fn new(file: F) -> io::Result<FileDisk<F>>
    where
        F: Drop,
        ensures file { IfOk result (λ disk. disk.file ≡ file) }
        ensures faults { IfOk result (λ disk. disk.faults ≡ 0) }
        ensures only { OnErr result F.may_fail }
    {
        let len = file.byte_len()?;
        Ok(FileDisk {
            file,
            len,
            faults: 0,
        })
    }

    /// Has it no byte?
    pub fn is_empty(&self) -> bool
        ensures { IsTrue result ↔ (self.now.len ≡ 0) }
    {
        self.len == 0
    }

    // Makes what the file holds stable.
    pub(crate) fn stabilize(&mut self) -> io::Result<()>
        ensures stable { OnOk result (F.is_stable self.new.file) }
        ensures only { OnErr result F.may_fail }
        ensures contents { F.contents self.new.file ≡ F.contents self.old.file }
        ensures at { (path : List ℕ) → F.is_at self.old.file path → F.is_at self.new.file path }
        ensures len { self.new.len ≡ self.old.len }
        ensures faults { self.new.faults ≡ self.old.faults }
    {
        self.file.stabilize()
    }

    // Counts a fault.
    fn fail(&mut self) -> DiskError
        ensures failed { result ≡ DiskError.Failed }
        ensures counted { Rose self.old.faults self.new.faults }
        ensures later { self.old.faults ≤ self.new.faults }
        ensures len { self.new.len ≡ self.old.len }
        ensures file { self.new.file ≡ self.old.file }
    {
        self.faults = self.faults.saturating_add(1);
        DiskError::Failed
    }
}

impl<F: OffsetFile> Disk for FileDisk<F> {
    ghost use Rattle.tw_files.specs.FileDisk.{file_model, none_told};

    ghost model = { file_model };

    ghost has_length = { λ disk tells. none_told tells };

    ghost seen_may_stay = { λ disk tells. none_told tells };

    ghost counts_now = { λ disk t c le left. left };

    ghost only_now = { λ disk c left. left };

    fn size(&mut self) -> Result<u64, DiskError>
        ensures size { IfOk result (λ n. (n ≡ self.old.len) × (n < 2 ^ 56)) }
        ensures reads { Reads file_model self.old self.new }
        ensures failed { IsErrOf result DiskError.Failed → Rose self.old.faults self.new.faults }

        ensures only { OnErr result (2 ^ 56 ≤ self.old.len) }
    {
        if self.len >= MAX_LEN {
            return Err(self.fail());
        }
        Ok(self.len)
    }

    fn read_at(&mut self, at: u64, out: &mut [u8]) -> Result<(), DiskError>
        requires { at + length out.old ≤ self.old.len }
        ensures bytes { OnOk result (Tells file_model self.old → out.new ≡ take (length out.old) (drop at (file_model.seen self.old))) }
        ensures refused { OnErr result (Tells file_model self.old → out.new ≡ out.old) }
        ensures reads { Reads file_model self.old self.new }
        ensures failed { IsErrOf result DiskError.Failed → Rose self.old.faults self.new.faults }

        // What the file holds there, if it says what it holds.
        ensures there { OnOk result (Holds (F.contents self.old.file) at out.new) }
        ensures well { OnOk result (self.new ≡ self.old) }
        ensures only { OnErr result (F.may_fail ⊎ IsShorter (F.contents self.old.file) (at + length out.old)) }
    {
        prove!(at <= self.len);
        if read_all_at(&self.file, at, out) {
            return Ok(());
        }
        Err(self.fail())
    }

    fn write_at(&mut self, at: u64, bytes: &[u8]) -> Result<(), DiskError>
        requires { at + length bytes.now ≤ self.old.len }
        ensures written { OnOk result (Tells file_model self.old → file_model.seen self.new ≡ overwritten at bytes.now (file_model.seen self.old)) }
        ensures len { self.new.len ≡ self.old.len }
        ensures steps { Steps file_model (Torn at bytes.now) self.old self.new }
        ensures failed { IfErr result (λ e. (e ≡ DiskError.Failed) × Rose self.old.faults self.new.faults) }

        // Each byte is written, if the file says what it holds.
        ensures whole { OnOk result (Overwrites (F.contents self.old.file) (F.contents self.new.file) at bytes.now) }
        ensures well { OnOk result (self.new.faults ≡ self.old.faults) }
        ensures only { OnErr result F.may_fail }
    {
        prove!(at <= self.len);
        if write_all_at(&mut self.file, at, bytes) {
            return Ok(());
        }
        Err(self.fail())
    }

    fn set_len(&mut self, len: u64) -> Result<(), DiskError>
        requires { len ≤ self.old.len + 2 ^ 31 }
        ensures resized { OnOk result (Tells file_model self.old → file_model.seen self.new ≡ resized len (file_model.seen self.old)) }
        ensures len { OnOk result ((self.new.len ≡ len) × (len < 2 ^ 56)) }
        ensures steps { Steps file_model (Resized len) self.old self.new }
        ensures failed { IfErr result (λ e. (e ≡ DiskError.Failed) × Rose self.old.faults self.new.faults) }

        // The file has that length, if it says what it holds.
        ensures cut { OnOk result (Resizes (F.contents self.old.file) (F.contents self.new.file) len) }
        ensures well { OnOk result (self.new.faults ≡ self.old.faults) }
        ensures only { OnErr result (F.may_fail ⊎ (2 ^ 56 ≤ len)) }
    {
        if len >= MAX_LEN {
            return Err(self.fail());
        }
        match self.file.resize(len) {
            Ok(()) => {
                self.len = len;
                Ok(())
            }
            Err(_) => Err(self.fail()),
        }
    }

    fn sync(&mut self) -> Result<(), DiskError>
        ensures settled { OnOk result (Tells file_model self.old → IsStable file_model self.new) }
        ensures seen { Tells file_model self.old → file_model.seen self.new ≡ file_model.seen self.old }
        ensures len { self.new.len ≡ self.old.len }
        ensures steps { Steps file_model (λ d c. c ≡ d) self.old self.new }
        ensures failed { IfErr result (λ e. (e ≡ DiskError.Failed) × Rose self.old.faults self.new.faults) }

        ensures stable { OnOk result (F.is_stable self.new.file) }
        ensures contents { F.contents self.new.file ≡ F.contents self.old.file }
        ensures well { OnOk result (self.new.faults ≡ self.old.faults) }
        ensures only { OnErr result F.may_fail }
    {
        if self.file.stabilize().is_ok() {
            return Ok(());
        }
        Err(self.fail())
    }
}
