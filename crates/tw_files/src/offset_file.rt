// A file that is read and written at offsets.
ghost use Rattle.std.specs.Prelude.{◌≡◌, ℕ, ◌+◌, ◌<◌, List, Option, None, length, take, IfOk, OnOk, OnErr};
ghost use Rattle.std.specs.Io.{ReadsAtMost, WritesAtMost};
ghost use Rattle.tw_files.specs.OffsetFile.{HasLength, KeepsLength, Holds, EndsBy, Overwrites, Resizes};

use std::fs::File;
use std::io;
use std::os::unix::fs::FileExt;

/// What is done about a file that another program has locked.
#[derive(Clone, Copy, Debug, PartialEq, Eq, Drop)]
pub enum Busy {
    /// The call waits until that program has closed it.
    Wait,
    /// The call ends with an error of the kind `WouldBlock`.
    Fail,
}

/// What the system offers of an open file. A call may read or write less than it was asked for.
pub trait OffsetFile {
    /// The bytes that it holds, if they are known.
    ghost contents: { Self → Option (List ℕ) };

    /// Holds if all that was written is stable.
    ghost is_stable: { Self → Type 0 };

    /// Holds if it was opened by this path.
    ghost is_at: { Self → List ℕ → Type 0 };

    /// Holds if the system may refuse a call that asks for nothing but what is there.
    ghost may_fail: { Type 0 };

    /// Takes the lock of the file, which lasts until the file is closed, also by a program's death.
    fn lock(&self, busy: Busy) -> io::Result<()>
        ensures failed { OnErr result may_fail };

    /// How many bytes the file has.
    fn byte_len(&self) -> io::Result<u64>
        ensures has { IfOk result (HasLength (contents self.now)) }
        ensures failed { OnErr result may_fail };

    fn read_some(&self, buffer: &mut [u8], at: u64) -> io::Result<usize>
        ensures bound { ReadsAtMost result buffer.new }
        ensures bytes { IfOk result (λ count. Holds (contents self.now) at (take count buffer.new)) }
        ensures end { IfOk result (λ count. count ≡ 0 → 0 < length buffer.old → EndsBy (contents self.now) at) }
        ensures failed { OnErr result may_fail };

    fn write_some(&mut self, bytes: &[u8], at: u64) -> io::Result<usize>
        ensures bound { WritesAtMost result bytes.now }
        ensures bytes { IfOk result (λ count. Overwrites (contents self.old) (contents self.new) at (take count bytes.now)) }
        ensures some { IfOk result (λ count. count ≡ 0 → 0 < length bytes.now → may_fail) }
        ensures failed { OnErr result may_fail }
        ensures len { KeepsLength (contents self.old) (contents self.new) (at + length bytes.now) }
        ensures at { (path : List ℕ) → is_at self.old path → is_at self.new path };

    fn resize(&mut self, len: u64) -> io::Result<()>
        ensures resized { OnOk result (Resizes (contents self.old) (contents self.new) len) }
        ensures len { OnOk result (HasLength (contents self.new) len) }
        ensures kept { OnErr result (KeepsLength (contents self.old) (contents self.new) 0) }
        ensures failed { OnErr result may_fail }
        ensures at { (path : List ℕ) → is_at self.old path → is_at self.new path };

    fn stabilize(&mut self) -> io::Result<()>
        ensures stable { OnOk result (is_stable self.new) }
        ensures failed { OnErr result may_fail }
        ensures contents { contents self.new ≡ contents self.old }
        ensures at { (path : List ℕ) → is_at self.old path → is_at self.new path };
}

// The system's files tell nothing of their bytes.
impl OffsetFile for File {
    ghost contents = { λ file. None };

    ghost is_stable = { λ file. Unit {0} };

    ghost is_at = { λ file path. Unit {0} };

    ghost may_fail = { Unit {0} };

    fn lock(&self, busy: Busy) -> io::Result<()> {
        match busy {
            Busy::Wait => File::lock(self),
            Busy::Fail => Ok(self.try_lock()?),
        }
    }

    fn byte_len(&self) -> io::Result<u64> {
        Ok(self.metadata()?.len())
    }

    fn read_some(&self, buffer: &mut [u8], at: u64) -> io::Result<usize> {
        self.read_at(buffer, at)
    }

    fn write_some(&mut self, bytes: &[u8], at: u64) -> io::Result<usize> {
        self.write_at(bytes, at)
    }

    fn resize(&mut self, len: u64) -> io::Result<()> {
        self.set_len(len)
    }

    fn stabilize(&mut self) -> io::Result<()> {
        self.sync_all()
    }
}
