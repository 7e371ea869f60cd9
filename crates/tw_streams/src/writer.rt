// What takes bytes.
ghost use Rattle.std.specs.Prelude.{◌≡◌, ◌<◌, ℕ, List, Option, None, length, IfOk, OnErr};
ghost use Rattle.std.specs.Io.{WritesAtMost};
ghost use Rattle.std.specs.Io.KnownBytes.{WriteAppends, Keeps};

use std::io;
use std::io::{Stderr, Stdout, Write};

/// What takes bytes, as few at a time as it likes.
pub trait Writer {
    /// The bytes that it has taken, if they are known.
    ghost contents: { Self → Option (List ℕ) };

    /// Holds if it may refuse bytes.
    ghost may_not_write: { Type 0 };

    /// Takes some of the bytes. One that takes none of some refuses.
    fn write_next(&mut self, bytes: &[u8]) -> io::Result<usize>
        ensures bound { WritesAtMost result bytes.now }
        ensures bytes { WriteAppends (contents self.old) (contents self.new) result bytes.now }
        ensures some { IfOk result (λ count. count ≡ 0 → 0 < length bytes.now → may_not_write) }
        ensures failed { OnErr result may_not_write };

    /// Passes on what it has taken.
    fn pass_on(&mut self) -> io::Result<()>
        ensures bytes { Keeps (contents self.old) (contents self.new) }
        ensures failed { OnErr result may_not_write };
}

// The standard streams tell nothing of their bytes.
impl Writer for Stdout {
    ghost contents = { λ stream. None };

    ghost may_not_write = { Unit {0} };

    fn write_next(&mut self, bytes: &[u8]) -> io::Result<usize> {
        self.write(bytes)
    }

    fn pass_on(&mut self) -> io::Result<()> {
        self.flush()
    }
}

impl Writer for Stderr {
    ghost contents = { λ stream. None };

    ghost may_not_write = { Unit {0} };

    fn write_next(&mut self, bytes: &[u8]) -> io::Result<usize> {
        self.write(bytes)
    }

    fn pass_on(&mut self) -> io::Result<()> {
        self.flush()
    }
}
