// What gives bytes.
ghost use Rattle.std.specs.Prelude.{ℕ, List, Option, OnErr};
ghost use Rattle.std.specs.Io.{ReadsAtMost};
ghost use Rattle.std.specs.Io.KnownBytes.{ReadConsumes};

use std::io;

/// What gives bytes, as few at a time as it likes.
pub trait Reader {
    /// The bytes that reads will give, if they are known.
    ghost remaining: { Self → Option (List ℕ) };

    /// Holds if a read may fail.
    ghost may_not_read: { Type 0 };

    /// Reads some bytes, none only at the end.
    fn read_next(&mut self, buffer: &mut [u8]) -> io::Result<usize>
        ensures bound { ReadsAtMost result buffer.new }
        ensures bytes { ReadConsumes (remaining self.old) (remaining self.new) result buffer.new }
        ensures failed { OnErr result may_not_read };
}
