// What is read from.
ghost use Rattle.std.specs.Prelude.{◌<◌, ◌≤◌, length, IfOk, OnErr};
ghost use Rattle.tw_world.specs.Disk.{Rose};
ghost use Rattle.tw_world.specs.Source.{SourceModel, SourceKept, Gave, GaveNothing};

use crate::StreamError;

/// What is read once, from front to end: a file, a pipe, the keys of a terminal.
pub trait Source {
    /// What is still to be read, and how often it has failed.
    ghost model: { SourceModel Self };

    /// Reads into the front of `out`, and answers how many bytes it put there: 0 only at the end.
    /// A read that fails takes nothing.
    fn read(&mut self, out: &mut [u8]) -> Result<u64, StreamError>
        requires { 0 < length out.old }

        ensures gave { IfOk result (λ count. Gave model self.old self.new out.new count) }
        ensures count { IfOk result (λ count. count ≤ length out.old) }
        ensures refused { OnErr result (GaveNothing model self.old self.new out.old out.new) }
        ensures kept { SourceKept model self.old self.new }
        ensures failed { OnErr result (Rose (model.faults self.old) (model.faults self.new)) };
}
