// The line for a command that did not end well.
ghost use Rattle.std.specs.Prelude.{◌≡◌, ◌++◌, codes};
ghost use Rattle.tw_ending.specs.Lines.{numbered, GotLine};
ghost use Rattle.timew_cli.specs.Fault.{fault_line, IsShort, GotFault};

use crate::cause::Cause;
use tw_ending::{Short, numbered, put_line, put_pieces, whole};
use tw_world::Sink;

// The line for the standard error, which has no name of a file.
fn fault_line(cause: &Cause) -> Short
    requires { IsShort cause.now }
    ensures { result.bytes ≡ fault_line cause.now }
{
    match cause {
        Cause::Done => whole(""),
        Cause::NotTracking => whole("timew: no active tracking\n"),
        Cause::NothingToUndo => whole("timew: nothing to undo\n"),
        Cause::BadWords { word, .. } => numbered("timew: bad word ", *word, "\n"),
        Cause::Range { word } => numbered("timew: bad word ", *word, "\n"),
        Cause::NoInterval { id } => numbered("timew: no interval @", *id, "\n"),
        Cause::NoOpen => whole("timew: no interval is open\n"),
        Cause::AlreadyOpen { id } => numbered("timew: @", *id, " is already open\n"),
        Cause::Overlap { id } => numbered("timew: overlaps @", *id, "\n"),
        Cause::DiskFault => whole("timew: the journal failed\n"),
        Cause::RecordTooLong { bytes } => {
            numbered("timew: record of ", *bytes, " bytes is too long\n")
        }
        Cause::Damaged { offset } => numbered("timew: the journal is damaged at ", *offset, "\n"),
        Cause::FolderFault => whole("timew: the folder failed\n"),
        Cause::Memory => whole("timew: out of memory\n"),
        Cause::OutFault => whole("timew: output failed\n"),
        Cause::Edited { .. } => unreachable!(),
        Cause::BadLine { .. } => unreachable!(),
    }
}

// Writes which line of a month file is no interval.
fn put_bad_line<E: Sink>(err: &mut E, file: &str, line: u64)
    ensures { GotLine E.model err.old err.new (numbered (codes "timew: line ") line (codes " of ") ++ (file.now ++ codes " is no interval\n")) }
{
    let front = numbered("timew: line ", line, " of ");
    put_pieces(err, front.as_str(), file, " is no interval\n")
}

/// Writes the line of a command that did not end well. A sink that fails changes nothing else.
pub(crate) fn put_fault<E: Sink>(err: &mut E, cause: &Cause)
    ensures { GotFault E.model err.old err.new cause.now }
{
    match cause {
        Cause::Edited { file } => put_pieces(err, "timew: ", file.as_str(), " was edited\n"),
        Cause::BadLine { file, line } => put_bad_line(err, file.as_str(), *line),
        _ => put_line(err, &fault_line(cause)),
    }
}
