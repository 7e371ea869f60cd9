// The line of a command that did not end well. A sink that fails changes nothing else.
ghost use Rattle.std.specs.Prelude.{◌++◌, OnOk, OnErr};
ghost use Rattle.tw_world.specs.Disk.{Rose};
ghost use Rattle.tw_world.specs.Sink.{SinkKept, Got, GotPart};
ghost use Rattle.tw_ending.specs.Lines.{GotLine, GotAny};

use crate::short::Short;
use tw_world::{Sink, StreamError};

fn put_text<E: Sink>(err: &mut E, text: &str)
    ensures { GotLine E.model err.old err.new text.now }
{
    let _ = err.write_all(text.as_bytes());
}

/// Writes a line, if it is not empty.
pub fn put_line<E: Sink>(err: &mut E, line: &Short)
    ensures { GotAny E.model err.old err.new line.now.bytes }
{
    let text = line.as_str();
    if !text.is_empty() {
        put_text(err, text);
    }
}

// Writes a piece of a line.
fn put_piece<E: Sink>(err: &mut E, piece: &str) -> Result<(), StreamError>
    ensures written { OnOk result (Got E.model err.old err.new piece.now) }
    ensures part { OnErr result (GotPart E.model err.old err.new piece.now) }
    ensures kept { SinkKept E.model err.old err.new }
    ensures failed { OnErr result (Rose (E.model.faults err.old) (E.model.faults err.new)) }
{
    err.write_all(piece.as_bytes())
}

/// Writes a name between two pieces of its line, one after another, until one fails. The name may be long, and is not
/// copied.
pub fn put_pieces<E: Sink>(err: &mut E, front: &str, name: &str, back: &str)
    ensures { GotLine E.model err.old err.new (front.now ++ (name.now ++ back.now)) }
{
    let Ok(()) = put_piece(err, front) else {
        return;
    };
    let Ok(()) = put_piece(err, name) else {
        return;
    };
    put_text(err, back);
}
