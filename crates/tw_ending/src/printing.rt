// Printing what a run shows.
ghost use Rattle.tw_ending.specs.Ending.{EndsPrinting};

use tw_world::Sink;

/// Prints what a run shows, and gives how the run ends: `done`, or `fault` if the output fails.
pub fn print<O: Sink, C: Drop>(out: &mut O, text: &[u8], done: C, fault: C) -> C
    ensures { EndsPrinting O.model out.old out.new text.now done fault result }
{
    match out.write_all(text) {
        Ok(()) => done,
        Err(_) => fault,
    }
}
