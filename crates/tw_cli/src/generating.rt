// `_generate`, over replicas and a server in memory.
ghost use Rattle.std.specs.Prelude.{◌≤◌};
ghost use Rattle.tw_ending.specs.Ending.{HasNotFailed};
ghost use Rattle.tw_words.specs.Faults.{number_behind};
ghost use Rattle.tw_cli.specs.Generating.{GenerateGives};
ghost use Rattle.tw_cli.specs.Run.{IsDoneOrWant};

use crate::cause::Cause;
use std::alloc::Global;
use tw_ending::print;
use tw_generate::generate;
use tw_settings::Settings;
use tw_words::Line;
use tw_world::Sink;

/// Runs a large world in memory, as large as the words of the line say, and prints what it came to.
pub(crate) fn run_generate<O: Sink>(
    alloc: Global,
    line: &Line,
    settings: &Settings,
    out: &mut O,
) -> Cause
    requires { number_behind line.now 0 ≤ 10000 }
    ensures gives { GenerateGives O.model line.now settings.now out.old out.new result }
    ensures complete { HasNotFailed O.model out.old out.new → IsDoneOrWant result }
{
    let weights = settings.weights();
    match generate(alloc, line.number(0), line.number(1), &weights) {
        Ok(text) => print(out, text.as_slice(), Cause::Done, Cause::OutFault),
        Err(_) => Cause::Memory,
    }
}
