// Lines for a person, beside what the commands print.
ghost use Rattle.std.specs.Prelude.{◌≡◌};
ghost use Rattle.tw.specs.Start.{wants_hints};

use std::alloc::Global;
use std::env;
use std::env::VarError;
use std::io::IsTerminal;
use tw_streams::Stream;
use tw_text::cell;
use tw_world::Sink;

/// Whether lines for a person are written: the variable `TW_HINTS` says so by 1 or 0. Else they are if the standard error is a terminal.
pub fn is_wanted(rt: &HostRuntime) -> bool {
    wants_hints(env::var(rt, "TW_HINTS"), rt.stderr().is_terminal())
}

fn wants_hints(read: Result<String, VarError>, at_terminal: bool) -> bool
    ensures { result ≡ wants_hints read at_terminal }
{
    match read {
        Ok(value) if value.as_str() == "1" => true,
        Ok(value) if value.as_str() == "0" => false,
        _ => at_terminal,
    }
}

/// Writes lines for a person, if they are wanted, in one piece. Each begins with `tw: ` and ends with a newline. If they can't be written,
/// nothing follows.
pub fn hint_line(rt: &HostRuntime, lines: &str) {
    if is_wanted(rt) {
        let _ = Stream::new(rt.stderr()).write_all(lines.as_bytes());
    }
}

/// Says that a store in this folder is new, if that is wanted. If there is no memory for the line, nothing follows.
pub fn hint_new(rt: &HostRuntime, alloc: Global, store: &str, folder: &str) {
    let Ok(name) = cell(alloc, folder) else {
        return;
    };
    if let Ok(line) = format!(in alloc; "tw: a new {store} in {}\n", name.as_str()) {
        hint_line(rt, line.as_str());
    }
}
