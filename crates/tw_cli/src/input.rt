// Taking the input of a command.
ghost use Rattle.std.specs.Prelude.{◌≡◌, ◌++◌, ◌+◌, ◌≤◌, ◌<◌, [], take, drop, length, IfOk, IfErr, OnOk};
ghost use Rattle.tw_world.specs.Source.{SourceKept, TellsRest};
ghost use Rattle.tw_cli.specs.Input.{with_input, Took, NotTaken, NotRead, ReadAll, ReadMore, NotReadMore, IsInputKept};

use std::alloc::Global;
use tw_changes::{Input, Request};
use tw_words::Command;
use tw_world::{Memory, Source};

// The most bytes of an input.
const MAX_INPUT: usize = 67_108_864;

// The most bytes that are read at once.
const PIECE: usize = 8192;

/// Why the input of a command is not taken.
#[derive(Clone, Copy, Drop)]
pub(crate) enum InputError {
    /// The input failed.
    Fault,
    /// It has more than 67,108,864 bytes. So many and one more were read.
    TooLong,
    /// There was no memory.
    Memory,
}

// Puts the front of a buffer after what was read.
fn push_front(bytes: &mut Vec<u8>, buffer: &[u8], count: u64) -> Result<(), Memory>
    requires { count ≤ length buffer.now }
    ensures { OnOk result (bytes.new.items ≡ bytes.old.items ++ take count buffer.now) }
{
    bytes.extend_from_slice(&buffer[..count as usize])?;
    Ok(())
}

// Reads once, and puts what came after what was read. Answers how many bytes came: none only at the end.
fn read_piece<S: Source>(
    input: &mut S,
    bytes: &mut Vec<u8>,
    buffer: &mut [u8],
) -> Result<u64, InputError>
    requires { 0 < length buffer.old }
    ensures read { IfOk result (ReadMore S.model input.old input.new bytes.old.items bytes.new.items) }
    ensures few { IfOk result (λ count. count ≤ length buffer.old) }
    ensures refused { IfErr result (NotReadMore S.model input.old input.new) }
    ensures kept { SourceKept S.model input.old input.new }
{
    match input.read(buffer) {
        Ok(count) => match push_front(bytes, buffer, count) {
            Ok(()) => Ok(count),
            Err(_) => Err(InputError::Memory),
        },
        Err(_) => Err(InputError::Fault),
    }
}

// Reads a source to its end.
fn read_all<S: Source>(alloc: Global, input: &mut S) -> Result<Vec<u8>, InputError>
    ensures all { IfOk result (λ bytes. ReadAll S.model input.old input.new bytes.items) }
    ensures refused { IfErr result (NotRead S.model input.old input.new) }
    ensures kept { SourceKept S.model input.old input.new }
{
    let mut bytes = Vec::new(alloc);
    let mut buffer = [0; PIECE];
    while bytes.len() <= MAX_INPUT {
        let room = PIECE.min(MAX_INPUT + 1 - bytes.len());
        match read_piece(input, &mut bytes, &mut buffer[..room]) {
            Ok(0) => return Ok(bytes),
            Ok(_) => {}
            Err(error) => return Err(error),
        }
    }
    Err(InputError::TooLong)
}

/// Takes the input of a command: `import` reads it to its end, and no other command uses it.
pub(crate) fn take_input<S: Source>(
    alloc: Global,
    command: Command,
    input: &mut S,
) -> Result<Input, InputError>
    ensures took { IfOk result (Took S.model command input.old input.new) }
    ensures refused { IfErr result (NotTaken S.model command input.old input.new) }
    ensures kept { IsInputKept S.model command input.old input.new }
{
    match command {
        Command::Import => match read_all(alloc, input) {
            Ok(bytes) => Ok(Input::new(bytes)),
            Err(error) => Err(error),
        },
        _ => Ok(Input::none(alloc)),
    }
}

/// The command of a request.
pub(crate) fn command_of(request: &Request<'_>) -> Command
    ensures { result ≡ request.now.command }
{
    request.command
}

/// A request with its input.
pub(crate) fn with_input<'a>(request: Request<'a>, input: Input) -> Request<'a>
    ensures { result ≡ with_input request.entry input }
{
    let mut request = request;
    request.input = input;
    request
}
