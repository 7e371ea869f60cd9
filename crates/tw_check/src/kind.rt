// What a journal is of.
ghost use Rattle.std.specs.Prelude.{◌≡◌};
ghost use Rattle.tw_check.specs.Kinds.{kind_of, kinds, magic_of};

use tw_replica::MAGIC;
use tw_time::look_up;

/// What a journal is of.
#[derive(Clone, Copy)]
pub enum Kind {
    /// The tasks of a machine, in `replica.journal`.
    Tasks,
    /// The changes of hours, in `undo.journal`.
    Hours,
    /// The history of all clients, in the file of a server.
    History,
}

// The magic of each kind but that of tasks.
const KINDS: [(&str, Kind); 2] = [("TIMEWJ01", Kind::Hours), ("TWSERV01", Kind::History)];

/// What the magic of a file names, and tasks if it names nothing else.
pub fn kind_of(file: &[u8]) -> Kind
    ensures { result ≡ kind_of file.now }
{
    if file.len() < 13 {
        return Kind::Tasks;
    }
    match look_up(&file[5..13], &KINDS) {
        Some(kind) => kind,
        None => Kind::Tasks,
    }
}

/// The magic that a journal of a kind is opened with.
pub(crate) fn magic_of(kind: Kind) -> [u8; 8]
    ensures { result ≡ magic_of kind }
{
    match kind {
        Kind::Tasks => MAGIC,
        Kind::Hours => *b"TIMEWJ01",
        Kind::History => *b"TWSERV01",
    }
}
