// Why a command does nothing.
use tw_terms::WordKind;
use tw_world::Text;
use uuid::Uuid;

/// Why a command does nothing, in a replica that is open.
#[derive(PartialEq, Eq, Drop)]
pub enum Refusal {
    /// It needs a task, and acts on none of those that are selected.
    NoMatch,
    /// Nothing is pending that an undo can take back.
    NothingToUndo,
    /// The word with this number names no task, or is of a command that has no plan over tasks.
    BadWords { word: u64, kind: WordKind },
    /// This uuid was drawn for a task, and has one already.
    IdTaken { uuid: Uuid },
    /// A task gains a dependency on this one, and paths of dependencies lead from this one back to it.
    Cycle { uuid: Uuid },
    /// The element of the input with this number, from 0, is no task, and this is its first bad key. Where the input is no JSON array, the
    /// number is 0 and the name empty.
    BadInput { index: u64, name: Text },
}
