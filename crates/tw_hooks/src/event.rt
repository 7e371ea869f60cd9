// What happens to a task.

/// What happens to a task.
#[derive(Clone, Copy, PartialEq, Eq, Drop)]
pub enum Event {
    /// It is made.
    Add,
    /// It is changed.
    Modify,
}
