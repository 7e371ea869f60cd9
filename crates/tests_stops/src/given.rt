// What a run is given, and how it ends.

use tw_cli::{Cause, Outcome};
use tw_world::MemorySink;

/// What a run is given beside its words, its disk and its link.
#[derive(Clone, Copy)]
pub(crate) struct Given<'a> {
    /// The first identifier that it draws.
    pub(crate) first: u128,
    pub(crate) second: u64,
    pub(crate) settings: &'a str,
    pub(crate) input: &'a str,
}

impl<'a> Given<'a> {
    /// Identifiers from `first` on, this second, no settings and no input.
    pub(crate) fn new(first: u128, second: u64) -> Given<'a> {
        Given {
            first,
            second,
            settings: "",
            input: "",
        }
    }
}

/// How a run ended, with what it wrote on both streams.
pub(crate) struct Ended {
    pub(crate) outcome: Outcome,
    pub(crate) out: MemorySink,
    pub(crate) err: MemorySink,
}

// It is written out, so that a caller does not prove again how each part is dropped.
impl Drop for Ended {
    fn drop(self) {
        let Ended {
            outcome: _,
            out: _,
            err: _,
        } = self;
    }
}

impl Ended {
    /// Whether it ended with this status, by this cause.
    pub(crate) fn is(&self, status: u8, cause: &Cause) -> bool {
        self.outcome.status == status && self.outcome.cause == *cause
    }

    /// What it printed, or its line on the standard error if it did not end well, if the other stream got nothing.
    pub(crate) fn said(&self) -> Option<&[u8]> {
        let (said, other) = if self.outcome.status == 0 {
            (self.out.bytes(), self.err.bytes())
        } else {
            (self.err.bytes(), self.out.bytes())
        };
        if other.is_empty() { Some(said) } else { None }
    }
}
