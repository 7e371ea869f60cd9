ghost use Rattle.std.specs.Prelude.{◌≡◌};
ghost use Rattle.tw_segment.specs.declared.error.SegmentError.TheVariants.{Memory as memory};

use std::alloc::{AllocError, AllocFailed};
use tw_world::Memory;

/// Why a segment was not written or not read.
#[derive(Clone, Copy, Debug, PartialEq, Eq)]
pub enum SegmentError {
    /// The bytes are no JSON text (RFC 8259).
    NotJson,
    /// The JSON value is no segment; `index` is the first operation that is none, from 0, or 0
    /// if there is no list of operations.
    Shape { index: u64 },
    /// The segment has that many bytes, which is more than 16,777,216.
    TooLong { bytes: u64 },
    /// There was no memory.
    Memory,
}

impl From<Memory> for SegmentError {
    ghost from_gives = { λ _ e. e ≡ memory };

    fn from(_: Memory) -> SegmentError {
        SegmentError::Memory
    }
}

impl From<AllocError> for SegmentError {
    ghost from_gives = { λ _ e. e ≡ memory };

    fn from(_: AllocError) -> SegmentError {
        SegmentError::Memory
    }
}

impl<T: Drop> From<AllocFailed<T>> for SegmentError {
    ghost from_gives = { λ _ e. e ≡ memory };

    fn from(_: AllocFailed<T>) -> SegmentError {
        SegmentError::Memory
    }
}
