// Why a journal of tasks does not open.

/// Why a journal of tasks does not open.
#[derive(Clone, Copy, Drop)]
pub enum CheckError {
    /// The bytes at this offset are no record of a replica, or one whose step leads nowhere.
    Damaged { offset: u64 },
    /// The journal is a row of the first version, and the one record in its place would have so many bytes, more than 2^30. All its
    /// records are whole.
    TooLong { bytes: u64 },
    /// There was no memory left.
    Memory,
}
