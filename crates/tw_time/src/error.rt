/// Why a text is no moment or no duration.
#[derive(Clone, Copy, Debug, PartialEq, Eq)]
pub enum DateError {
    /// The text is outside the grammar.
    Unknown,
    /// The text is inside the grammar, and its count has more than six digits, or its moment is
    /// before 1970 or not before the year 9999.
    OutOfRange,
    /// There was no memory; no call of this crate takes any.
    Memory,
}
