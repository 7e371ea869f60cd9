// Words that give no filter.
use tw_terms::BadWord;

/// Why words give no filter.
#[derive(Clone, Copy, Drop)]
pub enum FilterError {
    /// This word is the first that is outside the grammar.
    Bad(BadWord),
    /// There was no memory.
    Memory,
}
