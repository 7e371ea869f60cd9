// What a sync reports of itself.
use uuid::Uuid;

/// What a sync did (TaskChampion book, "Synchronization Model"). Counts are of versions and of operations
/// as replicas exchange them, so undo points count nowhere.
#[derive(Clone, Copy, PartialEq, Eq, Drop)]
pub struct SyncReport {
    /// How many versions were pulled. A version that an earlier, refused sync of this replica added is among them.
    pub pulled: u64,
    /// How many pending operations gave way to what was pulled.
    pub dropped: u64,
    /// How many pending operations were sent.
    pub pushed: u64,
    /// The replica's base version now.
    pub base: Uuid,
}
