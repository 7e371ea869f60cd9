// What a sync reports that ends at a cursor.
ghost use Rattle.std.specs.Prelude.{◌≡◌};
ghost use Rattle.tw_sync.specs.Way.Cursor.{made_report};

use crate::cursor::Cursor;
use crate::report::SyncReport;

impl Cursor {
    /// What a sync did that ends here.
    pub fn report(&self) -> SyncReport
        ensures { result ≡ made_report self.now }
    {
        let pushed = self.pending.saturating_sub(self.unsent);
        SyncReport {
            pulled: self.versions,
            dropped: self.unsent,
            pushed,
            base: self.walker.at,
        }
    }
}
