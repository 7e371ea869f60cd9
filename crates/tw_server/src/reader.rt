// What an opening reads records through.
ghost use Rattle.std.specs.Prelude.{◌≡◌, ◌<◌, List, ℕ, true, false, IfErr, OnOk};
ghost use Rattle.tw_world.specs.Disk.{Untouched};
ghost use Rattle.tw_journal.specs.Journal.{OnRecords, ReadRefused, journal_count, journal_end, is_closed};
ghost use Rattle.tw_journal.specs.Window.{IsWindowOn};
ghost use Rattle.tw_records.specs.Table.{body_at};
ghost use Rattle.tw_server.specs.Reader.{IsShown};

use std::alloc::Global;
use tw_journal::{Journal, ReadError, Window};
use tw_world::Disk;

/// A window on a disk, and the body of the block that was read last: of all versions that it names it is read once.
pub(crate) struct Reader {
    pub window: Window,
    held: bool,
    block: u64,
    pub body: Vec<u8>,
}

// It is written out, so that a caller does not prove again how each part is dropped.
impl Drop for Reader {
    fn drop(self) {
        let Reader {
            window: _,
            held: _,
            block: _,
            body: _,
        } = self;
    }
}

impl Reader {
    pub fn on<D: Disk>(alloc: Global, disk: &D) -> Reader
        ensures window { IsWindowOn D.model disk.now result.window }
        ensures none { result.held ≡ false }
    {
        Reader {
            window: Window::on(alloc, disk),
            held: false,
            block: 0,
            body: Vec::new(alloc),
        }
    }

    /// Reads the body of the record with this number, if it is not the one that was read last.
    pub fn show<D: Disk>(
        &mut self,
        alloc: Global,
        journal: &Journal,
        disk: &mut D,
        n: u64,
    ) -> Result<(), ReadError>
        requires inside { n < journal_count journal.now }
        requires length { is_closed journal.now ≡ false → D.model.len disk.old ≡ journal_end journal.now }
        requires window { IsWindowOn D.model disk.old self.old.window }

        ensures body { OnOk result (OnRecords D.model journal.now disk.old (λ _ bodies. IsShown self.old bodies → self.new.body.items ≡ body_at bodies n)) }
        ensures shown { OnOk result (OnRecords D.model journal.now disk.old (λ _ bodies. IsShown self.old bodies → IsShown self.new bodies)) }
        ensures window { OnOk result (IsWindowOn D.model disk.new self.new.window) }
        ensures untouched { Untouched D.model disk.old disk.new }
        ensures refused { IfErr result (λ e. ReadRefused D.model disk.old disk.new journal.now e) }
    {
        if self.held && self.block == n {
            return Ok(());
        }
        let body = journal.body_through(alloc, &mut self.window, disk, n)?;
        self.held = true;
        self.block = n;
        self.body = body;
        Ok(())
    }
}
