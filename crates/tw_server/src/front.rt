// The front of the body of a record.
ghost use Rattle.std.specs.Prelude.{◌≡◌, ◌<◌, take, false, IfOk, IfErr};
ghost use Rattle.tw_world.specs.Disk.{Untouched};
ghost use Rattle.tw_journal.specs.Journal.{OnBody, ReadRefused, journal_count, journal_end, is_closed};
ghost use Rattle.tw_journal.specs.Window.{IsWindowOn};

use std::alloc::Global;
use tw_journal::{Journal, ReadError, Window};
use tw_records::BEFORE_SEGMENT;
use tw_world::Disk;

/// What a body has before its segment, or all of a shorter one. So an opening reads no segment.
pub(crate) fn read_front<D: Disk>(
    journal: &Journal,
    alloc: Global,
    window: &mut Window,
    disk: &mut D,
    n: u64,
) -> Result<Vec<u8>, ReadError>
    requires inside { n < journal_count journal.now }
    requires length { is_closed journal.now ≡ false → D.model.len disk.old ≡ journal_end journal.now }
    requires window { IsWindowOn D.model disk.old window.old }

    ensures front { IfOk result (λ front. OnBody D.model journal.now disk.old n (λ stored. front.items ≡ take 49 stored)) }
    ensures window { IsWindowOn D.model disk.new window.new }
    ensures untouched { Untouched D.model disk.old disk.new }
    ensures refused { IfErr result (λ e. ReadRefused D.model disk.old disk.new journal.now e) }
{
    match journal.part_through(alloc, window, disk, n, 0, BEFORE_SEGMENT as u64) {
        Ok(front) => Ok(front),
        Err(ReadError::Damaged { .. }) => journal.body_through(alloc, window, disk, n),
        Err(ReadError::Disk) => Err(ReadError::Disk),
        Err(ReadError::Closed) => Err(ReadError::Closed),
        Err(ReadError::Memory) => Err(ReadError::Memory),
    }
}
