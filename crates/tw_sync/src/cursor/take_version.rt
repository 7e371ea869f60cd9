// A cursor goes on to a version of the chain.
ghost use Rattle.std.specs.Prelude.{◌≡◌, ◌⊎◌, IfErr, OnOk};
ghost use Rattle.tw_sync.specs.declared.error.TakeError.TheVariants as taking;
ghost use Rattle.tw_sync.specs.Way.Cursor.{TakesVersion, IsNotTaken};

use crate::cursor::Cursor;
use crate::error::TakeError;
use std::alloc::Global;
use tw_model::Tasks;
use tw_segment::{SegmentError, read_segment};
use uuid::Uuid;

const MAX_PULL: u64 = 268_435_456;

impl Cursor {
    /// Goes on to a version that is a child of this one, beside the tasks at hand.
    ///
    /// After want of memory the cursor must not be used.
    pub fn take_version(
        &mut self,
        alloc: Global,
        hand: &Tasks,
        id: Uuid,
        segment: &[u8],
    ) -> Result<(), TakeError>
        ensures taken { OnOk result (TakesVersion hand.now self.old self.new id segment.now) }
        ensures refused { IfErr result (λ e. IsNotTaken self.old id segment.now e) }
        ensures kept { IfErr result (λ e. (e ≡ taking.Memory) ⊎ (self.new ≡ self.old)) }
    {
        let bytes = self.bytes + segment.len() as u64;
        if bytes > MAX_PULL {
            return Err(TakeError::TooLong { bytes });
        }
        let ops = match read_segment(alloc, segment) {
            Ok(ops) => ops,
            Err(SegmentError::Memory) => return Err(TakeError::Memory),
            Err(_) => return Err(TakeError::Segment { version: id }),
        };
        self.walker.pull(alloc, hand, id, &ops)?;
        self.versions += 1;
        self.bytes = bytes;
        Ok(())
    }
}
