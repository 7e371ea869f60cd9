// What was read of one line after its moments.
ghost use Rattle.std.proofs.Props.{props};
ghost use Rattle.timew_month.specs.Exact.{IsTailOf};

use crate::read::tail::Tail;

/// The tags and the annotation that were read of bytes.
pub(crate) struct Seen<'a> {
    pub bytes: &'a [u8],
    pub tail: Tail,
    ghost is: { IsTailOf tail bytes.now } by { Prim.hlevel props },
}

// It is written out, so that a caller does not prove again how each part is dropped.
impl<'a> Drop for Seen<'a> {
    fn drop(self) {
        let Seen { bytes: _, tail: _ } = self;
    }
}
