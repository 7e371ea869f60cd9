// Moments.
ghost use Rattle.std.specs.Prelude.{◌<◌};
ghost use Rattle.tw_world.specs.declared.moment.TheConstants.{MOMENT_LIMIT};

/// The second from which on there is no moment: 9999-01-01T00:00:00Z.
pub const MOMENT_LIMIT: u64 = 253_370_764_800;

/// A moment, in Unix seconds and nanoseconds: from 1970 up to, and without, the year 9999.
#[derive(Clone, Copy, Debug, PartialEq, Eq, PartialOrd, Ord)]
pub struct Moment {
    pub seconds: u64,
    pub nanos: u32,
    pub ghost in_years: { seconds < MOMENT_LIMIT },
    pub ghost in_second: { nanos < 1000000000 },
}

impl Moment {
    ghost use Rattle.std.specs.Prelude.{◌≡◌};
    ghost use Rattle.tw_world.specs.Moment.{moment_of};

    /// The moment of these numbers, if both are in range.
    pub fn new(seconds: u64, nanos: u32) -> Option<Moment>
        ensures { result ≡ moment_of seconds nanos }
    {
        if seconds < MOMENT_LIMIT && nanos < 1_000_000_000 {
            Some(Moment { seconds, nanos })
        } else {
            None
        }
    }
}
