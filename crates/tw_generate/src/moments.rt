// The moments of a large world.
ghost use Rattle.std.specs.Prelude.{◌<◌};
ghost use Rattle.tw_world.specs.declared.moment.TheConstants.{MOMENT_LIMIT};
ghost use Rattle.tw_generate.specs.Generated.{IsSecond};

use tw_world::Moment;

/// A whole second.
pub(crate) fn at_second(second: u64) -> Moment
    requires { second < MOMENT_LIMIT }
    ensures { IsSecond second result }
{
    Moment {
        seconds: second,
        nanos: 0,
    }
}

/// The moment of the exports.
pub(crate) const EXPORTED_AT: Moment = Moment {
    seconds: 1_700_300_000,
    nanos: 0,
};
