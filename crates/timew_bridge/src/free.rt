// The place of a task's own interval among others.
ghost use Rattle.std.specs.Prelude.{◌≡◌, ◌∷◌, []};
ghost use Rattle.timew_bridge.specs.Track.{is_tracked, free_from};

use timew_interval::Interval;

fn is_its_own(row: &Interval, name: &str, start: u64) -> bool
    ensures { result ≡ is_tracked name.now start (row.now ∷ []) }
{
    start <= row.start && row.annotation.as_str() == name
}

/// Whether an interval of a task starts at a second or after it.
pub fn is_tracked(rows: &[Interval], name: &str, start: u64) -> bool
    ensures { result ≡ is_tracked name.now start rows.now }
{
    for row in rows {
        if is_its_own(row, name, start) {
            return true;
        }
    }
    false
}

/// A second, or the last end of intervals if that is later.
pub fn free_from(start: u64, rows: &[Interval]) -> u64
    ensures { result ≡ free_from start rows.now }
{
    let mut at = start;
    for row in rows {
        at = at.max(row.end.unwrap_or(0));
    }
    at
}
