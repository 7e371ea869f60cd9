//! What follows from the definitions, as contracts of functions that do nothing.
ghost use Rattle.std.specs.Prelude.{◌≡◌, ℕ, List, cond, Some};
ghost use Rattle.timew_interval.specs.declared.interval.Interval.{Interval};
ghost use Rattle.timew_interval.specs.Interval.{at, has, content, IsRow, AreRows};
ghost use Rattle.timew_interval.specs.Placing.{placed};

/// An interval that is placed has its own seconds, and every other second has what it had.
pub fn a_placed_interval_has_its_seconds()
    ensures { (new : Interval) (rows : List Interval) (second : ℕ) → at (placed new rows) second ≡ cond (has new second) (Some (content new)) (at rows second) }
{}

/// Intervals in order among which one is placed are in order, and none overlaps another.
pub fn placing_keeps_the_order()
    ensures { (new : Interval) (rows : List Interval) → IsRow new → AreRows rows → AreRows (placed new rows) }
{}
