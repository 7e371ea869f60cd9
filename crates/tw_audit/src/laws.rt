//! Laws of what differs. Each function does nothing: its contract is the law.
ghost use Rattle.tw_audit.specs.Laws.{EqualDifferInNothing, DifferenceIsFirst, ValueIsFirst};

/// Two task databases differ in nothing exactly if they are equal.
pub fn equal_tasks_differ_in_nothing()
    ensures { EqualDifferInNothing }
{}

/// The task that is named is the first one, in byte order of the uuids, at which they differ.
pub fn the_task_is_the_first()
    ensures { DifferenceIsFirst }
{}

/// The property that is named is the first one, in byte order, at which the tasks differ.
pub fn the_property_is_the_first()
    ensures { ValueIsFirst }
{}
