//! The laws of a report: no uuid changes twice, each number is made once, two machines make the same, a second report makes nothing.
ghost use Rattle.tw_recur.specs.Apart.{EachIsAll, InstancesAreApart, InstancesAreChanges};
ghost use Rattle.tw_recur.specs.Reported.{EachNumberOnce, MachinesMakeTheSame, SecondMakesNothing};

/// The operations of changes of different uuids are the same, each of what the tasks are or of what those before it leave.
pub fn each_is_all()
    ensures { EachIsAll }
{}

/// Each uuid is once in the changes of all instances: an instance that is made is no task yet, and a parent is one.
pub fn instances_are_apart()
    ensures { InstancesAreApart }
{}

/// The operations of all instances are those of their changes, each of what the changes before it leave.
pub fn instances_are_changes()
    ensures { InstancesAreChanges }
{}

/// Each number is made once: a mask grows by the characters of the numbers from its old length on, none left out, and the instance of each
/// is a task then.
pub fn each_number_is_made_once()
    ensures { EachNumberOnce }
{}

/// Two machines make the same: an instance's uuid is by its template's and its number alone, and its task by these, the template's
/// properties, the zone and the moment alone.
pub fn machines_make_the_same()
    ensures { MachinesMakeTheSame }
{}

/// A second report at the same moment makes nothing, unless a template's mask has grown by 1,000 characters.
pub fn a_second_report_makes_nothing()
    ensures { SecondMakesNothing }
{}
