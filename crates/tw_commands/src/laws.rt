//! Laws of commands. Each is the contract of a function that does nothing.
ghost use Rattle.tw_commands.specs.Exports.{SelectsByTasks, ExportsAreEqual};
ghost use Rattle.tw_commands.specs.Laws.{AnswersAsShownChangeNothing, CarriedIsApplied, ChangesAreCarriedOut, ChangesAreStamped, ModifiedMovesExactly, OthersStay, UndoTakesBack};
ghost use Rattle.tw_commands.specs.Stays.{ImportsChangeWhatTheyGive, MakersChangeNone, ReportsChangeMasks};

/// What a command comes to is its step, taken from the state before.
pub fn what_a_command_comes_to_is_its_step()
    ensures { CarriedIsApplied }
{}

/// A command that makes changes is carried out, unless they close a circle or a report has nothing to show: their operations fit,
/// whatever they are.
pub fn changes_are_carried_out()
    ensures { ChangesAreCarriedOut }
{}

/// Hooks that answer each task as it is shown to them change nothing: the command comes to what it comes to without hooks.
pub fn answers_as_shown_change_nothing()
    ensures { AnswersAsShownChangeNothing }
{}

/// A command that acts on the tasks that its filter selects leaves the others as they were, but for the masks of templates and the moments
/// at which those changed, whatever hooks answer.
pub fn other_tasks_stay()
    ensures { OthersStay }
{}

/// `add`, `log` and `duplicate` leave each task that was there as it was, whatever hooks answer.
pub fn makers_change_none()
    ensures { MakersChangeNone }
{}

/// An import leaves each task that was there as it was, unless its input gives the task's uuid, whatever hooks answer.
pub fn imports_change_what_they_give()
    ensures { ImportsChangeWhatTheyGive }
{}

/// A report leaves each task that was there as it was, but for the masks of templates and the moments at which those changed.
pub fn reports_change_masks()
    ensures { ReportsChangeMasks }
{}

/// Each task that a command leaves that acts on selected ones is as it was, or has the moment of the command as its `modified`, if hooks answer
/// what they are shown.
pub fn changes_are_stamped()
    ensures { ChangesAreStamped }
{}

/// A task that is there before and after any command but `import` and `undo` is as it was, or another of its properties than `modified`
/// differs. Exactly then `modified` is the moment of the command. A template changes so if a report makes its mask longer. An import gives a
/// task the `modified` of its input, and an undo takes it back. Hooks, if they are asked, answer what they are shown.
pub fn modified_moves_exactly()
    ensures { ModifiedMovesExactly }
{}

/// An undo right after a command that wrote operations leads back to the tasks before it, and to what was pending.
pub fn an_undo_takes_a_command_back()
    ensures { UndoTakesBack }
{}

/// A filter without numbers selects by tasks alone: of two states with equal tasks it selects the same, whatever their numbers, the base and
/// what is pending are.
pub fn a_filter_without_numbers_selects_by_tasks()
    ensures { SelectsByTasks }
{}

/// Two runs of `export` print equal texts if the tasks are equal, and their filter, which has no numbers, the weights, the moment and the zone are
/// the same. Whatever else the replicas hold makes no difference.
pub fn exports_of_equal_tasks_are_equal()
    ensures { ExportsAreEqual }
{}
