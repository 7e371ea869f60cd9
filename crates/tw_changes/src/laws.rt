//! Laws of what commands make of tasks. Each is the contract of a function that does nothing.
ghost use Rattle.tw_changes.specs.Circles.{LeadsWhereAPathLeads};
ghost use Rattle.tw_changes.specs.Worded.{WordsAreTaken};

/// The words of a line that was judged are taken, if they name tasks: none of them is wrong.
pub fn words_are_taken()
    ensures { WordsAreTaken }
{}

/// What is judged of circles is whether there is a path of dependencies, of whatever length.
pub fn a_circle_is_a_path()
    ensures { LeadsWhereAPathLeads }
{}
