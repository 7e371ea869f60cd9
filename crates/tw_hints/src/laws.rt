//! The law of all hints. The function does nothing: its contract is the law.
ghost use Rattle.tw_hints.specs.Lines.{HintsAreLines};

/// Each line of a hint begins with `tw: `, ends with a newline and has no other, whatever was typed.
pub fn hints_are_lines()
    ensures { HintsAreLines }
{}
