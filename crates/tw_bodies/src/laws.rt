//! Laws of bodies. Each is the contract of a function that does nothing.
ghost use Rattle.tw_bodies.specs.Spelling.{ReadIsSpelled, WrittenIsRead};

/// Bytes that are read as a step are the bytes that are written of it, and the step is one that the program takes: each step has one form.
pub fn what_is_read_is_spelled_so()
    ensures { ReadIsSpelled }
{}

/// What is written of a step that the program takes is read as that step, if a record can hold it.
pub fn what_is_written_is_read_again()
    ensures { WrittenIsRead }
{}
