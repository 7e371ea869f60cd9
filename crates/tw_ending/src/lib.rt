//! How a run of a command line ends: its text is printed, or a line says why there is none.
//! No line takes memory, however long the names in it are.
//! It uses the sinks of `tw_world`.
#![tactic(auto)]

mod line;
mod printing;
mod short;

pub use line::{put_line, put_pieces};
pub use printing::print;
pub use short::{Short, numbered, push_number, whole};
